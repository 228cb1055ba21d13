// What every record has whatever its kind (STS 600-4-2, clauses 5.7 and 5.8): its first mark, the parts between its
// marks, and its check. No call has a `requires`: a record too short for a check has an empty body.
#![tactic(auto)]

ghost use Rattle.std.specs.Prelude.{◌≡◌, ◌-◌, length};
ghost use Rattle.text.specs.Part.{Part};
ghost use Rattle.format.specs.Read.{is_mark, title, mark_after, body, check, ends_in, check_no};
ghost use Rattle.frame.specs.Frame.{next_mark, part_start, IsPart};

const CHECK_LENGTH: usize = 4;

// ---- the first mark

// A mark of either sort.
fn is_mark(c: u8) -> bool
    ensures { result ≡ is_mark c }
{
    matches!(c, b':' | b'|')
}

fn title_length(s: &[u8]) -> usize
    ensures { result ≡ length (title s.now) }
{
    s.iter().position(|c| is_mark(*c)).unwrap_or(s.len())
}

// What stands before the first mark of either sort, and all if there is none.
pub fn title_of<'a>(s: &'a [u8]) -> &'a [u8]
    ensures { Part s.entry 0 (title s.now) result }
{
    let at = title_length(s);
    &s[0..at]
}

// The first mark of either sort, and 0 if there is none.
pub fn mark_after(s: &[u8]) -> u8
    ensures { result ≡ mark_after s.now }
{
    let at = title_length(s);
    s.get(at).copied().unwrap_or(0)
}

// ---- the parts

// The first place of the mark at or after `from`, or the end.
pub fn next_mark(mark: u8, s: &[u8], from: usize) -> usize
    ensures { result ≡ next_mark mark s.now from }
{
    match s.get(from..) {
        Some(rest) => from + rest.iter().position(|c| *c == mark).unwrap_or(rest.len()),
        None => from,
    }
}

// Where part n, from 0, begins: behind the parts before it, each with its mark. Where there are not so many, behind the
// last.
pub fn part_start(mark: u8, s: &[u8], n: usize) -> usize
    ensures { result ≡ part_start mark s.now n }
{
    let mut i = 0;
    for _ in 0..n {
        if s.len() <= i {
            return i;
        }
        i = next_mark(mark, s, i) + 1;
    }
    i
}

// Part n, from 0, and an empty one at the front if there is none. Part 0 of a body is the kind's name, so a field's number is its
// part's.
pub fn part<'a>(mark: u8, s: &'a [u8], n: usize) -> &'a [u8]
    ensures { IsPart mark s.entry n result }
{
    let start = part_start(mark, s, n);
    if s.len() <= start {
        return &s[0..0];
    }
    let end = next_mark(mark, s, start);
    &s[start..end]
}

// ---- the check

fn body_length(s: &[u8]) -> usize
    ensures { result ≡ length s.now - 4 }
{
    s.len().saturating_sub(CHECK_LENGTH)
}

// All but the last four bytes.
pub fn body_of<'a>(s: &'a [u8]) -> &'a [u8]
    ensures { Part s.entry 0 (body s.now) result }
{
    let end = body_length(s);
    &s[0..end]
}

// The last four bytes, and all if there are fewer.
fn check_of<'a>(s: &'a [u8]) -> &'a [u8]
    ensures { result.now ≡ check s.now }
{
    let start = body_length(s);
    &s[start..]
}

// The mark is the last byte; no bytes have no last one.
fn ends_in(mark: u8, s: &[u8]) -> bool
    ensures { result ≡ ends_in mark s.now }
{
    s.last() == Some(&mark)
}

// 3 where no check or no mark before it stands at the end, 4 where the check differs, else 0.
#[tactic(auto, unfolding(format::specs::Read::check_no))]
pub fn check_no(mark: u8, s: &[u8]) -> u8
    ensures { result ≡ check_no mark s.now }
{
    let check = check_of(s);
    let body = body_of(s);
    if !text::is_hex(CHECK_LENGTH, check) || !ends_in(mark, body) {
        return numbers::MISSING_CHECK;
    }
    if text::are_same(check, &text::check_text(crc16::crc_of(body))) {
        numbers::ACCEPTED
    } else {
        numbers::WRONG_CHECK
    }
}
