// Records by mail: document 02, E7; STS 600-4-2, Appendix C. A record is written between its BEGINS and ENDS lines, folded into rows of 64
// characters, and read back from a longer text. The calls take any bytes and have no `requires`.
#![tactic(auto)]

ghost use Rattle.std.specs.Prelude.{◌≡◌, [], ◌∷◌, ◌++◌, ◌+◌, ◌≤◌, length, drop, MatchOption};
ghost use Rattle.std.specs.Fn.{FnReturnsAt};
ghost use Rattle.text.specs.Text.{same};
ghost use Rattle.format.specs.Build.{joined};
ghost use Rattle.format.specs.Files.{line_feed};
ghost use Rattle.put.specs.Put.{Put};
ghost use Rattle.put.specs.Made.{Writes};
ghost use Rattle.numbers.specs.Numbers.{missing_begins, missing_ends};
ghost use Rattle.mail.specs.Mail.{lines_in, guard, rectype_in, is_begins, folded, block_of, block, missing, closed, opened, write_mail, read_found, read_mail};
ghost use Rattle.mail.specs.Steps.{line_from, Finds, Opens, Closes, feedless, Added};

// The characters of a full row.
const ROW: usize = 64;

// A line feed ends each line.
const FEED: u8 = b'\n';

// ---- writing

// What a guard begins with, and the words of both guards. They are put on the stack before they are borrowed: else they stand in the object.
const FRONT: [u8; 6] = *b"--STS:";

const BEGINS: [u8; 9] = *b" BEGINS--";

const ENDS: [u8; 7] = *b" ENDS--";

// A guard and its line feed.
fn put_guard(out: &mut [u8], at: usize, word: &[u8], rectype: &[u8]) -> usize
    requires { at + length (guard word.now rectype.now) + 1 ≤ length out.old }
    ensures { Put out.old at (guard word.now rectype.now ++ line_feed ∷ []) out.new result }
{
    let front = FRONT;
    let first = put::put(out, at, &front);
    let second = put::put(out, first, rectype);
    let third = put::put(out, second, word);
    put::put_byte(out, third, FEED)
}

// The rows, a line feed after each.
fn put_rows(out: &mut [u8], at: usize, record: &[u8]) -> usize
    requires { at + length (joined line_feed (folded «record».now)) ≤ length out.old }
    ensures { Put out.old at (joined line_feed (folded «record».now)) out.new result }
{
    let mut next = at;
    for row in record.chunks(ROW) {
        next = put::put(out, next, row);
        next = put::put_byte(out, next, FEED);
    }
    next
}

// The block, from the front of an output that has room for it.
fn put_block(out: &mut [u8], rectype: &[u8], record: &[u8]) -> usize
    requires { length (block_of rectype.now «record».now) ≤ length out.old }
    ensures { Put out.old 0 (block_of rectype.now «record».now) out.new result }
{
    let begins = BEGINS;
    let ends = ENDS;
    let first = put_guard(out, 0, &begins, rectype);
    let second = put_rows(out, first, record);
    put_guard(out, second, &ends, rectype)
}

// Its length: the rows and the two guards, each with its line feed.
fn block_length(rectype: &[u8], record: &[u8]) -> usize
    requires { (length rectype.now ≤ 32) × (length «record».now ≤ 1024) }
    ensures { result ≡ length (block_of rectype.now «record».now) }
{
    30 + 2 * rectype.len() + record.len() + record.len().div_ceil(ROW)
}

// Writes a record between its guards from the front of a lent output; or refuses, with the record's own number, then 10, and leaves it untouched.
pub fn write_mail(record: &[u8], out: &mut [u8]) -> put::Written
    ensures { Writes (write_mail «record».now (length out.old)) out.old out.new result }
{
    let answer = reading::read_record(record);
    if answer.no != numbers::ACCEPTED {
        return put::refuse(answer.no, answer.field);
    }
    let rectype = frame::title_of(record);
    if out.len() < block_length(rectype, record) {
        return put::refuse(numbers::SHORT_OUTPUT, 0);
    }
    let len = put_block(out, rectype, record);
    put::Written {
        no: numbers::ACCEPTED,
        field: 0,
        len,
    }
}

// ---- the lines of a text

// The line at a place, without its line feed; nothing past the end.
fn line_from<'a>(text: &'a [u8], place: usize) -> &'a [u8]
    ensures { result.now ≡ line_from text.now place }
{
    let rest = text.get(place..).unwrap_or(&[]);
    &rest[..frame::next_mark(FEED, rest, 0)]
}

// The line is the guard of this word and this record type. Inlined, since of a word that is handed over LLVM makes a constant.
#[inline(always)]
fn is_guard(line: &[u8], word: &[u8], rectype: &[u8]) -> bool
    ensures { result ≡ same line.now (guard word.now rectype.now) }
{
    // first by its length, which tells most lines apart
    if line.len() < rectype.len() || line.len() - rectype.len() != FRONT.len() + word.len() {
        return false;
    }
    let Some(rest) = line.strip_prefix(&FRONT) else {
        return false;
    };
    let Some(rest) = rest.strip_prefix(rectype) else {
        return false;
    };
    text::are_same(rest, word)
}

// What stands where a BEGINS line has its record type, and nothing in a line that is too short to be one.
fn rectype_in<'a>(line: &'a [u8]) -> &'a [u8]
    ensures { result.now ≡ rectype_in line.now }
{
    let end = line.len().saturating_sub(9);
    line.get(6..end).unwrap_or(&[])
}

fn is_begins(line: &[u8]) -> bool
    ensures { result ≡ is_begins line.now }
{
    let rectype = rectype_in(line);
    let word = BEGINS;
    text::is_ident(rectype) && is_guard(line, &word, rectype)
}

// Where the first line that passes the test starts, from the line at `from` on. The loop goes by places, which the lines that `split` gives do not have.
fn line_where<F: Fn(&[u8]) -> bool>(text: &[u8], from: usize, passes: F) -> Option<usize>
    requires { F.IsAlwaysCallable passes }
    ensures { Finds (FnReturnsAt F.Fn passes) text.now from result }
{
    let mut at = from;
    while at < text.len() {
        let line = line_from(text, at);
        if passes(line) {
            return Some(at);
        }
        at += line.len() + 1;
    }
    None
}

// Where the first BEGINS line starts.
fn begins_at(text: &[u8]) -> Option<usize>
    ensures { MatchOption result (opened (lines_in text.now) ≡ missing missing_begins) (Opens text.now) }
{
    line_where(text, 0, is_begins)
}

// Where the first ENDS line of this record type starts, from the line at `from` on.
fn ends_at(text: &[u8], from: usize, rectype: &[u8]) -> Option<usize>
    ensures { MatchOption result (closed rectype.now [] (lines_in (drop from text.now)) ≡ missing missing_ends) (Closes text.now from rectype.now) }
{
    let word = ENDS;
    line_where(text, from, |line| is_guard(line, &word, rectype))
}

// ---- unfolding

// Writes the byte unless it is a line feed, and answers the place after it, if it fits.
fn add(out: &mut [u8], at: usize, byte: u8) -> Option<usize>
    requires { at ≤ length out.old }
    ensures { Added out.old at (feedless (byte ∷ [])) out.new result }
{
    if byte == FEED {
        return Some(at);
    }
    if at == out.len() {
        return None;
    }
    Some(put::put_byte(out, at, byte))
}

// Joins the rows from the front of the output and answers their length, if they fit.
fn unfold(out: &mut [u8], rows: &[u8]) -> Option<usize>
    ensures { Added out.old 0 (feedless rows.now) out.new result }
{
    let mut len = 0;
    for byte in rows {
        len = add(out, len, *byte)?;
    }
    Some(len)
}

// ---- reading

// Gives the record, which is read as the kind of this name and as no other.
fn give(record: &[u8], rectype: &[u8], out: &mut [u8]) -> put::Written
    ensures { Writes (read_found (length out.old) (block rectype.now «record».now)) out.old out.new result }
{
    let row = table::kind_named(rectype);
    let answer = reading::read_of(row, row + 1, record);
    if answer.no != numbers::ACCEPTED {
        return put::refuse(answer.no, answer.field);
    }
    if out.len() < record.len() {
        return put::refuse(numbers::SHORT_OUTPUT, 0);
    }
    let len = put::put(out, 0, record);
    put::Written {
        no: numbers::ACCEPTED,
        field: 0,
        len,
    }
}

// The record must be whole before anything may be written into the lent output, so it is joined in an array of its own, whose
// length is fixed: there is no heap.
fn read_rows(rows: &[u8], rectype: &[u8], out: &mut [u8]) -> put::Written
    ensures { Writes (read_found (length out.old) (block rectype.now (feedless rows.now))) out.old out.new result }
{
    let mut joined = [0u8; reading::LONGEST];
    let Some(len) = unfold(&mut joined, rows) else {
        return put::refuse(numbers::TOO_LONG, 0);
    };
    give(&joined[..len], rectype, out)
}

// Reads the record between the first BEGINS line of a text and the first matching ENDS line after it into a lent output. 21 where there is no BEGINS
// line, 22 where no ENDS line matches it, then the record's own numbers (1 counts the bytes after unfolding, and 2 is given to a record that is not of
// the kind which the BEGINS line names), then 10. A refused call leaves the output untouched.
pub fn read_mail(text: &[u8], out: &mut [u8]) -> put::Written
    ensures { Writes (read_mail text.now (length out.old)) out.old out.new result }
{
    let Some(begins) = begins_at(text) else {
        return put::refuse(numbers::MISSING_BEGINS, 0);
    };
    let line = line_from(text, begins);
    let rectype = rectype_in(line);
    let from = begins + line.len() + 1;
    let Some(ends) = ends_at(text, from, rectype) else {
        return put::refuse(numbers::MISSING_ENDS, 0);
    };
    read_rows(&text[from..ends], rectype, out)
}
