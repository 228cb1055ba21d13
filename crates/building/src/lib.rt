// The building call: document 01, "Seven kinds of record" and "Numbers given back", and document 02, E1. It takes any bytes
// and lengths and has no `requires`. The order is 2, 5, then the fields from left to right (6, or 7 before 9), then 8, 14, 1
// and 10; nothing is written before all of them are asked. The table and the tests of a field are the reader's.
#![tactic(auto)]

ghost use Rattle.std.specs.Prelude.{◌≡◌, ◌∷◌, ◌+◌, ◌≤◌, length, eqb};
ghost use Rattle.format.specs.Build.{joined, with_check};
ghost use Rattle.reading.specs.Steps.{unless};
ghost use Rattle.put.specs.Put.{Put};
ghost use Rattle.put.specs.Made.{Writes};
ghost use Rattle.building.specs.Building.{sum, pieces, build};
ghost use Rattle.building.specs.Steps.{count_no, places_by, Lie};

const CHECK_LENGTH: usize = 4;

// ---- numbers 2 and 5

// The exact sum of the lengths is the total. What is left of the total is counted down, so that no sum wraps round.
fn do_add_up(lens: &[usize], total: usize) -> bool
    ensures { result ≡ eqb (sum lens.now) total }
{
    let mut left = total;
    for &len in lens {
        if left < len {
            return false;
        }
        left -= len;
    }
    left == 0
}

fn count_no(row: usize, bytes: &[u8], lens: &[usize]) -> Result<(), u8>
    ensures { result ≡ unless (count_no row bytes.now lens.now) tt }
{
    if row == table::NONE {
        return Err(numbers::UNKNOWN_KIND);
    }
    if lens.len() != table::count_of(row) {
        return Err(numbers::WRONG_COUNT);
    }
    if do_add_up(lens, bytes.len()) {
        return Ok(());
    }
    Err(numbers::WRONG_COUNT)
}

// ---- the fields

// Where each field stands in the caller's own bytes: one behind the other.
fn places_by(bytes: &[u8], lens: &[usize]) -> places::Places
    requires { (length lens.now ≤ 7) × (sum lens.now ≡ length bytes.now) }
    ensures { result ≡ places_by lens.now }
{
    let mut starts = [0; 7];
    let mut sizes = [0; 7];
    let mut start: usize = 0;
    for (j, &len) in lens.iter().enumerate() {
        starts[j] = start;
        sizes[j] = len;
        start += len;
    }
    places::Places {
        count: lens.len(),
        starts,
        lens: sizes,
    }
}

// ---- writing: each field and the mark after it, and the record from the front

fn put_fields(
    out: &mut [u8],
    at: usize,
    mark: u8,
    bytes: &[u8],
    lens: &[usize],
    found: &places::Places,
) -> usize
    requires { (sum lens.now ≡ length bytes.now) × Lie bytes.now lens.now found.now.starts found.now.lens × (at + length bytes.now + length lens.now ≤ length out.old) }
    ensures { Put out.old at (joined mark (pieces lens.now bytes.now)) out.new result }
{
    let mut next = at;
    for j in 0..lens.len() {
        let field = places::part_at(bytes, &found.starts, &found.lens, j);
        next = put::put(out, next, field);
        next = put::put_byte(out, next, mark);
    }
    next
}

// The kind's name is the caller's own; the check is that of the bytes written.
fn put_record(
    out: &mut [u8],
    kind: &[u8],
    mark: u8,
    bytes: &[u8],
    lens: &[usize],
    found: &places::Places,
) -> usize
    requires { (sum lens.now ≡ length bytes.now) × Lie bytes.now lens.now found.now.starts found.now.lens × (length kind.now + 1 + length bytes.now + length lens.now + 4 ≤ length out.old) }
    ensures { Put out.old 0 (with_check (joined mark (kind.now ∷ pieces lens.now bytes.now))) out.new result }
{
    let named = put::put(out, 0, kind);
    let marked = put::put_byte(out, named, mark);
    let end = put_fields(out, marked, mark, bytes, lens, found);
    let check = text::check_text(crc16::crc_of(&out[0..end]));
    put::put(out, end, &check)
}

// ---- the call

// Builds a record of the named kind into `out`, from the front, and answers its length. `bytes` are the bytes of all fields
// one after another without marks, `lens` the fields' lengths. An identity is taken as finished text and copied.
pub fn build(kind: &[u8], bytes: &[u8], lens: &[usize], out: &mut [u8]) -> put::Written
    ensures { Writes (build kind.now bytes.now lens.now (length out.old)) out.old out.new result }
{
    let row = table::kind_named(kind);
    if let Err(no) = count_no(row, bytes, lens) {
        return put::refuse(no, 0);
    }
    let found = places_by(bytes, lens);
    let judged = reading::judge(row, bytes, &found.starts, &found.lens);
    if judged.no != numbers::ACCEPTED {
        return put::refuse(judged.no, judged.field);
    }
    let needed = kind.len() + 1 + bytes.len() + lens.len() + CHECK_LENGTH;
    if reading::LONGEST < needed {
        return put::refuse(numbers::TOO_LONG, 0);
    }
    if out.len() < needed {
        return put::refuse(numbers::SHORT_OUTPUT, 0);
    }
    let len = put_record(out, kind, table::mark_of(row), bytes, lens, &found);
    put::Written {
        no: numbers::ACCEPTED,
        field: 0,
        len,
    }
}
