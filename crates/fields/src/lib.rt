// One field of a record, by its number from 1: document 01, "Numbers given back"; and one attribute of a wrapped key. Each
// call reads the record first, as the reading calls do; 12 for a field that the kind hasn't, or an attribute that the list
// hasn't, comes after every other number. No public call has a `requires`.
#![tactic(auto)]

mod attributes;

ghost use Rattle.std.specs.Prelude.{◌≡◌, ◌+◌, ◌≤◌, length, T, IfOk};
ghost use Rattle.text.specs.Text.{Bytes, between};
ghost use Rattle.format.specs.Read.{Outcome, read_identity, read_of, read_record};
ghost use Rattle.table.specs.Table.{kinds_from};
ghost use Rattle.reading.specs.Reading.{answer_of};
ghost use Rattle.reading.specs.Steps.{unless};
ghost use Rattle.fields.specs.Fields.{wanted_no, FieldSaid, Placed};
ghost use Rattle.fields.specs.Steps.{Reads, nowhere, Handed};

pub use attributes::{attribute, attribute_named, attribute_named_place, attribute_place};

// Where a field or an attribute stands in the caller's bytes: its start and its length, both 0 with a refusal.
#[repr(C)]
#[derive(Clone, Copy)]
pub struct Place {
    pub no: u8,
    pub field: u8,
    pub start: usize,
    pub len: usize,
}

// Nowhere, with the number of a refusal.
pub(crate) fn nowhere(no: u8, field: u8) -> Place
    ensures { result ≡ nowhere no field }
{
    Place {
        no,
        field,
        start: 0,
        len: 0,
    }
}

// A refusal's own number, and 12 for a field that the accepted kind hasn't.
fn wanted_no(answer: &reading::Answer, wanted: usize) -> Result<(), u8>
    ensures { ((o : Outcome) (s : Bytes) → Reads s o → answer.now ≡ answer_of o → result ≡ unless (wanted_no o wanted) tt) × IfOk result (λ u. T (between 1 7 wanted)) }
{
    if answer.no != numbers::ACCEPTED {
        return Err(answer.no);
    }
    if wanted == 0 {
        return Err(numbers::MISSING_ITEM);
    }
    if table::count_of(answer.kind) < wanted {
        return Err(numbers::MISSING_ITEM);
    }
    Ok(())
}

// Where the wanted field stands in what a reading call answered so.
fn place_from(answer: reading::Answer, wanted: usize) -> Place
    ensures { (o : Outcome) (s : Bytes) → Reads s o → answer ≡ answer_of o → Placed o wanted s result }
{
    if let Err(no) = wanted_no(&answer, wanted) {
        return nowhere(no, answer.field);
    }
    let at = wanted - 1;
    Place {
        no: numbers::ACCEPTED,
        field: answer.field,
        start: answer.starts[at],
        len: answer.lens[at],
    }
}

// Where the wanted field of an identity stands, counted from 1; number and field number are those that `read_identity`
// answers. A number that the kind hasn't is 12, after every other. With a refusal start and length are 0.
pub fn identity_place(identity: &[u8], wanted: usize) -> Place
    ensures { Placed (read_identity identity.now) wanted identity.now result }
{
    place_from(reading::read_identity(identity), wanted)
}

// The same of a record of the kinds in the table's rows from `from` to before `to`.
fn place_of(from: usize, to: usize, record: &[u8], wanted: usize) -> Place
    ensures { Placed (read_of (kinds_from from to) «record».now) wanted «record».now result }
{
    place_from(reading::read_of(from, to, record), wanted)
}

// The same of a record of any of the five record kinds.
pub fn record_place(record: &[u8], wanted: usize) -> Place
    ensures { Placed (read_record «record».now) wanted «record».now result }
{
    place_of(table::ECDSA, table::ROWS, record, wanted)
}

// The part of s at this place, and the place's numbers.
pub(crate) fn part_at<'a>(place: Place, s: &'a [u8], no: &mut u8, field: &mut u8) -> &'a [u8]
    requires { place.start + place.len ≤ length s.now }
    ensures { Handed place s.entry result no.new field.new }
{
    *no = place.no;
    *field = place.field;
    let start = place.start;
    let end = start + place.len;
    &s[start..end]
}

// The field that stands there, as a part of the caller's own bytes; with a refusal an empty one, at their front.
pub fn identity_field<'a>(
    identity: &'a [u8],
    wanted: usize,
    no: &mut u8,
    field: &mut u8,
) -> &'a [u8]
    ensures { FieldSaid (read_identity identity.now) wanted identity.entry result no.new field.new }
{
    part_at(identity_place(identity, wanted), identity, no, field)
}

// The same of a record, with the numbers that `read_of` answers.
fn field_of<'a>(
    from: usize,
    to: usize,
    record: &'a [u8],
    wanted: usize,
    no: &mut u8,
    field: &mut u8,
) -> &'a [u8]
    ensures { FieldSaid (read_of (kinds_from from to) «record».now) wanted «record».entry result no.new field.new }
{
    part_at(place_of(from, to, record, wanted), record, no, field)
}

// The same of a record of any of the five record kinds.
pub fn record_field<'a>(record: &'a [u8], wanted: usize, no: &mut u8, field: &mut u8) -> &'a [u8]
    ensures { FieldSaid (read_record «record».now) wanted «record».entry result no.new field.new }
{
    field_of(table::ECDSA, table::ROWS, record, wanted, no, field)
}
