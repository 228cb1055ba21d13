// The newer of two public keys: document 01, "Files of records and the newer key", number 13. The calls take any bytes
// and have no `requires`.
#![tactic(auto)]

ghost use Rattle.std.specs.Prelude.{◌≡◌};
ghost use Rattle.format.specs.Kinds.{pubkey_kinds};
ghost use Rattle.format.specs.Read.{read_identity, read_of};
ghost use Rattle.places.specs.Places.{field_at};
ghost use Rattle.reading.specs.Reading.{answer_of};
ghost use Rattle.newer.specs.Newer.{by_subjects, newer, choice_said, Chosen};
ghost use Rattle.newer.specs.Steps.{Named};

// ---- what is answered

pub const FIRST: u8 = 1;

pub const SECOND: u8 = 2;

const NEITHER: u8 = 0;

// The number and the field's number; with 0 which of two public keys is the newer, FIRST or SECOND; with a refusal which of
// them is refused, and 0 where it is the two together (13).
#[repr(C)]
#[derive(Clone, Copy)]
pub struct Choice {
    pub no: u8,
    pub field: u8,
    pub which: u8,
}

// ---- what is compared

// By the Subjects of two accepted keys: 13 where they are not alike; otherwise the one with the later GNT, the first when
// equal.
fn by_subjects(first: &[u8], second: &[u8]) -> Choice
    ensures { Named first.now → Named second.now → result ≡ choice_said (by_subjects (read_identity first.now) (read_identity second.now)) }
{
    if !subjects::are_alike(first, second) {
        return Choice {
            no: numbers::NOT_ALIKE,
            field: 0,
            which: NEITHER,
        };
    }
    let is_second = text::is_later(
        subjects::field_in(second, table::IDENTITY_GNT),
        subjects::field_in(first, table::IDENTITY_GNT),
    );
    Choice {
        no: numbers::ACCEPTED,
        field: 0,
        which: if is_second { SECOND } else { FIRST },
    }
}

// ---- the records

// Reads public keys alone: the rows from ECDSA to before REQ.
fn read_key(key: &[u8]) -> reading::Answer
    ensures { result ≡ answer_of (read_of pubkey_kinds key.now) }
{
    reading::read_of(table::ECDSA, table::REQ, key)
}

// The Subject of a key that was answered so.
fn subject_of<'a>(key: &'a [u8], answer: &reading::Answer) -> &'a [u8]
    ensures { result.now ≡ field_at key.now answer.now.starts answer.now.lens 1 }
{
    places::field_at(key, &answer.starts, &answer.lens, table::PUBKEY_SUBJECT)
}

// Which of two public keys is the newer: the one whose Subject has the later GNT, the first when equal. The first record's
// refusals come before the second's, then 13.
pub fn newer_of(first: &[u8], second: &[u8]) -> Choice
    ensures { result ≡ choice_said (newer first.now second.now) }
{
    let one = read_key(first);
    if one.no != numbers::ACCEPTED {
        return Choice {
            no: one.no,
            field: one.field,
            which: FIRST,
        };
    }
    let other = read_key(second);
    if other.no != numbers::ACCEPTED {
        return Choice {
            no: other.no,
            field: other.field,
            which: SECOND,
        };
    }
    by_subjects(subject_of(first, &one), subject_of(second, &other))
}

// The same record itself, as it was lent, and an empty part at the front of the first with a refusal. The two lenders share
// one lifetime: docs/DECISIONS.md.
pub fn newer<'a>(first: &'a [u8], second: &'a [u8], no: &mut u8, field: &mut u8) -> &'a [u8]
    ensures { Chosen (newer first.now second.now) first.entry second.entry result no.new field.new }
{
    let choice = newer_of(first, second);
    *no = choice.no;
    *field = choice.field;
    if choice.no != numbers::ACCEPTED {
        return &first[0..0];
    }
    if choice.which == SECOND {
        return second;
    }
    first
}
