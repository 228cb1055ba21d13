// One attribute of a wrapped key (document 02, E1; STS 600-4-2, clause 7.5.1), by its number from 1 or by its name: its card,
// name and value without the ';'. A record of another kind answers 2 in its place.
ghost use Rattle.std.specs.Prelude.{◌≡◌, take};
ghost use Rattle.format.specs.Kinds.{key_kinds};
ghost use Rattle.format.specs.Attributes.{cards_in};
ghost use Rattle.format.specs.Read.{read_of};
ghost use Rattle.reading.specs.Reading.{answer_of};
ghost use Rattle.fields.specs.Attributes.{list_said, cards_said, number_named, AttributeSaid, AttributePlaced};
ghost use Rattle.fields.specs.Steps.{number_of};

// ---- the list and its cards

// The list: field 2, empty with a refusal.
fn list_of<'a>(answer: &reading::Answer, record: &'a [u8]) -> &'a [u8]
    requires { answer.now ≡ answer_of (read_of key_kinds «record».now) }
    ensures { result.now ≡ list_said (read_of key_kinds «record».now) }
{
    places::field_at(record, &answer.starts, &answer.lens, table::KEY_ATTRIBUTES)
}

fn name_of<'a>(card: &'a [u8]) -> &'a [u8]
    ensures { result.now ≡ take 3 card.now }
{
    if card.len() < 3 {
        return card;
    }
    &card[0..3]
}

// Which card has this name, from 0.
fn card_named(list: &[u8], name: &[u8]) -> Option<usize>
    ensures { number_of result ≡ number_named name.now (cards_in list.now) }
{
    let mut card: usize = 0;
    let mut i: usize = 0;
    // from mark to mark: `split` has one more card, an empty one, behind the last ';' of a list
    while i < list.len() {
        let end = frame::next_mark(b';', list, i);
        if text::are_same(name_of(&list[i..end]), name) {
            return Some(card);
        }
        card += 1;
        i = end + 1;
    }
    None
}

// ---- where a card stands

// Where this card, from 0, stands in the record that a reading call answered so.
fn card_place(answer: &reading::Answer, record: &[u8], card: Option<usize>) -> crate::Place
    requires { answer.now ≡ answer_of (read_of key_kinds «record».now) }
    ensures { AttributePlaced (read_of key_kinds «record».now) (number_of card) «record».now result }
{
    if answer.no != numbers::ACCEPTED {
        return crate::nowhere(answer.no, answer.field);
    }
    let Some(card) = card else {
        return crate::nowhere(numbers::MISSING_ITEM, 0);
    };
    let list = list_of(answer, record);
    let start = frame::part_start(b';', list, card);
    if list.len() <= start {
        return crate::nowhere(numbers::MISSING_ITEM, 0);
    }
    let end = frame::next_mark(b';', list, start);
    let at = table::KEY_ATTRIBUTES - 1;
    crate::Place {
        no: numbers::ACCEPTED,
        field: 0,
        start: answer.starts[at] + start,
        len: end - start,
    }
}

// ---- the calls

// Where the attribute of a wanted number stands, counted from 1; number and field number are those of reading a KEY.1. A
// number that the list hasn't is 12, after every other. With a refusal start and length are 0.
pub fn attribute_place(record: &[u8], wanted: usize) -> crate::Place
    ensures { AttributePlaced (read_of key_kinds «record».now) wanted «record».now result }
{
    let answer = reading::read_of(table::KEY, table::ROWS, record);
    card_place(&answer, record, wanted.checked_sub(1))
}

// The same of the attribute with a name, which is its card's first three characters; 12 where no card has it.
pub fn attribute_named_place(record: &[u8], name: &[u8]) -> crate::Place
    ensures { AttributePlaced (read_of key_kinds «record».now) (number_named name.now (cards_said (read_of key_kinds «record».now))) «record».now result }
{
    let answer = reading::read_of(table::KEY, table::ROWS, record);
    let card = card_named(list_of(&answer, record), name);
    card_place(&answer, record, card)
}

// The attribute that stands there, as a part of the caller's own bytes; with a refusal an empty one, at their front.
pub fn attribute<'a>(record: &'a [u8], wanted: usize, no: &mut u8, field: &mut u8) -> &'a [u8]
    ensures { AttributeSaid (read_of key_kinds «record».now) wanted «record».entry result no.new field.new }
{
    crate::part_at(attribute_place(record, wanted), record, no, field)
}

// The same of the attribute with a name.
pub fn attribute_named<'a>(record: &'a [u8], name: &[u8], no: &mut u8, field: &mut u8) -> &'a [u8]
    ensures { AttributeSaid (read_of key_kinds «record».now) (number_named name.now (cards_said (read_of key_kinds «record».now))) «record».entry result no.new field.new }
{
    crate::part_at(attribute_named_place(record, name), record, no, field)
}
