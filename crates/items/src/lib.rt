// Key agreement texts as lists of items (STS 600-4-2, clause 5.6): the number of items, then of each its length and its bytes.
#![tactic(auto)]

ghost use Rattle.std.specs.Prelude.{◌≡◌};
ghost use Rattle.items.specs.Place.{nowhere, ItemPlaced, ItemHanded};

// Where an item stands in its text: number 0, its start and its length. With number 12: nowhere, both 0.
#[repr(C)]
#[derive(Clone, Copy)]
pub struct Place {
    pub no: u8,
    pub start: usize,
    pub len: usize,
}

fn missing() -> Place
    ensures { result ≡ nowhere }
{
    Place {
        no: numbers::MISSING_ITEM,
        start: 0,
        len: 0,
    }
}

// The place of the item of a wanted number, counted from 1, for callers that cannot take a part of the text.
// Walks over all items, so that a text that is too short or too long is found out whichever item is wanted.
pub fn item_place(text: &[u8], wanted: usize) -> Place
    ensures { ItemPlaced text.now wanted result }
{
    if text.is_empty() || wanted == 0 {
        return missing();
    }
    let n = text[0] as usize;
    let mut at = 1;
    // where the wanted item's length stands: a number, since a whole `Place` would be built in memory and copied from there
    let mut found = None;
    for i in 0..n {
        if text.len() <= at {
            return missing();
        }
        let len = text[at] as usize;
        let start = at + 1;
        if text.len() - start < len {
            return missing();
        }
        if i + 1 == wanted {
            found = Some(at);
        }
        at = start + len;
    }
    if at < text.len() {
        return missing();
    }
    match found {
        Some(here) => Place {
            no: numbers::ACCEPTED,
            start: here + 1,
            len: text[here] as usize,
        },
        None => missing(),
    }
}

// The item of a wanted number, counted from 1, as a part of the text, with number 0. Where the bytes have not the form of a
// text, or the number is not among its items: an empty part at its front, and 12. There is no limit of length.
pub fn text_item<'a>(text: &'a [u8], wanted: usize, no: &mut u8) -> &'a [u8]
    ensures { ItemHanded text.entry wanted result no.new }
{
    let place = item_place(text, wanted);
    *no = place.no;
    &text[place.start..place.start + place.len]
}
