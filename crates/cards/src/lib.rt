// The attributes of a wrapped key (STS 600-4-2, clause 7.5.1 and Appendix B): whether a list of them is permitted. The list is walked
// once: its names ascend, and so do those that are required, so each required name is looked for in its turn.
#![tactic(auto)]

ghost use Rattle.std.specs.Prelude.{◌≡◌, ℕ, ◌&&◌, [], ◌+◌, ◌*◌};
ghost use Rattle.format.specs.Attributes.{appendix_b, is_group_name, are_cards, has_needed, cards_in, are_attributes};
ghost use Rattle.cards.specs.Steps.{as_key, holds_at, key_in, needed_after};

// ---- the names of Appendix B by their keys

// A name as one number: names are the same where their keys are, and ascend where their keys do.
const ACT: u32 = 65536 * (b'A' as u32) + 256 * (b'C' as u32) + (b'T' as u32);

const BDT: u32 = 65536 * (b'B' as u32) + 256 * (b'D' as u32) + (b'T' as u32);

const DKG: u32 = 65536 * (b'D' as u32) + 256 * (b'K' as u32) + (b'G' as u32);

const IUT: u32 = 65536 * (b'I' as u32) + 256 * (b'U' as u32) + (b'T' as u32);

const KEN: u32 = 65536 * (b'K' as u32) + 256 * (b'E' as u32) + (b'N' as u32);

const KRN: u32 = 65536 * (b'K' as u32) + 256 * (b'R' as u32) + (b'N' as u32);

const KTC: u32 = 65536 * (b'K' as u32) + 256 * (b'T' as u32) + (b'C' as u32);

const SGC: u32 = 65536 * (b'S' as u32) + 256 * (b'G' as u32) + (b'C' as u32);

const SGN: u32 = 65536 * (b'S' as u32) + 256 * (b'G' as u32) + (b'N' as u32);

// Every name stands behind it.
const LOWEST: u32 = 0;

fn key_of(a: u8, b: u8, c: u8) -> u32
    ensures { result ≡ 65536 * a + 256 * b + c }
{
    65536 * (a as u32) + 256 * (b as u32) + (c as u32)
}

// ---- a card

// Document 000's limit.
const LONGEST_VALUE: usize = 252;

// 1-99P; that the characters are printable is asked of the whole field.
fn is_group_name(value: &[u8]) -> bool
    ensures { result ≡ is_group_name value.now }
{
    1 <= value.len() && value.len() <= 99
}

// The value of a name is what Appendix B says; a name that does not stand there may have any.
fn does_hold(key: u32, value: &[u8]) -> bool
    ensures { result ≡ holds_at appendix_b key value.now }
{
    match key {
        ACT | BDT | IUT => text::is_timestamp(value),
        DKG => text::is_digits(2, value),
        KEN => text::is_octet(value),
        KRN | KTC => text::is_digits(1, value),
        SGC => text::is_digits(10, value),
        SGN => is_group_name(value),
        _ => true,
    }
}

// The key of a card's name, a name of three letters or digits whose value fits it; None where it is no card.
fn card_key(card: &[u8]) -> Option<u32>
    ensures { result ≡ as_key (key_in card.now) }
{
    if card.len() < 3 || !text::is_alphanumeric(3, &card[..3]) {
        return None;
    }
    let value = &card[3..];
    if LONGEST_VALUE < value.len() {
        return None;
    }
    let key = key_of(card[0], card[1], card[2]);
    if does_hold(key, value) {
        Some(key)
    } else {
        None
    }
}

// ---- a list

// The required name to look for behind a card, where `needed` was looked for so far: the next where this is its card, and None behind
// the last.
fn needed_after(needed: Option<u32>, key: u32) -> Option<u32>
    ensures { (n : ℕ) → needed ≡ as_key n → result ≡ as_key (needed_after n key) }
{
    if needed != Some(key) {
        return needed;
    }
    match key {
        ACT => Some(BDT),
        BDT => Some(DKG),
        DKG => Some(KEN),
        KEN => Some(KRN),
        KRN => Some(KTC),
        KTC => Some(SGC),
        _ => None,
    }
}

// Each part that ';' ends is a card, their names ascend, and every name that Appendix B requires is among them.
fn are_cards(list: &[u8]) -> bool
    ensures { result ≡ (are_cards [] (cards_in list.now) && has_needed appendix_b (cards_in list.now)) }
{
    let mut before = LOWEST;
    let mut needed = Some(ACT);
    let mut i: usize = 0;
    // from card to card by their places: `split` has one more card, an empty one, behind the last ';' of a list
    while i < list.len() {
        let end = frame::next_mark(b';', list, i);
        let Some(key) = card_key(&list[i..end]) else {
            return false;
        };
        if key <= before {
            return false;
        }
        needed = needed_after(needed, key);
        before = key;
        i = end + 1;
    }
    needed.is_none()
}

// The list is one that clause 7.5.1 and Appendix B permit.
pub fn are_attributes(list: &[u8]) -> bool
    ensures { result ≡ are_attributes list.now }
{
    list.last() == Some(&b';') && are_cards(list)
}
