// The Fingerprint in the Subject of a public key: document 02, E3; STS 600-4-2, clauses 6.1 and 7.1. It is checked, or the one
// that is right is written. The calls take any bytes and have no `requires`; the record's own refusals come first. What is
// hashed goes into the hash from where it stands in the record.
#![tactic(auto)]

ghost use Rattle.std.specs.Prelude.{◌≡◌, length};
ghost use Rattle.sha384.specs.Sha384.{sha384};
ghost use Rattle.places.specs.Places.{field_at};
ghost use Rattle.subjects.specs.Subjects.{identity_part};
ghost use Rattle.put.specs.Made.{Writes};
ghost use Rattle.fingerprint.specs.Fingerprint.{print_of, check_fingerprint, write_fingerprint};
ghost use Rattle.fingerprint.specs.Steps.{front_at, text_at};

// A Fingerprint has so many characters.
const CHARACTERS: usize = 16;

// What a check answers: its number, and the field's number, 0 where none is named.
#[repr(C)]
#[derive(Clone, Copy)]
pub struct Checked {
    pub no: u8,
    pub field: u8,
}

// ---- the hash

// What stands in an identity before its Fingerprint: its kind name, Manufacturer, MID and GNT, each followed by ':'. Nothing, of
// bytes without so many marks.
fn front_of<'a>(identity: &'a [u8]) -> &'a [u8]
    ensures { result.now ≡ front_at identity.now }
{
    let body = frame::body_of(identity);
    let end = frame::part_start(b':', body, table::IDENTITY_FINGERPRINT);
    if identity.len() < end {
        return &identity[0..0];
    }
    &identity[0..end]
}

// Of the public key whose fields stand at these places: of what stands in its Subject before the Fingerprint, of Q's
// characters, and of ':'. Starts and lengths are lent as the answer has them: a struct would be made only to be taken apart by `field_at`.
fn hash_of(key: &[u8], starts: &[usize; 7], lens: &[usize; 7]) -> [u8; 48]
    ensures { result ≡ sha384 (text_at (field_at key.now starts.now lens.now 1) (field_at key.now starts.now lens.now 2)) }
{
    let subject = places::field_at(key, starts, lens, table::PUBKEY_SUBJECT);
    let q = places::field_at(key, starts, lens, table::PUBKEY_Q);
    let named = sha384::Sha384::begin().add(front_of(subject));
    named.add(q).add(b":").end()
}

// The Fingerprint that is right for it, where its Subject has one: as many characters as stand there. So the number of bytes is not known
// when it is compiled, and LLVM leaves the loop that writes them as it is.
fn right_print(key: &[u8], starts: &[usize; 7], lens: &[usize; 7]) -> [u8; 16]
    requires { length (identity_part (field_at key.now starts.now lens.now 1) 4) ≡ 16 }
    ensures { result ≡ print_of (text_at (field_at key.now starts.now lens.now 1) (field_at key.now starts.now lens.now 2)) }
{
    let subject = places::field_at(key, starts, lens, table::PUBKEY_SUBJECT);
    let bytes = subjects::field_in(subject, table::IDENTITY_FINGERPRINT).len() / 2;
    let hash = hash_of(key, starts, lens);
    let mut print = [0u8; 16];
    put::put_hex(&mut print, 0, &hash[..bytes]);
    print
}

// ---- the calls

// 15 where the Fingerprint in the Subject of an accepted public key is not the right one; any other kind answers 2 in its place.
pub fn check_fingerprint(record: &[u8]) -> Checked
    ensures { result ≡ check_fingerprint «record».now }
{
    let answer = reading::read_of(table::ECDSA, table::REQ, record);
    if answer.no != numbers::ACCEPTED {
        return Checked {
            no: answer.no,
            field: answer.field,
        };
    }
    let right = right_print(record, &answer.starts, &answer.lens);
    let subject = places::field_at(record, &answer.starts, &answer.lens, table::PUBKEY_SUBJECT);
    let print = subjects::field_in(subject, table::IDENTITY_FINGERPRINT);
    if text::are_same(print, &right) {
        return Checked {
            no: numbers::ACCEPTED,
            field: 0,
        };
    }
    Checked {
        no: numbers::WRONG_FINGERPRINT,
        field: 0,
    }
}

// Writes the sixteen characters that are right, whatever stands in the Subject, from the front of a lent output; or refuses,
// 10 last, and leaves it untouched.
pub fn write_fingerprint(record: &[u8], out: &mut [u8]) -> put::Written
    ensures { Writes (write_fingerprint «record».now (length out.old)) out.old out.new result }
{
    let answer = reading::read_of(table::ECDSA, table::REQ, record);
    if answer.no != numbers::ACCEPTED {
        return put::refuse(answer.no, answer.field);
    }
    if out.len() < CHARACTERS {
        return put::refuse(numbers::SHORT_OUTPUT, 0);
    }
    let right = right_print(record, &answer.starts, &answer.lens);
    let len = put::put(out, 0, &right);
    put::Written {
        no: numbers::ACCEPTED,
        field: 0,
        len,
    }
}
