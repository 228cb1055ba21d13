// The one table of kinds (document 01, "Seven kinds of record", and document 02, E1): names, marks, field counts and field types, which reader
// and builder both consult. A kind is the number of its row. Every look-up takes any number and says what it answers for
// a row, a field or a code that is not there. So rows and codes stay numbers, NONE too: an enum would take fewer values from callers, of whom
// `Determined` promises an answer to each, and the C interface hands on the row as a kind.
#![tactic(auto)]

ghost use Rattle.std.specs.Prelude.{◌≡◌, false, ◌||◌, ◌<◌, take, drop, eqb};
ghost use Rattle.text.specs.Text.{same};
ghost use Rattle.format.specs.Kinds.{name, identity_kinds, all_kinds};
ghost use Rattle.format.specs.Read.{kind_in};
ghost use Rattle.table.specs.Table.{row_count, row_for, of_row, mark_of, count_of, is_pubkey, is_kind, named, kinds_from, field_type, TypeOf, is_identity, may_be_empty, permitted, row_among};

// ---- the rows

pub const SMMAN: usize = 0;

pub const SMID: usize = 1;

pub const KMCID: usize = 2;

pub const ECDSA: usize = 3;

pub const ECDH: usize = 4;

pub const REQ: usize = 5;

pub const RESP: usize = 6;

pub const KEY: usize = 7;

pub const ROWS: usize = 8;

// Where there is no kind: a number that no row will ever take.
pub const NONE: usize = 255;

// ---- the fields by their numbers, from 1: an identity's, a public key's, a request's, a response's, a wrapped key's

pub const IDENTITY_MANUFACTURER: usize = 1;

pub const IDENTITY_MID: usize = 2;

pub const IDENTITY_GNT: usize = 3;

pub const IDENTITY_FINGERPRINT: usize = 4;

pub const PUBKEY_SUBJECT: usize = 1;

pub const PUBKEY_Q: usize = 2;

pub const PUBKEY_EXPIRY: usize = 3;

pub const PUBKEY_ISSUER: usize = 4;

pub const PUBKEY_SIGNATURE: usize = 5;

pub const REQ_ID_SM: usize = 1;

pub const REQ_ID_KMC: usize = 2;

pub const REQ_TVP: usize = 3;

pub const REQ_HWID: usize = 4;

pub const REQ_FWID: usize = 5;

pub const REQ_QE: usize = 6;

pub const REQ_MAC_TAG: usize = 7;

pub const RESP_ID_KMC: usize = 1;

pub const RESP_ID_SM: usize = 2;

pub const RESP_TVP: usize = 3;

pub const RESP_MAC_TAG: usize = 4;

pub const KEY_NONCE: usize = 1;

pub const KEY_ATTRIBUTES: usize = 2;

pub const KEY_PROTECTED_KEY: usize = 3;

// ---- the columns

// The names one after another, where each starts, and where the last ends. What fits a byte is one: the module team counts constants.
const NAMES: [u8; 69] = *b"SMMAN.1SMID.1KMCID.1PK.ECDSA.1PK.ECDH.1VKLOAD.REQ.1VKLOAD.RESP.1KEY.1";

const STARTS: [u8; 9] = [0, 7, 13, 20, 30, 39, 51, 64, 69];

const MARKS: [u8; 8] = [b':', b':', b':', b'|', b'|', b'|', b'|', b'|'];

const COUNTS: [u8; 8] = [4, 4, 4, 5, 5, 7, 4, 3];

// ---- the field types by their codes

pub const IDENT: u8 = 0;

pub const TIMESTAMP: u8 = 1;

pub const PRINT: u8 = 2;

pub const POINT: u8 = 3;

pub const MAC: u8 = 4;

pub const SIG_OR_EMPTY: u8 = 5;

pub const ID_SMMAN: u8 = 6;

pub const ID_SMID: u8 = 7;

pub const ID_KMCID: u8 = 8;

pub const ID_SMID_OR_KMCID: u8 = 9;

pub const ID_SMMAN_OR_EMPTY: u8 = 10;

pub const NONCE: u8 = 11;

pub const PRINTABLE: u8 = 12;

pub const PROTECTED: u8 = 13;

// Where each kind's field types start.
const FIRSTS: [usize; 8] = [0, 0, 0, 4, 9, 14, 21, 25];

const TYPES: [u8; 28] = [
    // SMMAN.1, SMID.1, KMCID.1
    IDENT, // 1 Manufacturer
    IDENT, // 2 MID
    TIMESTAMP, // 3 GNT
    PRINT, // 4 Fingerprint
    // PK.ECDSA.1
    ID_SMMAN, // 1 Subject
    POINT, // 2 Q
    TIMESTAMP, // 3 Expiry
    ID_SMMAN_OR_EMPTY, // 4 Issuer
    SIG_OR_EMPTY, // 5 Signature
    // PK.ECDH.1, as PK.ECDSA.1 but for the Subject
    ID_SMID_OR_KMCID,
    POINT,
    TIMESTAMP,
    ID_SMMAN_OR_EMPTY,
    SIG_OR_EMPTY,
    // VKLOAD.REQ.1
    ID_SMID, // 1 ID_SM
    ID_KMCID, // 2 ID_KMC
    TIMESTAMP, // 3 TVP
    IDENT, // 4 HWID
    IDENT, // 5 FWID
    POINT, // 6 QE
    MAC, // 7 MacTag
    // VKLOAD.RESP.1
    ID_KMCID, // 1 ID_KMC
    ID_SMID, // 2 ID_SM
    TIMESTAMP, // 3 TVP
    MAC, // 4 MacTag
    // KEY.1
    NONCE, // 1 Nonce
    PRINTABLE, // 2 Attributes
    PROTECTED, // 3 ProtectedKey
];

// ---- what a row has

// 0 for a row that is not there.
pub fn mark_of(row: usize) -> u8
    ensures { result ≡ mark_of row }
{
    MARKS.get(row).copied().unwrap_or(0)
}

// 0 for a row that is not there.
pub fn count_of(row: usize) -> usize
    ensures { result ≡ count_of row }
{
    COUNTS.get(row).copied().unwrap_or(0) as usize
}

// The code of the type of field j, from 0; IDENT for a row or a field that is not there.
pub fn type_of(row: usize, j: usize) -> u8
    ensures { TypeOf row j result }
{
    if count_of(row) <= j {
        return IDENT;
    }
    let at = FIRSTS[row] + j;
    TYPES[at]
}

// The row is a public key's, whose Issuer and Signature go together; false for a row that is not there.
pub fn is_pubkey(row: usize) -> bool
    ensures { result ≡ is_pubkey row }
{
    row == ECDSA || row == ECDH
}

// ---- the row that has a name

// A function of its own in the object too: where it stands in a loop over all rows, LLVM makes a table of jumps of the names' lengths.
#[inline(never)]
fn is_named(row: usize, title: &[u8]) -> bool
    requires { row < row_count }
    ensures { result ≡ of_row (λ k. same title.now (name k)) false row }
{
    let start = STARTS[row] as usize;
    let end = STARTS[row + 1] as usize;
    text::are_same(title, &NAMES[start..end])
}

// The row has this name; false for a row that is not there.
pub fn is_called(row: usize, title: &[u8]) -> bool
    ensures { result ≡ of_row (λ k. same title.now (name k)) false row }
{
    row < ROWS && is_named(row, title)
}

fn is_kind(row: usize, title: &[u8], mark: u8) -> bool
    requires { row < row_count }
    ensures { result ≡ of_row (is_kind title.now mark) false row }
{
    is_named(row, title) && mark == MARKS[row]
}

// The row from `from` to before `to` that has this name and this mark, or NONE.
fn row_in(title: &[u8], mark: u8, from: usize, to: usize) -> usize
    ensures { result ≡ row_for (kind_in (drop from (take to all_kinds)) title.now mark) }
{
    for row in from..to.min(ROWS) {
        if is_kind(row, title, mark) {
            return row;
        }
    }
    NONE
}

// The row of an identity kind, or NONE.
pub fn identity_kind(title: &[u8], mark: u8) -> usize
    ensures { result ≡ row_for (kind_in identity_kinds title.now mark) }
{
    row_in(title, mark, SMMAN, ECDSA)
}

// The row of a record kind from `from` to before `to`, or NONE.
pub fn record_kind(title: &[u8], mark: u8, from: usize, to: usize) -> usize
    ensures { result ≡ row_for (kind_in (kinds_from from to) title.now mark) }
{
    row_in(title, mark, from.max(ECDSA), to)
}

// The row of a kind by its name alone, or NONE.
pub fn kind_named(title: &[u8]) -> usize
    ensures { result ≡ row_for (named all_kinds title.now) }
{
    for row in 0..ROWS {
        if is_named(row, title) {
            return row;
        }
    }
    NONE
}

// ---- what a field type says, by its code

// An identity, or nothing in its place; false for a number that is no code.
pub fn is_identity(code: u8) -> bool
    ensures { result ≡ is_identity (field_type code) }
{
    ID_SMMAN <= code && code <= ID_SMMAN_OR_EMPTY
}

// The code is one of the two.
fn is_either(code: u8, a: u8, b: u8) -> bool
    ensures { result ≡ (eqb code a || eqb code b) }
{
    code == a || code == b
}

// False for a number that is no code.
pub fn may_be_empty(code: u8) -> bool
    ensures { result ≡ may_be_empty (field_type code) }
{
    is_either(code, SIG_OR_EMPTY, ID_SMMAN_OR_EMPTY)
}

// The field type permits identities of the kind of this row; false for a number that is no code or no row. By the row first, because LLVM
// makes a table of jumps of the five codes.
pub fn does_permit(code: u8, row: usize) -> bool
    ensures { result ≡ row_among row (permitted (field_type code)) }
{
    match row {
        SMMAN => is_either(code, ID_SMMAN, ID_SMMAN_OR_EMPTY),
        SMID => is_either(code, ID_SMID, ID_SMID_OR_KMCID),
        KMCID => is_either(code, ID_KMCID, ID_SMID_OR_KMCID),
        _ => false,
    }
}
