// The text types of documents 01 and 02 and the conversions between hexadecimal characters and values. Each call takes any
// slice and answers; none has a `requires`. There is no table of digits.
#![tactic(auto)]

mod alphabet;
mod base16;
mod calendar;
mod date;
mod moment;
mod wrapped;

ghost use Rattle.std.specs.Prelude.{◌≡◌};
ghost use Rattle.text.specs.Text.{same, is_ident, is_hex, is_point, is_sig, is_mac, is_print};

pub use base16::{check_text, hex_digit, hex_value};
pub use moment::{Moment, is_later, is_timestamp, moment_of, seconds_bytes};
pub use wrapped::{is_alphanumeric, is_digits, is_octet, is_printable, is_protected};

// Document 01's limit of an IDENT.
const LONGEST_IDENT: usize = 32;

// The two slices hold the same bytes.
pub fn are_same(a: &[u8], b: &[u8]) -> bool
    ensures { result ≡ same a.now b.now }
{
    a == b
}

// IDENT: 1 to LONGEST_IDENT characters, the first of them alphanumeric, the others alphanumeric or one of `_ - . ,`.
#[tactic(auto, unfolding(crate::specs::Text::is_ident))]
pub fn is_ident(s: &[u8]) -> bool
    ensures { result ≡ is_ident s.now }
{
    alphabet::is_between(1, LONGEST_IDENT, s.len())
        && alphabet::is_alphanumeric(s[0])
        && alphabet::all_belong(alphabet::is_ident_character, &s[1..])
}

// HEX(n): exactly n characters 0-9 and A-F.
#[tactic(auto, unfolding(crate::specs::Text::is_hex))]
pub fn is_hex(n: usize, s: &[u8]) -> bool
    ensures { result ≡ is_hex n s.now }
{
    alphabet::is_sized(n, alphabet::is_hexadecimal, s)
}

// POINT: HEX(194) that begins with "04".
#[tactic(auto, unfolding(crate::specs::Text::is_point))]
pub fn is_point(s: &[u8]) -> bool
    ensures { result ≡ is_point s.now }
{
    is_hex(194, s) && s.starts_with(b"04")
}

// SIG: HEX(192).
pub fn is_sig(s: &[u8]) -> bool
    ensures { result ≡ is_sig s.now }
{
    is_hex(192, s)
}

// MAC: HEX(48).
pub fn is_mac(s: &[u8]) -> bool
    ensures { result ≡ is_mac s.now }
{
    is_hex(48, s)
}

// PRINT: HEX(16).
pub fn is_print(s: &[u8]) -> bool
    ensures { result ≡ is_print s.now }
{
    is_hex(16, s)
}
