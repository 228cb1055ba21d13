// What a wrapped key has beside the other text types (STS 600-4-2, clauses 5.1.2, 7.5 and Appendix B).
ghost use Rattle.std.specs.Prelude.{◌≡◌, [], ◌∷◌};
ghost use Rattle.text.specs.Text.{number, is_digits, is_alphanumeric, is_octet, is_printable, is_protected};

// nD: exactly n decimal digits.
#[tactic(auto, unfolding(crate::specs::Text::is_digits))]
pub fn is_digits(n: usize, s: &[u8]) -> bool
    ensures { result ≡ is_digits n s.now }
{
    crate::alphabet::is_sized(n, crate::alphabet::is_decimal, s)
}

// nAN: exactly n letters or digits.
#[tactic(auto, unfolding(crate::specs::Text::is_alphanumeric))]
pub fn is_alphanumeric(n: usize, s: &[u8]) -> bool
    ensures { result ≡ is_alphanumeric n s.now }
{
    crate::alphabet::is_sized(n, crate::alphabet::is_alphanumeric, s)
}

// The number in three digits.
fn number_of(hundreds: u8, tens: u8, ones: u8) -> usize
    ensures { result ≡ number (hundreds ∷ tens ∷ ones ∷ []) }
{
    100 * crate::date::digit(hundreds) + 10 * crate::date::digit(tens) + crate::date::digit(ones)
}

// 3D, 000 to 255.
#[tactic(auto, unfolding(crate::specs::Text::is_octet))]
pub fn is_octet(s: &[u8]) -> bool
    ensures { result ≡ is_octet s.now }
{
    is_digits(3, s) && number_of(s[0], s[1], s[2]) <= 255
}

// P: one or more characters x20 to x7E, none of them '|'.
#[tactic(auto, unfolding(crate::specs::Text::is_printable))]
pub fn is_printable(s: &[u8]) -> bool
    ensures { result ≡ is_printable s.now }
{
    !s.is_empty() && crate::alphabet::all_belong(crate::alphabet::is_printable, s)
}

// A protected key: an even number of characters 0-9 and A-F, from 32 to 72.
#[tactic(auto, unfolding(crate::specs::Text::is_protected))]
pub fn is_protected(s: &[u8]) -> bool
    ensures { result ≡ is_protected s.now }
{
    crate::alphabet::is_between(32, 72, s.len())
        && s.len() % 2 == 0
        && crate::alphabet::all_belong(crate::alphabet::is_hexadecimal, s)
}
