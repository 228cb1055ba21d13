// The alphabets of STS 600-4-2, clauses 5.1.1 and 5.1.3, and texts of n characters (clause 5.1.2).
ghost use Rattle.std.specs.Prelude.{◌≡◌};
ghost use Rattle.text.specs.Text.{between, decimal, hexadecimal, alphanumeric, ident_character, printable};
ghost use Rattle.text.specs.Steps.{Every, Sized};

// low to high, both included.
pub(crate) fn is_between(low: usize, high: usize, n: usize) -> bool
    ensures { result ≡ between low high n }
{
    low <= n && n <= high
}

pub(crate) fn is_from_to(first: u8, last: u8, c: u8) -> bool
    ensures { result ≡ between first last c }
{
    is_between(first as usize, last as usize, c as usize)
}

pub(crate) fn is_decimal(c: u8) -> bool
    ensures { result ≡ decimal c }
{
    is_from_to(b'0', b'9', c)
}

pub(crate) fn is_hexadecimal(c: u8) -> bool
    ensures { result ≡ hexadecimal c }
{
    is_decimal(c) || is_from_to(b'A', b'F', c)
}

pub(crate) fn is_alphanumeric(c: u8) -> bool
    ensures { result ≡ alphanumeric c }
{
    is_decimal(c) || is_from_to(b'A', b'Z', c) || is_from_to(b'a', b'z', c)
}

pub(crate) fn is_ident_character(c: u8) -> bool
    ensures { result ≡ ident_character c }
{
    is_alphanumeric(c) || matches!(c, b'_' | b'-' | b'.' | b',')
}

// x20 to x7E without '|'.
pub(crate) fn is_printable(c: u8) -> bool
    ensures { result ≡ printable c }
{
    is_from_to(0x20, 0x7E, c) && c != b'|'
}

// ---- every character of a text, in two forms

// Up to the first that does not belong. LLVM leaves the loop as it is: no constant is made for it.
fn all_plain<F: Fn(u8) -> bool>(does_belong: F, s: &[u8]) -> bool
    requires { F.IsAlwaysCallable does_belong }
    ensures { Every (F.post does_belong) s.now result }
{
    s.iter().all(|c| does_belong(*c))
}

// Without an early end, so that LLVM takes many characters at once: the bounds of the alphabet become constants of 16 bytes each.
fn all_wide<F: Fn(u8) -> bool>(does_belong: F, s: &[u8]) -> bool
    requires { F.IsAlwaysCallable does_belong }
    ensures { Every (F.post does_belong) s.now result }
{
    let mut all = true;
    for c in s {
        all &= does_belong(*c);
    }
    all
}

// Every character of s belongs to the alphabet. The centre wants it fast, the module without constants.
pub(crate) fn all_belong<F: Fn(u8) -> bool>(does_belong: F, s: &[u8]) -> bool
    requires { F.IsAlwaysCallable does_belong }
    ensures { Every (F.post does_belong) s.now result }
{
    if form::is_centre() {
        return all_wide(does_belong, s);
    }
    all_plain(does_belong, s)
}

// Exactly n characters, all of them of the alphabet.
pub(crate) fn is_sized<F: Fn(u8) -> bool>(n: usize, does_belong: F, s: &[u8]) -> bool
    requires { F.IsAlwaysCallable does_belong }
    ensures { Sized n (F.post does_belong) s.now result }
{
    s.len() == n && all_belong(does_belong, s)
}
