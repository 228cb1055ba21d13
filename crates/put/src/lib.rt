// Writing into a lent output, one piece after another.
#![tactic(auto)]

ghost use Rattle.std.specs.Prelude.{◌≡◌, [], ◌∷◌, ◌*◌, ◌+◌, T};
ghost use Rattle.text.specs.Text.{hexadecimal};
ghost use Rattle.text.specs.Base16.{hex_value, base16};
ghost use Rattle.put.specs.Put.{Puts};
ghost use Rattle.put.specs.Decoded.{decoded};
ghost use Rattle.put.specs.Made.{denied, says};

// What a call that writes into a lent output answers: its number, the field's number (0 where none is named), and the
// length written from the front, 0 with a refusal.
#[repr(C)]
#[derive(Clone, Copy)]
pub struct Written {
    pub no: u8,
    pub field: u8,
    pub len: usize,
}

// The answer of a call that refuses.
pub fn refuse(no: u8, field: u8) -> Written
    ensures { result ≡ says (denied no field) }
{
    Written { no, field, len: 0 }
}

// Writes the piece at place `at` and answers the place after it. Where it does not fit, nothing is written and the answer
// is `at`.
pub fn put(out: &mut [u8], at: usize, piece: &[u8]) -> usize
    ensures { Puts out.old at piece.now out.new result }
{
    if out.len() < at || out.len() - at < piece.len() {
        return at;
    }
    // byte by byte: of `copy_from_slice` LLVM makes a call of memmove, which a module may not have
    for (i, byte) in piece.iter().enumerate() {
        out[at + i] = *byte;
    }
    at + piece.len()
}

// The same for one byte.
pub fn put_byte(out: &mut [u8], at: usize, byte: u8) -> usize
    ensures { Puts out.old at (byte ∷ []) out.new result }
{
    put(out, at, &[byte])
}

// The same for the hexadecimal characters of the bytes, two for each.
pub fn put_hex(out: &mut [u8], at: usize, bytes: &[u8]) -> usize
    ensures { Puts out.old at (base16 bytes.now) out.new result }
{
    if out.len() < at || (out.len() - at) / 2 < bytes.len() {
        return at;
    }
    let mut next = at;
    for byte in bytes {
        let pair = [text::hex_digit(byte / 16), text::hex_digit(byte % 16)];
        next = put(out, next, &pair);
    }
    next
}

// The byte of two hexadecimal characters.
fn byte_of(high: u8, low: u8) -> u8
    requires { T (hexadecimal high) × T (hexadecimal low) }
    ensures { result ≡ 16 * hex_value high + hex_value low }
{
    16 * text::hex_value(high) + text::hex_value(low)
}

// The other way: the byte of every two hexadecimal characters. Of characters that are not all hexadecimal nothing is written.
pub fn put_decoded(out: &mut [u8], at: usize, characters: &[u8]) -> usize
    ensures { Puts out.old at (decoded characters.now) out.new result }
{
    if !text::is_hex(characters.len(), characters) {
        return at;
    }
    if out.len() < at || out.len() - at < characters.len() / 2 {
        return at;
    }
    let mut next = at;
    for pair in characters.chunks_exact(2) {
        next = put_byte(out, next, byte_of(pair[0], pair[1]));
    }
    next
}
