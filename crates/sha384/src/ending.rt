// What stands at the end: the padding of a message (FIPS 180-4, 5.1.2), and the digest (6.4.2).
ghost use Rattle.std.specs.Prelude.{◌≡◌, ◌+◌, ◌*◌, ◌^◌, take};
ghost use Rattle.put.specs.Put.{Puts};
ghost use Rattle.sha384.specs.Sha384.{bytes8, zeros, padding, left384};

use crate::Words;

// The bytes of a word, written at a place of the output; the place after them. A function of its own for LLVM: where `to_be_bytes`
// stands in the callers, it makes constants of the bytes' places.
fn put_word(out: &mut [u8], at: usize, x: u64) -> usize
    ensures { Puts out.old at (bytes8 x) out.new result }
{
    put::put(out, at, &x.to_be_bytes())
}

// How many zeros follow the byte 80 hex, by the lower word of the count of bytes.
pub(crate) fn zeros_after(low: u64) -> usize
    ensures { result ≡ zeros low }
{
    ((239 - low % 128) % 128) as usize
}

// The padding, at the front, of a message whose count of bytes is in these two words: the byte 80 hex, zeros, and the length
// in bits.
pub(crate) fn padding(high: u64, low: u64) -> [u8; 144]
    ensures { take (zeros low + 17) result ≡ padding (high * 2 ^ 64 + low) }
{
    let mut padding = [0u8; 144];
    padding[0] = 0x80;
    let at = zeros_after(low) + 1;
    let next = put_word(&mut padding, at, (high << 3) + (low >> 61));
    put_word(&mut padding, next, low << 3);
    padding
}

// The first six words.
pub(crate) fn digest(v: Words) -> [u8; 48]
    ensures { result ≡ left384 v }
{
    let mut digest = [0u8; 48];
    let b = put_word(&mut digest, 0, v.a);
    let c = put_word(&mut digest, b, v.b);
    let d = put_word(&mut digest, c, v.c);
    let e = put_word(&mut digest, d, v.d);
    let f = put_word(&mut digest, e, v.e);
    put_word(&mut digest, f, v.f);
    digest
}
