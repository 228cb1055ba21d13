// What stands at the end: the padding of a message (FIPS 180-4, 5.1.1), and the digest (6.1.2).
ghost use Rattle.std.specs.Prelude.{◌≡◌, ◌+◌, take};
ghost use Rattle.put.specs.Put.{Puts};
ghost use Rattle.sha_1.specs.Sha1.{bytes4, zeros, padding, joined};

use crate::Words;

// How many values a word has.
const WORDS: u64 = 4294967296;

// The bytes of a word, written at a place of the output; the place after them. A function of its own for LLVM: where `to_be_bytes`
// stands in the callers, it makes constants of the bytes' places.
fn put_word(out: &mut [u8], at: usize, x: u32) -> usize
    ensures { Puts out.old at (bytes4 x) out.new result }
{
    put::put(out, at, &x.to_be_bytes())
}

// How many zeros follow the byte 80 hex, by the count of bytes.
pub(crate) fn zeros_after(count: u64) -> usize
    ensures { result ≡ zeros count }
{
    ((119 - count % 64) % 64) as usize
}

// The padding, at the front, of a message of so many bytes: the byte 80 hex, zeros, and the length in bits.
pub(crate) fn padding(count: u64) -> [u8; 72]
    ensures { take (zeros count + 9) result ≡ padding count }
{
    let mut padding = [0u8; 72];
    padding[0] = 0x80;
    let at = zeros_after(count) + 1;
    let next = put_word(&mut padding, at, ((count >> 29) % WORDS) as u32);
    put_word(&mut padding, next, ((count << 3) % WORDS) as u32);
    padding
}

// The five words.
pub(crate) fn digest(v: Words) -> [u8; 20]
    ensures { result ≡ joined v }
{
    let mut digest = [0u8; 20];
    let b = put_word(&mut digest, 0, v.a);
    let c = put_word(&mut digest, b, v.b);
    let d = put_word(&mut digest, c, v.c);
    let e = put_word(&mut digest, d, v.d);
    put_word(&mut digest, e, v.e);
    digest
}
