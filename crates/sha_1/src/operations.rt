// The functions of SHA-1 (FIPS 180-4, 4.1.1), and words of bytes, the highest first (3.1).
ghost use Rattle.std.specs.Prelude.{◌≡◌, ◌+◌, ◌≤◌, length};
ghost use Rattle.sha_1.specs.Sha1.{Ch, Parity, Maj, f, word};

fn ch(x: u32, y: u32, z: u32) -> u32
    ensures { result ≡ Ch x y z }
{
    (x & y) ^ (!x & z)
}

fn parity(x: u32, y: u32, z: u32) -> u32
    ensures { result ≡ Parity x y z }
{
    x ^ y ^ z
}

fn maj(x: u32, y: u32, z: u32) -> u32
    ensures { result ≡ Maj x y z }
{
    (x & y) ^ (x & z) ^ (y & z)
}

// The function of round t.
pub(crate) fn f(t: usize, x: u32, y: u32, z: u32) -> u32
    ensures { result ≡ f t x y z }
{
    match t {
        0..20 => ch(x, y, z),
        20..40 => parity(x, y, z),
        40..60 => maj(x, y, z),
        _ => parity(x, y, z),
    }
}

// The word at byte i. Its bytes are joined by `|`, because LLVM makes one load of that; of `from_be_bytes` it makes wide loads of
// the whole block, which take a constant in the object.
pub(crate) fn word_at(bytes: &[u8], i: usize) -> u32
    requires { i + 4 ≤ length bytes.now }
    ensures { result ≡ word bytes.now i }
{
    ((bytes[i] as u32) << 24)
        | (((bytes[i + 1] as u32) << 16) | (((bytes[i + 2] as u32) << 8) | (bytes[i + 3] as u32)))
}
