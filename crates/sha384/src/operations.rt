// The functions of SHA-384 (FIPS 180-4, 4.1.3), and words of bytes, the highest first (3.1).
ghost use Rattle.std.specs.Prelude.{◌≡◌, ◌+◌, ◌≤◌, length};
ghost use Rattle.sha384.specs.Sha384.{Ch, Maj, Σ₀, Σ₁, σ₀, σ₁, word};

pub(crate) fn ch(x: u64, y: u64, z: u64) -> u64
    ensures { result ≡ Ch x y z }
{
    (x & y) ^ (!x & z)
}

pub(crate) fn maj(x: u64, y: u64, z: u64) -> u64
    ensures { result ≡ Maj x y z }
{
    (x & y) ^ (x & z) ^ (y & z)
}

pub(crate) fn sum0(x: u64) -> u64
    ensures { result ≡ Σ₀ x }
{
    x.rotate_right(28) ^ x.rotate_right(34) ^ x.rotate_right(39)
}

pub(crate) fn sum1(x: u64) -> u64
    ensures { result ≡ Σ₁ x }
{
    x.rotate_right(14) ^ x.rotate_right(18) ^ x.rotate_right(41)
}

pub(crate) fn sigma0(x: u64) -> u64
    ensures { result ≡ σ₀ x }
{
    x.rotate_right(1) ^ x.rotate_right(8) ^ (x >> 7)
}

pub(crate) fn sigma1(x: u64) -> u64
    ensures { result ≡ σ₁ x }
{
    x.rotate_right(19) ^ x.rotate_right(61) ^ (x >> 6)
}

// The word at byte i. Its bytes are joined by `|`, because LLVM makes one load of that; of `from_be_bytes` it makes wide loads of
// the whole block, which take a constant in the object.
pub(crate) fn word_at(bytes: &[u8], i: usize) -> u64
    requires { i + 8 ≤ length bytes.now }
    ensures { result ≡ word bytes.now i }
{
    ((bytes[i] as u64) << 56)
        | (((bytes[i + 1] as u64) << 48)
            | (((bytes[i + 2] as u64) << 40)
                | (((bytes[i + 3] as u64) << 32)
                    | (((bytes[i + 4] as u64) << 24)
                        | (((bytes[i + 5] as u64) << 16)
                            | (((bytes[i + 6] as u64) << 8) | (bytes[i + 7] as u64)))))))
}
