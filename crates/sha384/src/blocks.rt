// The hash of blocks: FIPS 180-4, 4.2.3 (the constants) and 6.4.2 (the message schedule, the rounds, the next hash value).
ghost use Rattle.std.specs.Prelude.{◌≡◌, ◌+◌, ◌/◌, ◌<◌, length, take};
ghost use Rattle.sha384.specs.declared.Words.{Words};
ghost use Rattle.sha384.specs.Sha384.{K, words, next, schedule, round, rounds, sums, compress, hashed};

use crate::{BLOCK, Words, operations};

const CONSTANTS: [u64; 80] = [
    0x428a2f98d728ae22,
    0x7137449123ef65cd,
    0xb5c0fbcfec4d3b2f,
    0xe9b5dba58189dbbc,
    0x3956c25bf348b538,
    0x59f111f1b605d019,
    0x923f82a4af194f9b,
    0xab1c5ed5da6d8118,
    0xd807aa98a3030242,
    0x12835b0145706fbe,
    0x243185be4ee4b28c,
    0x550c7dc3d5ffb4e2,
    0x72be5d74f27b896f,
    0x80deb1fe3b1696b1,
    0x9bdc06a725c71235,
    0xc19bf174cf692694,
    0xe49b69c19ef14ad2,
    0xefbe4786384f25e3,
    0x0fc19dc68b8cd5b5,
    0x240ca1cc77ac9c65,
    0x2de92c6f592b0275,
    0x4a7484aa6ea6e483,
    0x5cb0a9dcbd41fbd4,
    0x76f988da831153b5,
    0x983e5152ee66dfab,
    0xa831c66d2db43210,
    0xb00327c898fb213f,
    0xbf597fc7beef0ee4,
    0xc6e00bf33da88fc2,
    0xd5a79147930aa725,
    0x06ca6351e003826f,
    0x142929670a0e6e70,
    0x27b70a8546d22ffc,
    0x2e1b21385c26c926,
    0x4d2c6dfc5ac42aed,
    0x53380d139d95b3df,
    0x650a73548baf63de,
    0x766a0abb3c77b2a8,
    0x81c2c92e47edaee6,
    0x92722c851482353b,
    0xa2bfe8a14cf10364,
    0xa81a664bbc423001,
    0xc24b8b70d0f89791,
    0xc76c51a30654be30,
    0xd192e819d6ef5218,
    0xd69906245565a910,
    0xf40e35855771202a,
    0x106aa07032bbd1b8,
    0x19a4c116b8d2d0c8,
    0x1e376c085141ab53,
    0x2748774cdf8eeb99,
    0x34b0bcb5e19b48a8,
    0x391c0cb3c5c95a63,
    0x4ed8aa4ae3418acb,
    0x5b9cca4f7763e373,
    0x682e6ff3d6b2b8a3,
    0x748f82ee5defb2fc,
    0x78a5636f43172f60,
    0x84c87814a1f0ab72,
    0x8cc702081a6439ec,
    0x90befffa23631e28,
    0xa4506cebde82bde9,
    0xbef9a3f7b2c67915,
    0xc67178f2e372532b,
    0xca273eceea26619c,
    0xd186b8c721c0c207,
    0xeada7dd6cde0eb1e,
    0xf57d4f7fee6ed178,
    0x06f067aa72176fba,
    0x0a637dc5a2c898a6,
    0x113f9804bef90dae,
    0x1b710b35131c471b,
    0x28db77f523047d84,
    0x32caab7b40c72493,
    0x3c9ebe0a15c9bebc,
    0x431d67c49c100d4c,
    0x4cc5d4becb3e42b6,
    0x597f299cfc657e2a,
    0x5fcb6fab3ad6faec,
    0x6c44198c4a475817,
];

// ---- the message schedule

// A schedule whose first sixteen words are those of the block.
fn first_words(block: &[u8; 128]) -> [u64; 80]
    ensures { (length result ≡ 80) × (take 16 result ≡ words block.now 16) }
{
    let mut w = [0; 80];
    for t in 0..16 {
        w[t] = operations::word_at(block, 8 * t);
    }
    w
}

// The word after the first 16 + n.
fn next_word(w: &[u64; 80], n: usize) -> u64
    requires { n < 64 }
    ensures { result ≡ next w.now n }
{
    operations::sigma1(w[n + 14])
        .wrapping_add(w[n + 9])
        .wrapping_add(operations::sigma0(w[n + 1]))
        .wrapping_add(w[n])
}

// The message schedule of a block.
fn schedule(block: &[u8; 128]) -> [u64; 80]
    ensures { result ≡ schedule block.now 64 }
{
    let mut w = first_words(block);
    for n in 0..64 {
        w[n + 16] = next_word(&w, n);
    }
    w
}

// ---- the rounds

fn round(v: Words, k: u64, w: u64) -> Words
    ensures { result ≡ round v k w }
{
    let t1 = v
        .h
        .wrapping_add(operations::sum1(v.e))
        .wrapping_add(operations::ch(v.e, v.f, v.g))
        .wrapping_add(k)
        .wrapping_add(w);
    let t2 = operations::sum0(v.a).wrapping_add(operations::maj(v.a, v.b, v.c));
    Words {
        a: t1.wrapping_add(t2),
        b: v.a,
        c: v.b,
        d: v.c,
        e: v.d.wrapping_add(t1),
        f: v.e,
        g: v.f,
        h: v.g,
    }
}

// Four rounds from round i on: in a loop of single rounds every turn moves all eight variables (docs/DECISIONS.md).
fn four_rounds(k: &[u64; 80], w: &[u64; 80], v: Words, i: usize) -> Words
    requires { i < 77 }
    ensures { (u : Words) → v ≡ rounds k.now w.now u i → result ≡ rounds k.now w.now u (i + 4) }
{
    let one = round(v, k[i], w[i]);
    let two = round(one, k[i + 1], w[i + 1]);
    let three = round(two, k[i + 2], w[i + 2]);
    round(three, k[i + 3], w[i + 3])
}

// All eighty.
fn rounds(k: &[u64; 80], w: &[u64; 80], v: Words) -> Words
    ensures { result ≡ rounds k.now w.now v 80 }
{
    let mut u = v;
    for t in (0..80).step_by(4) {
        u = four_rounds(k, w, u, t);
    }
    u
}

// ---- the hash value

fn sums(v: Words, u: Words) -> Words
    ensures { result ≡ sums v u }
{
    Words {
        a: v.a.wrapping_add(u.a),
        b: v.b.wrapping_add(u.b),
        c: v.c.wrapping_add(u.c),
        d: v.d.wrapping_add(u.d),
        e: v.e.wrapping_add(u.e),
        f: v.f.wrapping_add(u.f),
        g: v.g.wrapping_add(u.g),
        h: v.h.wrapping_add(u.h),
    }
}

// After one block, from the hash value before it.
fn compress(k: &[u64; 80], v: Words, block: &[u8; 128]) -> Words
    requires { k.now ≡ K }
    ensures { result ≡ compress v block.now }
{
    let w = schedule(block);
    sums(rounds(k, &w, v), v)
}

// After the whole blocks of the bytes.
fn hash_by(k: &[u64; 80], v: Words, bytes: &[u8]) -> Words
    requires { k.now ≡ K }
    ensures { result ≡ hashed v bytes.now (length bytes.now / 128) }
{
    let (blocks, _) = bytes.as_chunks::<BLOCK>();
    let mut hash = v;
    for block in blocks {
        hash = compress(k, hash, block);
    }
    hash
}

// After the whole blocks of `first`, and then of `second`. The constants are put on the stack wherever they are named: here,
// once for both.
pub(crate) fn hash_both(v: Words, first: &[u8], second: &[u8]) -> Words
    ensures { result ≡ hashed (hashed v first.now (length first.now / 128)) second.now (length second.now / 128) }
{
    let k = CONSTANTS;
    hash_by(&k, hash_by(&k, v, first), second)
}
