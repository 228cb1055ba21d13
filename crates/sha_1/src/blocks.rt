// The hash of blocks: FIPS 180-4, 4.2.1 (the constants) and 6.1.2 (the message schedule, the rounds, the next hash value).
ghost use Rattle.std.specs.Prelude.{◌≡◌, ◌+◌, ◌/◌, ◌<◌, ◌≤◌, length, take};
ghost use Rattle.sha_1.specs.declared.Words.{Words};
ghost use Rattle.sha_1.specs.Sha1.{K, words, next, schedule, round, rounds, sums, compress, hashed};

use crate::{BLOCK, Words, operations};

// The constant of round t.
fn constant(t: usize) -> u32
    ensures { result ≡ K t }
{
    match t {
        0..20 => 0x5a827999,
        20..40 => 0x6ed9eba1,
        40..60 => 0x8f1bbcdc,
        _ => 0xca62c1d6,
    }
}

// ---- the message schedule

// A schedule whose first sixteen words are those of the block.
fn first_words(block: &[u8; 64]) -> [u32; 80]
    ensures { (length result ≡ 80) × (take 16 result ≡ words block.now 16) }
{
    let mut w = [0; 80];
    for t in 0..16 {
        w[t] = operations::word_at(block, 4 * t);
    }
    w
}

// The word after the first 16 + n.
fn next_word(w: &[u32; 80], n: usize) -> u32
    requires { n < 64 }
    ensures { result ≡ next w.now n }
{
    (w[n + 13] ^ w[n + 8] ^ w[n + 2] ^ w[n]).rotate_left(1)
}

// The message schedule of a block.
fn schedule(block: &[u8; 64]) -> [u32; 80]
    ensures { result ≡ schedule block.now 64 }
{
    let mut w = first_words(block);
    for n in 0..64 {
        w[n + 16] = next_word(&w, n);
    }
    w
}

// ---- the rounds

// Round t.
fn round(v: Words, t: usize, w: u32) -> Words
    ensures { result ≡ round v t w }
{
    let a = v
        .a
        .rotate_left(5)
        .wrapping_add(operations::f(t, v.b, v.c, v.d))
        .wrapping_add(v.e)
        .wrapping_add(constant(t))
        .wrapping_add(w);
    Words {
        a,
        b: v.a,
        c: v.b.rotate_left(30),
        d: v.c,
        e: v.d,
    }
}

// Twenty rounds from round i on. Function and constant are the same in the twenty, and in a loop of them LLVM chooses both once.
fn twenty_rounds(w: &[u32; 80], v: Words, i: usize) -> Words
    requires { i ≤ 60 }
    ensures { (u : Words) → v ≡ rounds w.now u i → result ≡ rounds w.now u (i + 20) }
{
    let mut u = v;
    for t in i..i + 20 {
        u = round(u, t, w[t]);
    }
    u
}

// All eighty.
fn rounds(w: &[u32; 80], v: Words) -> Words
    ensures { result ≡ rounds w.now v 80 }
{
    let one = twenty_rounds(w, v, 0);
    let two = twenty_rounds(w, one, 20);
    let three = twenty_rounds(w, two, 40);
    twenty_rounds(w, three, 60)
}

// ---- the hash value

fn sums(v: Words, u: Words) -> Words
    ensures { result ≡ sums v u }
{
    Words {
        a: v.a.wrapping_add(u.a),
        b: v.b.wrapping_add(u.b),
        c: v.c.wrapping_add(u.c),
        d: v.d.wrapping_add(u.d),
        e: v.e.wrapping_add(u.e),
    }
}

// After one block, from the hash value before it.
fn compress(v: Words, block: &[u8; 64]) -> Words
    ensures { result ≡ compress v block.now }
{
    let w = schedule(block);
    let u = rounds(&w, v);
    sums(u, v)
}

// After the whole blocks of the bytes.
pub(crate) fn hash_blocks(v: Words, bytes: &[u8]) -> Words
    ensures { result ≡ hashed v bytes.now (length bytes.now / 64) }
{
    let (blocks, _) = bytes.as_chunks::<BLOCK>();
    let mut hash = v;
    for block in blocks {
        hash = compress(hash, block);
    }
    hash
}
