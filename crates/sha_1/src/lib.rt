// SHA-1: FIPS 180-4. A state handed on by value is begun, given one slice after another and ended; one call hashes one
// slice. No call has a `requires`: any state and any bytes are taken.
#![tactic(auto)]

mod blocks;
mod ending;
mod operations;

ghost use Rattle.std.specs.Prelude.{◌≡◌, ◌≤◌, length};
ghost use Rattle.sha_1.specs.Sha1.{sha1};
ghost use Rattle.sha_1.specs.State.{zeroed, begun, added, ended};

// Bytes in a block.
const BLOCK: usize = 64;

// Five words: a hash value, or the working variables.
#[repr(C)]
#[derive(Clone, Copy)]
pub struct Words {
    pub a: u32,
    pub b: u32,
    pub c: u32,
    pub d: u32,
    pub e: u32,
}

// The bytes given so far: the hash value of their whole blocks; the bytes that wait for a whole block, at the front of `block`,
// and zeros after them; and how many bytes there were, modulo 2 to the 64th.
#[repr(C)]
#[derive(Clone, Copy)]
pub struct Sha1 {
    pub hash: Words,
    pub block: [u8; 64],
    pub count: u64,
}

// The bytes at the front of a block, and zeros after them. Crate sha384 has its twin, of 128 bytes: one function for both would be
// public, and a public function has no `requires`.
fn block_of(front: &[u8]) -> [u8; 64]
    requires { length front.now ≤ 64 }
    ensures { result ≡ zeroed front.now }
{
    let mut block = [0u8; 64];
    put::put(&mut block, 0, front);
    block
}

impl Sha1 {
    // Before the first byte.
    pub fn begin() -> Sha1
        ensures { result ≡ begun }
    {
        let hash = Words {
            a: 0x67452301,
            b: 0xefcdab89,
            c: 0x98badcfe,
            d: 0x10325476,
            e: 0xc3d2e1f0,
        };
        Sha1 {
            hash,
            block: [0; 64],
            count: 0,
        }
    }

    // With these bytes too. What completes the block that waits is hashed with it, whole blocks from where they stand, and the
    // rest waits.
    pub fn add(self, bytes: &[u8]) -> Sha1
        ensures { result ≡ added self bytes.now }
    {
        let used = (self.count % 64) as usize;
        let mut block = block_of(&self.block[..used]);
        let count = self.count.wrapping_add(bytes.len() as u64);
        let room = BLOCK - used;
        if bytes.len() < room {
            put::put(&mut block, used, bytes);
            return Sha1 {
                hash: self.hash,
                block,
                count,
            };
        }
        put::put(&mut block, used, &bytes[..room]);
        let whole = room + (bytes.len() - room) / BLOCK * BLOCK;
        let completed = blocks::hash_blocks(self.hash, &block);
        let hash = blocks::hash_blocks(completed, &bytes[room..whole]);
        let block = block_of(&bytes[whole..]);
        Sha1 { hash, block, count }
    }

    // The hash of all bytes given.
    pub fn end(self) -> [u8; 20]
        ensures { result ≡ ended self }
    {
        let length = ending::zeros_after(self.count) + 9;
        let padding = ending::padding(self.count);
        let last = self.add(&padding[..length]);
        ending::digest(last.hash)
    }
}

// The hash of a slice.
pub fn sha1_of(bytes: &[u8]) -> [u8; 20]
    ensures { result ≡ sha1 bytes.now }
{
    Sha1::begin().add(bytes).end()
}
