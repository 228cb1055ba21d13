// SHA-384: FIPS 180-4. A state handed on by value is begun, given one slice after another and ended; one call hashes one
// slice. No call has a `requires`: any state and any bytes are taken.
#![tactic(auto)]

mod blocks;
mod ending;
mod operations;

ghost use Rattle.std.specs.Prelude.{◌≡◌, ◌+◌, ◌*◌, ◌^◌, ◌≤◌, length};
ghost use Rattle.sha384.specs.Sha384.{sha384};
ghost use Rattle.sha384.specs.State.{higher, zeroed, begun, added, ended};

// Bytes in a block.
const BLOCK: usize = 128;

// Eight words: a hash value, or the working variables.
#[repr(C)]
#[derive(Clone, Copy)]
pub struct Words {
    pub a: u64,
    pub b: u64,
    pub c: u64,
    pub d: u64,
    pub e: u64,
    pub f: u64,
    pub g: u64,
    pub h: u64,
}

// The bytes given so far: the hash value of their whole blocks; the bytes that wait for a whole block, at the front of `block`,
// and zeros after them; and how many bytes there were, in two words.
#[repr(C)]
#[derive(Clone, Copy)]
pub struct Sha384 {
    pub hash: Words,
    pub block: [u8; 128],
    pub low: u64,
    pub high: u64,
}

// The bytes at the front of a block, and zeros after them. Crate sha_1 has its twin, of 64 bytes: one function for both would be
// public, and a public function has no `requires`.
fn block_of(front: &[u8]) -> [u8; 128]
    requires { length front.now ≤ 128 }
    ensures { result ≡ zeroed front.now }
{
    let mut block = [0u8; 128];
    put::put(&mut block, 0, front);
    block
}

// The higher word of a count in two words, when so many more are counted.
fn higher(high: u64, low: u64, more: u64) -> u64
    ensures { result ≡ higher (high * 2 ^ 64 + low + more) }
{
    let (_, carries) = low.overflowing_add(more);
    if carries { high.wrapping_add(1) } else { high }
}

impl Sha384 {
    // Before the first byte.
    pub fn begin() -> Sha384
        ensures { result ≡ begun }
    {
        let hash = Words {
            a: 0xcbbb9d5dc1059ed8,
            b: 0x629a292a367cd507,
            c: 0x9159015a3070dd17,
            d: 0x152fecd8f70e5939,
            e: 0x67332667ffc00b31,
            f: 0x8eb44a8768581511,
            g: 0xdb0c2e0d64f98fa7,
            h: 0x47b5481dbefa4fa4,
        };
        Sha384 {
            hash,
            block: [0; 128],
            low: 0,
            high: 0,
        }
    }

    // With these bytes too. What completes the block that waits is hashed with it, whole blocks from where they stand, and the
    // rest waits.
    pub fn add(self, bytes: &[u8]) -> Sha384
        ensures { result ≡ added self bytes.now }
    {
        let used = (self.low % 128) as usize;
        let mut block = block_of(&self.block[..used]);
        let more = bytes.len() as u64;
        let low = self.low.wrapping_add(more);
        let high = higher(self.high, self.low, more);
        let room = BLOCK - used;
        if bytes.len() < room {
            put::put(&mut block, used, bytes);
            return Sha384 {
                hash: self.hash,
                block,
                low,
                high,
            };
        }
        put::put(&mut block, used, &bytes[..room]);
        let whole = room + (bytes.len() - room) / BLOCK * BLOCK;
        let hash = blocks::hash_both(self.hash, &block, &bytes[room..whole]);
        let block = block_of(&bytes[whole..]);
        Sha384 {
            hash,
            block,
            low,
            high,
        }
    }

    // The hash of all bytes given.
    pub fn end(self) -> [u8; 48]
        ensures { result ≡ ended self }
    {
        let length = ending::zeros_after(self.low) + 17;
        let padding = ending::padding(self.high, self.low);
        let last = self.add(&padding[..length]);
        ending::digest(last.hash)
    }
}

// The hash of a slice.
pub fn sha384_of(bytes: &[u8]) -> [u8; 48]
    ensures { result ≡ sha384 bytes.now }
{
    Sha384::begin().add(bytes).end()
}
