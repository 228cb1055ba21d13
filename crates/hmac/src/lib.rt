// HMAC-SHA-384-192: STS 600-4-2, clause 6.3; FIPS 198-1. The text is given to a state of the hash slice by slice, between `begin`
// and `end`, or to one call as one slice. No call has a `requires`: any key, state and text are taken.
#![tactic(auto)]

ghost use Rattle.std.specs.Prelude.{◌≡◌};
ghost use Rattle.sha384.specs.State.{begun, added};
ghost use Rattle.hmac.specs.Hmac.{K₀, mixed, hmac};
ghost use Rattle.hmac.specs.State.{hmac_begun, hmac_ended};

// Bytes in a block of the hash.
const BLOCK: usize = 128;

// Bytes of a tag.
const TAG: usize = 24;

// The key, or its hash where it is longer than a block, and zeros after it.
fn key_block(key: &[u8]) -> [u8; 128]
    ensures { result ≡ K₀ key.now }
{
    let mut block = [0u8; 128];
    if BLOCK < key.len() {
        put::put(&mut block, 0, &sha384::sha384_of(key));
    } else {
        put::put(&mut block, 0, key);
    }
    block
}

// A hash of the key's block, every byte of it mixed with the same one.
fn keyed(key: &[u8], pad: u8) -> sha384::Sha384
    ensures { result ≡ added begun (mixed pad key.now) }
{
    let mut block = key_block(key);
    for byte in &mut block {
        *byte ^= pad;
    }
    sha384::Sha384::begin().add(&block)
}

// The state before the first byte of the text. The text is given to it by `Sha384::add`.
pub fn begin(key: &[u8]) -> sha384::Sha384
    ensures { result ≡ hmac_begun key.now }
{
    keyed(key, 0x36)
}

// The tag of all bytes given, under the same key.
pub fn end(key: &[u8], given: sha384::Sha384) -> [u8; 24]
    ensures { result ≡ hmac_ended key.now given }
{
    let hash = given.end();
    let mac = keyed(key, 0x5C).add(&hash).end();
    let mut tag = [0u8; 24];
    tag.copy_from_slice(&mac[..TAG]);
    tag
}

// The tag of a text.
pub fn hmac_of(key: &[u8], text: &[u8]) -> [u8; 24]
    ensures { result ≡ hmac key.now text.now }
{
    let given = begin(key).add(text);
    end(key, given)
}
