// SHA-384, whole and slice by slice, and the Fingerprint of a public key.
ghost use Rattle.std.specs.Prelude.{◌≡◌, length};
ghost use Rattle.sha384.specs.Sha384.{sha384};
ghost use Rattle.sha384.specs.State.{begun, added, ended};
ghost use Rattle.put.specs.Made.{Writes};
ghost use Rattle.fingerprint.specs.Fingerprint.{check_fingerprint, write_fingerprint};

// The 48 bytes of a hash.
#[repr(C)]
#[derive(Clone, Copy)]
pub struct Digest {
    pub bytes: [u8; 48],
}

// The state before the first byte.
pub fn obscurlane_sha384_begin() -> sha384::Sha384
    ensures { result ≡ begun }
{
    sha384::Sha384::begin()
}

// The state with these bytes too.
pub fn obscurlane_sha384_add(state: sha384::Sha384, bytes: &[u8]) -> sha384::Sha384
    ensures { result ≡ added state bytes.now }
{
    state.add(bytes)
}

// The hash of all bytes given.
pub fn obscurlane_sha384_end(state: sha384::Sha384) -> Digest
    ensures { result.bytes ≡ ended state }
{
    let bytes = state.end();
    Digest { bytes }
}

// The hash of the bytes.
pub fn obscurlane_sha384_of(bytes: &[u8]) -> Digest
    ensures { result.bytes ≡ sha384 bytes.now }
{
    let bytes = sha384::sha384_of(bytes);
    Digest { bytes }
}

// Whether the Fingerprint in the Subject of a public key is the right one.
pub fn obscurlane_check_fingerprint(record: &[u8]) -> fingerprint::Checked
    ensures { result ≡ check_fingerprint «record».now }
{
    fingerprint::check_fingerprint(record)
}

// The Fingerprint that is right for a public key.
pub fn obscurlane_write_fingerprint(record: &[u8], out: &mut [u8]) -> put::Written
    ensures { Writes (write_fingerprint «record».now (length out.old)) out.old out.new result }
{
    fingerprint::write_fingerprint(record, out)
}
