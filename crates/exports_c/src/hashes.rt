// SHA-384, whole and slice by slice, and the Fingerprint of a public key.
ghost use Rattle.std.specs.Prelude.{◌≡◌, length};
ghost use Rattle.sha384.specs.Sha384.{sha384};
ghost use Rattle.sha384.specs.State.{begun, added, ended};
ghost use Rattle.put.specs.Made.{Writes};
ghost use Rattle.fingerprint.specs.Fingerprint.{check_fingerprint, write_fingerprint};

// The state before the first byte.
#[unsafe(no_mangle)]
pub extern "C" fn obscurlane_sha384_begin() -> sha384::Sha384
    ensures { result ≡ begun }
{
    exports::hashes::obscurlane_sha384_begin()
}

// The state with these bytes too.
#[unsafe(no_mangle)]
pub extern "C" fn obscurlane_sha384_add(state: sha384::Sha384, bytes: &[u8]) -> sha384::Sha384
    ensures { result ≡ added state bytes.now }
{
    exports::hashes::obscurlane_sha384_add(state, bytes)
}

// The hash of all bytes given.
#[unsafe(no_mangle)]
pub extern "C" fn obscurlane_sha384_end(state: sha384::Sha384) -> exports::hashes::Digest
    ensures { result.bytes ≡ ended state }
{
    exports::hashes::obscurlane_sha384_end(state)
}

// The hash of the bytes.
#[unsafe(no_mangle)]
pub extern "C" fn obscurlane_sha384_of(bytes: &[u8]) -> exports::hashes::Digest
    ensures { result.bytes ≡ sha384 bytes.now }
{
    exports::hashes::obscurlane_sha384_of(bytes)
}

// Whether the Fingerprint in the Subject of a public key is the right one.
#[unsafe(no_mangle)]
pub extern "C" fn obscurlane_check_fingerprint(record: &[u8]) -> fingerprint::Checked
    ensures { result ≡ check_fingerprint «record».now }
{
    exports::hashes::obscurlane_check_fingerprint(record)
}

// The Fingerprint that is right for a public key.
#[unsafe(no_mangle)]
pub extern "C" fn obscurlane_write_fingerprint(record: &[u8], out: &mut [u8]) -> put::Written
    ensures { Writes (write_fingerprint «record».now (length out.old)) out.old out.new result }
{
    exports::hashes::obscurlane_write_fingerprint(record, out)
}
