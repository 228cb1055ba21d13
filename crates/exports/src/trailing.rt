// SHA-1, whole and slice by slice, and manufacturers' record files.
ghost use Rattle.std.specs.Prelude.{◌≡◌, length};
ghost use Rattle.sha_1.specs.Sha1.{sha1};
ghost use Rattle.sha_1.specs.State.{begun, added, ended};
ghost use Rattle.put.specs.Made.{Writes};
ghost use Rattle.reading.specs.Reading.{answer_of};
ghost use Rattle.files.specs.Walk.{line_said};
ghost use Rattle.trailed.specs.Trailed.{read_trailed, trailed_at, count_trailed, write_trailed};
ghost use Rattle.exports.specs.Exports.{found};

use crate::walking;

// The 20 bytes of a hash.
#[repr(C)]
#[derive(Clone, Copy)]
pub struct Sha1Digest {
    pub bytes: [u8; 20],
}

// The state before the first byte.
pub fn obscurlane_sha1_begin() -> sha_1::Sha1
    ensures { result ≡ begun }
{
    sha_1::Sha1::begin()
}

// The state with these bytes too.
pub fn obscurlane_sha1_add(state: sha_1::Sha1, bytes: &[u8]) -> sha_1::Sha1
    ensures { result ≡ added state bytes.now }
{
    state.add(bytes)
}

// The hash of all bytes given.
pub fn obscurlane_sha1_end(state: sha_1::Sha1) -> Sha1Digest
    ensures { result.bytes ≡ ended state }
{
    let bytes = state.end();
    Sha1Digest { bytes }
}

// The hash of the bytes.
pub fn obscurlane_sha1_of(bytes: &[u8]) -> Sha1Digest
    ensures { result.bytes ≡ sha1 bytes.now }
{
    let bytes = sha_1::sha1_of(bytes);
    Sha1Digest { bytes }
}

// Reads a line of a manufacturer's record file: a record and its trailer.
pub fn obscurlane_read_trailed(line: &[u8]) -> reading::Answer
    ensures { result ≡ answer_of (read_trailed line.now) }
{
    trailed::read_trailed(line)
}

// The line that begins at a place of such a file.
pub fn obscurlane_trailed_at(file: &[u8], place: usize) -> walking::Found
    ensures { result ≡ found (line_said (trailed_at file.now place)) }
{
    walking::Found::from(trailed::trailed_at(file, place))
}

// How many lines such a file has, and how many of them are accepted.
pub fn obscurlane_count_trailed(file: &[u8]) -> files::Totals
    ensures { result ≡ count_trailed file.now }
{
    trailed::count_trailed(file)
}

// The line of a record with its trailer, from the front of a lent output.
pub fn obscurlane_write_trailed(record: &[u8], out: &mut [u8]) -> put::Written
    ensures { Writes (write_trailed «record».now (length out.old)) out.old out.new result }
{
    trailed::write_trailed(record, out)
}
