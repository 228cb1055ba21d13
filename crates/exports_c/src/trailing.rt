// SHA-1, whole and slice by slice, and manufacturers' record files.
ghost use Rattle.std.specs.Prelude.{◌≡◌, length};
ghost use Rattle.sha_1.specs.Sha1.{sha1};
ghost use Rattle.sha_1.specs.State.{begun, added, ended};
ghost use Rattle.put.specs.Made.{Writes};
ghost use Rattle.reading.specs.Reading.{answer_of};
ghost use Rattle.files.specs.Walk.{line_said};
ghost use Rattle.trailed.specs.Trailed.{read_trailed, trailed_at, count_trailed, write_trailed};
ghost use Rattle.exports.specs.Exports.{found};

// The state before the first byte.
#[unsafe(no_mangle)]
pub extern "C" fn obscurlane_sha1_begin() -> sha_1::Sha1
    ensures { result ≡ begun }
{
    exports::trailing::obscurlane_sha1_begin()
}

// The state with these bytes too.
#[unsafe(no_mangle)]
pub extern "C" fn obscurlane_sha1_add(state: sha_1::Sha1, bytes: &[u8]) -> sha_1::Sha1
    ensures { result ≡ added state bytes.now }
{
    exports::trailing::obscurlane_sha1_add(state, bytes)
}

// The hash of all bytes given.
#[unsafe(no_mangle)]
pub extern "C" fn obscurlane_sha1_end(state: sha_1::Sha1) -> exports::trailing::Sha1Digest
    ensures { result.bytes ≡ ended state }
{
    exports::trailing::obscurlane_sha1_end(state)
}

// The hash of the bytes.
#[unsafe(no_mangle)]
pub extern "C" fn obscurlane_sha1_of(bytes: &[u8]) -> exports::trailing::Sha1Digest
    ensures { result.bytes ≡ sha1 bytes.now }
{
    exports::trailing::obscurlane_sha1_of(bytes)
}

// Reads a line of a manufacturer's record file: a record and its trailer.
#[unsafe(no_mangle)]
pub extern "C" fn obscurlane_read_trailed(line: &[u8]) -> reading::Answer
    ensures { result ≡ answer_of (read_trailed line.now) }
{
    exports::trailing::obscurlane_read_trailed(line)
}

// The line that begins at a place of such a file.
#[unsafe(no_mangle)]
pub extern "C" fn obscurlane_trailed_at(file: &[u8], place: usize) -> exports::walking::Found
    ensures { result ≡ found (line_said (trailed_at file.now place)) }
{
    exports::trailing::obscurlane_trailed_at(file, place)
}

// How many lines such a file has, and how many of them are accepted.
#[unsafe(no_mangle)]
pub extern "C" fn obscurlane_count_trailed(file: &[u8]) -> files::Totals
    ensures { result ≡ count_trailed file.now }
{
    exports::trailing::obscurlane_count_trailed(file)
}

// The line of a record with its trailer, from the front of a lent output.
#[unsafe(no_mangle)]
pub extern "C" fn obscurlane_write_trailed(record: &[u8], out: &mut [u8]) -> put::Written
    ensures { Writes (write_trailed «record».now (length out.old)) out.old out.new result }
{
    exports::trailing::obscurlane_write_trailed(record, out)
}
