// Manufacturers' record files: document 02, E6; STS 600-4-2, Appendix D. A line is a record, '#', and the forty characters of the SHA-1 of
// the record and one line feed. The calls take any bytes and have no `requires`. The numbers of a line are 11, 19, the record's own, 20.
#![tactic(auto)]

ghost use Rattle.std.specs.Prelude.{◌≡◌, ◌-◌, length};
ghost use mathlib.Core.Path.{subst};
ghost use Rattle.sha_1.specs.Sha1.{sha1};
ghost use Rattle.format.proofs.Outcomes.{Numbered};
ghost use Rattle.format.proofs.Damage.{record_never_zero};
ghost use Rattle.reading.specs.Reading.{answer_of};
ghost use Rattle.put.specs.Made.{Writes};
ghost use Rattle.files.specs.Walk.{line_said};
ghost use Rattle.trailed.specs.Trailed.{hash_text, trailer, is_trailer, read_trailed, trailed_at, count_trailed, write_trailed};
ghost use Rattle.trailed.specs.Law.{never_zero};

use files::Form;

// A trailer has so many bytes.
pub const TRAILER: usize = 41;

// ---- the trailer of a record

// Where the record in front of the trailer ends; 0 in a line that is shorter than a trailer.
fn record_end(line: &[u8]) -> usize
    ensures { result ≡ length line.now - 41 }
{
    line.len().saturating_sub(TRAILER)
}

// '#' and HEX(40).
fn is_trailer(s: &[u8]) -> bool
    ensures { result ≡ is_trailer s.now }
{
    match s {
        [b'#', hash @ ..] => text::is_hex(40, hash),
        _ => false,
    }
}

// Of the record and one line feed, which need not stand behind it.
fn hash_of(record: &[u8]) -> [u8; 20]
    ensures { result ≡ sha1 (hash_text «record».now) }
{
    let begun = sha_1::Sha1::begin();
    begun.add(record).add(b"\n").end()
}

// '#' and the characters of that hash.
fn trailer_of(record: &[u8]) -> [u8; 41]
    ensures { result ≡ trailer «record».now }
{
    let hash = hash_of(record);
    let mut trailer = [0u8; 41];
    trailer[0] = b'#';
    put::put_hex(&mut trailer, 1, &hash);
    trailer
}

// ---- the calls

// Reads a line without its line feed. 19 where no trailer stands at its end, then the record's own numbers for what stands before, then 20 where
// the SHA-1 differs. The places of the fields are those of the record, which stands at the front.
pub fn read_trailed(line: &[u8]) -> reading::Answer
    ensures { result ≡ answer_of (read_trailed line.now) }
{
    let (front, trailer) = line.split_at(record_end(line));
    if !is_trailer(trailer) {
        return reading::refuse(numbers::MISSING_TRAILER, 0);
    }
    let answer = reading::read_record(front);
    if answer.no != numbers::ACCEPTED {
        return answer;
    }
    if text::are_same(trailer, &trailer_of(front)) {
        return answer;
    }
    reading::refuse(numbers::WRONG_HASH, 0)
}

// A file of such lines.
struct WithTrailers;

impl Form for WithTrailers {
    ghost call = { read_trailed };

    ghost never_zero = { never_zero (λ s i e. subst Numbered e (record_never_zero s)) };

    fn read(line: &[u8]) -> reading::Answer {
        read_trailed(line)
    }
}

// The line at a place of a file, as `files::line_at` has it: start and length are those of the whole line with its trailer. An unfinished last
// line answers 11, before any other number.
pub fn trailed_at(file: &[u8], place: usize) -> files::Line
    ensures { result ≡ line_said (trailed_at file.now place) }
{
    WithTrailers::line_at(file, place)
}

// The lines of a file from its start to its end, an unfinished last line too, and those that are accepted.
pub fn count_trailed(file: &[u8]) -> files::Totals
    ensures { result ≡ count_trailed file.now }
{
    WithTrailers::count(file)
}

// Writes the line of a record, without a line feed, from the front of a lent output; or refuses, with the record's own number, then 10, and
// leaves it untouched.
pub fn write_trailed(record: &[u8], out: &mut [u8]) -> put::Written
    ensures { Writes (write_trailed «record».now (length out.old)) out.old out.new result }
{
    let answer = reading::read_record(record);
    if answer.no != numbers::ACCEPTED {
        return put::refuse(answer.no, answer.field);
    }
    if out.len() < record.len() + TRAILER {
        return put::refuse(numbers::SHORT_OUTPUT, 0);
    }
    let trailer = trailer_of(record);
    let end = put::put(out, 0, record);
    let len = put::put(out, end, &trailer);
    put::Written {
        no: numbers::ACCEPTED,
        field: 0,
        len,
    }
}
