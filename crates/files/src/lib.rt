// A file of records, line by line: document 01, "Files of records and the newer key". No public call has a `requires`:
// any bytes and any place have an answer.
#![tactic(auto)]

ghost use Rattle.std.specs.Prelude.{◌≡◌, ℕ};
ghost use mathlib.Core.Path.{subst};
ghost use Rattle.text.specs.Text.{Bytes};
ghost use Rattle.format.specs.Read.{Outcome, refused, read_record};
ghost use Rattle.format.specs.Files.{line_at, walk, line_at_over, walk_over};
ghost use Rattle.format.proofs.Outcomes.{Numbered};
ghost use Rattle.format.proofs.Damage.{record_never_zero};
ghost use Rattle.reading.specs.Reading.{answer_of};
ghost use Rattle.files.specs.Walk.{line_end, last_line, line_said, next_of, totals_of};
ghost use Rattle.files.specs.Steps.{Begins, Stepped, step_from};

// What stands at a place of a file.
#[derive(Clone, Copy)]
pub enum Line {
    // A place at or past the end, which is its start and its next place; its length is 0.
    Finished {
        place: usize,
    },
    // A line: the record call's number, field number and row of the kind (table::NONE with a refusal), its start, its
    // length without line feed, and the next place.
    Read {
        no: u8,
        field: u8,
        kind: usize,
        start: usize,
        len: usize,
        next: usize,
    },
}

impl Line {
    // The next place that an answer names.
    fn next_place(self) -> usize
        ensures { result ≡ next_of self }
    {
        match self {
            Line::Finished { place } => place,
            Line::Read { next, .. } => next,
        }
    }
}

// How many lines a file has, and how many of them are accepted records.
#[repr(C)]
#[derive(Clone, Copy)]
pub struct Totals {
    pub lines: usize,
    pub accepted: usize,
}

// ---- a walk over any file of lines

// The first line feed at or after the place, or the end of the bytes when none follows; a place past the end is answered as it is.
pub fn line_end(file: &[u8], place: usize) -> usize
    ensures { result ≡ line_end file.now place }
{
    // document 01 names this form: a loop that yields the index by break
    let mut i = place;
    loop {
        if i >= file.len() || file[i] == b'\n' {
            break i;
        }
        i += 1;
    }
}

// What is said at a place after which no line feed follows, in a file of so many bytes: that it is finished, or that its last line is not, 11.
pub fn last_line(bytes: usize, place: usize) -> Line
    ensures { result ≡ last_line bytes place }
{
    if bytes <= place {
        return Line::Finished { place };
    }
    Line::Read {
        no: numbers::UNFINISHED,
        field: 0,
        kind: table::NONE,
        start: place,
        len: bytes - place,
        next: bytes,
    }
}

// A form of a file's lines: what is asked about a line without its line feed, and the walk that asks it.
pub trait Form {
    ghost call: { Bytes → Outcome };

    fn read(line: &[u8]) -> reading::Answer
        ensures { result ≡ answer_of (call line.now) };

    ghost never_zero: { (line : Bytes) (field : ℕ) → call line ≡ refused 0 field → ⊥ };

    // The line at a place: the call's answer for it, and where it stands. An unfinished last line answers 11, before any other number and at any
    // length; its next place is the end.
    final fn line_at(file: &[u8], place: usize) -> Line
        ensures { result ≡ line_said (line_at_over call file.now place) }
    {
        let end = line_end(file, place);
        if file.len() <= end {
            return last_line(file.len(), place);
        }
        let answer = Self::read(&file[place..end]);
        Line::Read {
            no: answer.no,
            field: answer.field,
            kind: answer.kind,
            start: place,
            len: end - place,
            next: end + 1,
        }
    }

    // The lines of a file from its start to its end, an unfinished last line too, and those that are accepted.
    final fn count(file: &[u8]) -> Totals
        ensures { result ≡ totals_of (walk_over call file.now) }
    {
        let mut lines: usize = 0;
        let mut accepted: usize = 0;
        let mut place: usize = 0;
        while let Line::Read { no, next, .. } = Self::line_at(file, place) {
            if no == numbers::ACCEPTED {
                accepted += 1;
            }
            lines += 1;
            place = next;
        }
        Totals { lines, accepted }
    }
}

// ---- a plain file: every line is a record

struct Plain;

impl Form for Plain {
    ghost call = { read_record };

    ghost never_zero = { λ line field e. subst Numbered e (record_never_zero line) };

    fn read(line: &[u8]) -> reading::Answer {
        reading::read_record(line)
    }
}

// The line at a place: the record call's answer for it (an empty line answers 2, one over 1,024 bytes 1), and where it
// stands. An unfinished last line answers 11, before any other number and at any length; its next place is the end.
pub fn line_at(file: &[u8], place: usize) -> Line
    ensures { result ≡ line_said (line_at file.now place) }
{
    Plain::line_at(file, place)
}

// The lines of a file from its start to its end, an unfinished last line too, and those that are accepted.
pub fn count(file: &[u8]) -> Totals
    ensures { result ≡ totals_of (walk file.now) }
{
    Plain::count(file)
}

// ---- a reader

// A reader holds the lent bytes and the place of the next line.
#[derive(Clone, Copy)]
pub struct Reader<'a> {
    pub file: &'a [u8],
    pub place: usize,
}

impl<'a> Reader<'a> {
    // At the start of the file.
    pub fn new(file: &'a [u8]) -> Reader<'a>
        ensures { Begins file.entry result }
    {
        Reader { file, place: 0 }
    }

    // The line at the reader's place; the reader goes on to the next line.
    pub fn step(&mut self) -> Line
        ensures { Stepped self.old result self.new }
    {
        let line = line_at(self.file, self.place);
        self.place = line.next_place();
        line
    }
}

// One step of a reader that stands at the place. Its parameters are plain, so a caller's proof needs no walk by hand.
pub fn step_from(file: &[u8], place: usize) -> Line
    ensures { result ≡ step_from file.now place }
{
    let mut reader = Reader { file, place };
    reader.step()
}
