// An item of a text; the lines of a file; the newer of two public keys.
ghost use Rattle.std.specs.Prelude.{◌≡◌};
ghost use Rattle.format.specs.Files.{line_at, walk};
ghost use Rattle.items.specs.Place.{ItemPlaced};
ghost use Rattle.files.specs.Walk.{line_said, totals_of};
ghost use Rattle.files.specs.Steps.{Begins};
ghost use Rattle.newer.specs.Newer.{newer, choice_said};
ghost use Rattle.exports.specs.Exports.{found, PlaceStepped};

// What stands at a place of a file, or that it is finished.
#[repr(C)]
#[derive(Clone, Copy)]
pub struct Found {
    pub line: bool,
    pub no: u8,
    pub field: u8,
    pub kind: usize,
    pub start: usize,
    pub len: usize,
    pub next: usize,
}

// An item of a key agreement text, counted from 1.
pub fn obscurlane_text_item(text: &[u8], wanted: usize) -> items::Place
    ensures { ItemPlaced text.now wanted result }
{
    items::item_place(text, wanted)
}

// A line with its numbers and places, for a caller that has no enum.
impl From<files::Line> for Found {
    ghost from_gives = { λ l r. r ≡ found l };

    fn from(line: files::Line) -> Found {
        match line {
            files::Line::Finished { place } => Found {
                line: false,
                no: 0,
                field: 0,
                kind: table::NONE,
                start: place,
                len: 0,
                next: place,
            },
            files::Line::Read {
                no,
                field,
                kind,
                start,
                len,
                next,
            } => Found {
                line: true,
                no,
                field,
                kind,
                start,
                len,
                next,
            },
        }
    }
}

// The line that begins at a place of a file.
pub fn obscurlane_line_at(file: &[u8], place: usize) -> Found
    ensures { result ≡ found (line_said (line_at file.now place)) }
{
    Found::from(files::line_at(file, place))
}

// A reader of a file is its place: a new one stands at the start.
pub fn obscurlane_reader_new(file: &[u8]) -> usize
    ensures { Begins file.entry (record { file = file.entry; place = result }) }
{
    0
}

// The line at the reader's place, which goes on to the next line.
pub fn obscurlane_reader_step(file: &[u8], place: &mut usize) -> Found
    ensures { PlaceStepped file.now place.old result place.new }
{
    let step = Found::from(files::step_from(file, *place));
    *place = step.next;
    step
}

// How many lines a file has, and how many of them are accepted records.
pub fn obscurlane_count(file: &[u8]) -> files::Totals
    ensures { result ≡ totals_of (walk file.now) }
{
    files::count(file)
}

// Which of two public keys is the newer.
pub fn obscurlane_newer(first: &[u8], second: &[u8]) -> newer::Choice
    ensures { result ≡ choice_said (newer first.now second.now) }
{
    newer::newer_of(first, second)
}
