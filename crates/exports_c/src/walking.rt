// An item of a text; the lines of a file; the newer of two public keys.
ghost use Rattle.std.specs.Prelude.{◌≡◌};
ghost use Rattle.format.specs.Files.{line_at, walk};
ghost use Rattle.items.specs.Place.{ItemPlaced};
ghost use Rattle.files.specs.Walk.{line_said, totals_of};
ghost use Rattle.files.specs.Steps.{Begins};
ghost use Rattle.newer.specs.Newer.{newer, choice_said};
ghost use Rattle.exports.specs.Exports.{found, PlaceStepped};

// An item of a key agreement text, counted from 1.
#[unsafe(no_mangle)]
pub extern "C" fn obscurlane_text_item(text: &[u8], wanted: usize) -> items::Place
    ensures { ItemPlaced text.now wanted result }
{
    exports::walking::obscurlane_text_item(text, wanted)
}

// The line that begins at a place of a file.
#[unsafe(no_mangle)]
pub extern "C" fn obscurlane_line_at(file: &[u8], place: usize) -> exports::walking::Found
    ensures { result ≡ found (line_said (line_at file.now place)) }
{
    exports::walking::obscurlane_line_at(file, place)
}

// A reader of a file is its place: a new one stands at the start.
#[unsafe(no_mangle)]
pub extern "C" fn obscurlane_reader_new(file: &[u8]) -> usize
    ensures { Begins file.entry (record { file = file.entry; place = result }) }
{
    exports::walking::obscurlane_reader_new(file)
}

// The line at the reader's place, which goes on to the next line.
#[unsafe(no_mangle)]
pub extern "C" fn obscurlane_reader_step(file: &[u8], place: &mut usize) -> exports::walking::Found
    ensures { PlaceStepped file.now place.old result place.new }
{
    exports::walking::obscurlane_reader_step(file, place)
}

// How many lines a file has, and how many of them are accepted records.
#[unsafe(no_mangle)]
pub extern "C" fn obscurlane_count(file: &[u8]) -> files::Totals
    ensures { result ≡ totals_of (walk file.now) }
{
    exports::walking::obscurlane_count(file)
}

// Which of two public keys is the newer.
#[unsafe(no_mangle)]
pub extern "C" fn obscurlane_newer(first: &[u8], second: &[u8]) -> newer::Choice
    ensures { result ≡ choice_said (newer first.now second.now) }
{
    exports::walking::obscurlane_newer(first, second)
}
