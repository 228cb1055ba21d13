// The list of a file of records as text: document 01, "Files of records and the newer key". Each line of the file is read
// once, and the totals are counted on the way.
#![tactic(auto)]

ghost use Rattle.std.specs.Prelude.{◌+◌, ◌≤◌, length};
ghost use Rattle.put.specs.Put.{Put};
ghost use Rattle.put.specs.Made.{Writes};
ghost use Rattle.list_text.specs.Listing.{before, line_text, end_text, list_text, most, list_room, write_list};

// No more bytes than this are listed.
pub const MOST: usize = 65536;

// Room for any list: a line for each byte of at most 22 characters, and an end of at most 16.
pub const ROOM: usize = MOST * 22 + 16;

// The number in decimal, and the mark after it.
fn put_number(out: &mut [u8], at: usize, n: usize, mark: u8) -> usize
    requires { at + length (before mark n) ≤ length out.old }
    ensures { Put out.old at (before mark n) out.new result }
{
    let mut digits = [0u8; 20];
    let k = io::decimal(n as u64, &mut digits);
    let next = put::put(out, at, &digits[0..k]);
    put::put_byte(out, next, mark)
}

// What is printed of a line: its number from 1, its start, its length without line feed, and its answer's number.
#[derive(Clone, Copy)]
struct Row {
    number: usize,
    start: usize,
    len: usize,
    no: u8,
}

impl Row {
    fn put(self, out: &mut [u8], at: usize) -> usize
        requires { at + length (line_text self.number self.start self.len self.no) ≤ length out.old }
        ensures { Put out.old at (line_text self.number self.start self.len self.no) out.new result }
    {
        let after_number = put_number(out, at, self.number, b' ');
        let after_start = put_number(out, after_number, self.start, b' ');
        let after_len = put_number(out, after_start, self.len, b' ');
        put_number(out, after_len, self.no as usize, b'\n')
    }
}

// The end of the list: how many lines the file has, and how many of them are accepted.
fn put_end(out: &mut [u8], at: usize, totals: files::Totals) -> usize
    requires { at + length (end_text totals.lines totals.accepted) ≤ length out.old }
    ensures { Put out.old at (end_text totals.lines totals.accepted) out.new result }
{
    let after_label = put::put(out, at, b"end ");
    let after_lines = put_number(out, after_label, totals.lines, b' ');
    put_number(out, after_lines, totals.accepted, b'\n')
}

// Every line of a file that is not too big, and the end.
fn put_list(file: &[u8], out: &mut [u8]) -> usize
    requires file_len_bound { length file.now ≤ most }
    requires list_room_in_bounds { list_room ≤ length out.old }
    ensures { Put out.old 0 (list_text file.now) out.new result }
{
    let mut lines: usize = 0;
    let mut accepted: usize = 0;
    let mut place: usize = 0;
    let mut at: usize = 0;
    while let files::Line::Read {
        no,
        start,
        len,
        next,
        ..
    } = files::line_at(file, place)
    {
        if no == numbers::ACCEPTED {
            accepted += 1;
        }
        lines += 1;
        let row = Row {
            number: lines,
            start,
            len,
            no,
        };
        at = row.put(out, at);
        place = next;
    }
    put_end(out, at, files::Totals { lines, accepted })
}

// The list of a file from the front of a lent output, or "too big". Where the output has less than `ROOM`, the call refuses
// and leaves it untouched: asked before the first line, so that no line has to be read twice.
pub fn write_list(file: &[u8], out: &mut [u8]) -> put::Written
    ensures { Writes (write_list file.now (length out.old)) out.old out.new result }
{
    if out.len() < ROOM {
        return put::refuse(numbers::SHORT_OUTPUT, 0);
    }
    let len = if file.len() > MOST {
        put::put(out, 0, b"too big\n")
    } else {
        put_list(file, out)
    };
    put::Written {
        no: numbers::ACCEPTED,
        field: 0,
        len,
    }
}
