// A file of records, or of records with trailers: the parts of a step from the third on, each with a line feed behind it.
use crate::say::{self, Saying};
use crate::step::{Call, Step};
use std::io;

// The numbers of the lines of a file, of eight at the most.
fn line_numbers<P: Print, F: Fn(&[u8], usize) -> files::Line>(
    say: &mut Saying<P>,
    line_at: F,
    file: &[u8],
) -> io::Result<()>
    requires { F.IsAlwaysCallable line_at }
{
    let mut place = 0;
    for _ in 0..8 {
        let files::Line::Read { no, next, .. } = line_at(file, place) else {
            break;
        };
        say.number(no as usize)?;
        say.piece(b" ")?;
        place = next;
    }
    Ok(())
}

// How many lines there are, and how many are accepted.
fn totals<P: Print>(say: &mut Saying<P>, totals: files::Totals) -> io::Result<()> {
    say.piece(b"lines ")?;
    say.number(totals.lines)?;
    say.piece(b" accepted ")?;
    say.number(totals.accepted)
}

// Puts the lines into the file, and answers how many bytes they are.
fn put_lines(step: Step, file: &mut [u8]) -> usize {
    let mut end = 0;
    for k in 2..10 {
        let line = step.part(k);
        if line.is_empty() {
            break;
        }
        end = put::put(file, end, line);
        end = put::put_byte(file, end, b'\n');
    }
    end
}

fn of_file<P: Print>(say: &mut Saying<P>, call: Call, file: &[u8]) -> io::Result<()> {
    match call {
        Call::Sha1File => say.hex(numbers::ACCEPTED, &sha_1::sha1_of(file)),
        Call::TrailedFile => {
            line_numbers(say, trailed::trailed_at, file)?;
            totals(say, trailed::count_trailed(file))
        }
        _ => {
            line_numbers(say, files::line_at, file)?;
            totals(say, files::count(file))
        }
    }
}

// Of the file of these lines, without its last n bytes.
pub(crate) fn run<P: Print>(say: &mut Saying<P>, call: Call, step: Step) -> io::Result<()> {
    let mut file = [0u8; 2048];
    let end = put_lines(step, &mut file);
    let len = end.wrapping_sub(step.number());
    of_file(say, call, say::front(&file, len))
}
