// The calls that write into a lent output, by their numbers in the case file.
ghost use Rattle.std.specs.Prelude.{◌≡◌, length};

use crate::{input, say};
use std::io;

// Room for the longest output that is lent, which has more bytes than a number of two bytes can say, and more than a key
// cabinet.
pub(crate) fn zeros() -> [u8; 66560]
    ensures { 66560 ≡ length result }
{
    [0; 66560]
}

// The lengths of the fields stand in c, eight bytes each, and are eight at the most.
fn lens_of(c: &[u8]) -> [usize; 8] {
    let mut lens = [0; 8];
    for (len, bytes) in lens.iter_mut().zip(c.chunks_exact(8)) {
        *len = input::number(bytes, 0, 8);
    }
    lens
}

fn write_to(op: usize, a: &[u8], b: &[u8], c: &[u8], out: &mut [u8]) -> put::Written {
    let lens = lens_of(c);
    let count = c.len() / 8 % 9;
    match op {
        24 => agreement::shared_info(a, out),
        25 => agreement::module_text(a, out),
        26 => agreement::centre_text(a, out),
        35 => fingerprint::write_fingerprint(a, out),
        44 => trailed::write_trailed(a, out),
        45 => mail::write_mail(a, out),
        46 => mail::read_mail(a, out),
        _ => building::build(a, b, &lens[..count], out),
    }
}

// A record that was built or read, a line or a block that was written, the answer, and the check of the whole output.
fn print(
    rt: &impl Print,
    op: usize,
    made: put::Written,
    space: &[u8; 66560],
    room: usize,
) -> io::Result<()> {
    if op == 27 || op >= 44 {
        say::text(rt, input::cut(space, 0, made.len))?;
    }
    say::outcome(rt, made.no, made.field, made.len)?;
    say::number(rt, crc16::crc_of(input::cut(space, 0, room)) as usize)
}

// The call is lent an output of n bytes that holds `before`, and behind it zeros.
pub(crate) fn write(
    rt: &impl Print,
    op: usize,
    a: &[u8],
    b: &[u8],
    c: &[u8],
    n: usize,
    before: &[u8],
) -> io::Result<()> {
    let mut space = zeros();
    put::put(&mut space, 0, before);
    let room = n % 66561;
    let made = write_to(op, a, b, c, &mut space[..room]);
    print(rt, op, made, &space, room)
}
