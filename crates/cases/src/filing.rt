// The calls of the key cabinet, by their numbers in the case file. A cabinet has 65,536 bytes, so a case has the steps that
// make it, nine bytes each: the number of a call, or 0 where bytes are written, one byte; where the step's part of a begins
// and ends, three bytes each; and the place where it is written, two bytes.
use crate::{calls, input, outputs, say};
use std::io;

fn print_filed(rt: &impl Print, said: cabinet::Filed) -> io::Result<()> {
    say::number(rt, said.no as usize)?;
    say::number(rt, said.field as usize)
}

fn print_count(rt: &impl Print, said: cabinet::Counted) -> io::Result<()> {
    say::number(rt, said.no as usize)?;
    say::number(rt, said.count)
}

// The record that was found, by its length and its check.
fn print_found<'a>(rt: &impl Print, lent: &'a [u8], identity: &[u8]) -> io::Result<()> {
    let mut no: u8 = 0;
    let mut field: u8 = 0;
    let part = cabinet::find_key(lent, identity, &mut no, &mut field);
    say::outcome(rt, no, field, part.len())?;
    say::number(rt, crc16::crc_of(part) as usize)
}

fn print_check(rt: &impl Print, lent: &[u8]) -> io::Result<()> {
    say::number(rt, crc16::crc_of(lent) as usize)
}

// The calls that answer two numbers.
fn change(op: usize, lent: &mut [u8], part: &[u8]) -> cabinet::Filed {
    match op {
        47 => cabinet::make_cabinet(lent),
        50 => cabinet::put_key(lent, part),
        51 => cabinet::remove_key(lent, part),
        57 => cabinet::admit(lent, part),
        _ => cabinet::check_cabinet(lent),
    }
}

// One call, and its numbers.
fn call(rt: &impl Print, op: usize, lent: &mut [u8], part: &[u8]) -> io::Result<()> {
    match op {
        49 => print_count(rt, cabinet::count_keys(lent)),
        52 => calls::print_place(rt, cabinet::key_place(lent, part)),
        53 => print_found(rt, lent, part),
        _ => print_filed(rt, change(op, lent, part)),
    }
}

fn part_of<'a>(a: &'a [u8], step: &[u8]) -> &'a [u8] {
    input::cut(a, input::number(step, 1, 4), input::number(step, 4, 7))
}

// One step of those that make a cabinet: nothing is printed.
fn prepare_by(lent: &mut [u8], a: &[u8], step: &[u8]) {
    let op = input::number(step, 0, 1);
    let part = part_of(a, step);
    if op == 0 {
        put::put(lent, input::number(step, 7, 9), part);
    } else {
        change(op, lent, part);
    }
}

fn prepare(lent: &mut [u8], a: &[u8], c: &[u8]) {
    for at in (0..c.len() % 4294967296).step_by(9) {
        prepare_by(lent, a, input::cut(c, at, at + 9));
    }
}

// A call on the first n bytes of what the steps made, which has zeros behind it; and the check of all lent bytes
// afterwards.
pub(crate) fn file(
    rt: &impl Print,
    op: usize,
    a: &[u8],
    b: &[u8],
    c: &[u8],
    n: usize,
) -> io::Result<()> {
    let mut space = outputs::zeros();
    prepare(&mut space[..65536], a, c);
    let room = n % 66561;
    call(rt, op, &mut space[..room], b)?;
    print_check(rt, input::cut(&space, 0, room))
}

// One step of a history, and behind every fourth the check of the cabinet.
fn go_on(rt: &impl Print, lent: &mut [u8], a: &[u8], step: &[u8], count: usize) -> io::Result<()> {
    call(rt, input::number(step, 0, 1), lent, part_of(a, step))?;
    if count % 4 == 3 {
        print_check(rt, lent)?;
    }
    Ok(())
}

fn go_through(rt: &impl Print, lent: &mut [u8], a: &[u8], c: &[u8]) -> io::Result<()> {
    for at in (0..c.len() % 4294967296).step_by(9) {
        go_on(rt, lent, a, input::cut(c, at, at + 9), at / 9)?;
    }
    Ok(())
}

// A history: the calls of all steps on one cabinet, and its check at the end.
pub(crate) fn go(rt: &impl Print, a: &[u8], c: &[u8]) -> io::Result<()> {
    let mut space = outputs::zeros();
    go_through(rt, &mut space[..65536], a, c)?;
    print_check(rt, input::cut(&space, 0, 65536))
}

// Whether the bytes are a cabinet whose place n begins with the text and whose other places are free. Where the text is
// shorter, the place has the TVP of a first put.
pub(crate) fn check_place(n: usize, text: &[u8]) -> cabinet::Filed {
    let mut space = outputs::zeros();
    put::put(&mut space, n % 64 * 1024 + 1000, b"19930101T000000Z");
    put::put(&mut space, n % 64 * 1024, text);
    cabinet::check_cabinet(input::cut(&space, 0, 65536))
}
