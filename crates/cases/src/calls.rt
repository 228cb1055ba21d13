// The other calls, by their numbers in the case file: a number is the call's place in compare/src/calls.rs. Each stands where its call is made:
// an enum would say every call once more.
use crate::{confirmations, hashes, say};
use std::io;

pub(crate) fn test(op: usize, n: usize, a: &[u8]) -> bool {
    match op {
        1 => text::is_ident(a),
        2 => text::is_timestamp(a),
        3 => text::is_hex(n, a),
        4 => text::is_point(a),
        5 => text::is_sig(a),
        6 => text::is_mac(a),
        _ => text::is_print(a),
    }
}

// The check of a, by its state.
fn check_by_state(a: &[u8]) -> u16 {
    a.iter()
        .fold(crc16::Crc::begin(), |crc, byte| crc.add(*byte))
        .end()
}

fn print_each(rt: &impl Print, numbers: &[usize]) -> io::Result<()> {
    for &n in numbers {
        say::number(rt, n)?;
    }
    Ok(())
}

// The answer, then the starts of all fields, their lengths, and the kinds of the identities among them.
fn print_answer(rt: &impl Print, read: reading::Answer) -> io::Result<()> {
    say::outcome(rt, read.no, read.field, read.kind)?;
    print_each(rt, &read.starts)?;
    print_each(rt, &read.lens)?;
    print_each(rt, &read.kinds)
}

// The calls that hand back a part: the text of a field or of an attribute, the answer, and the part's length and check.
fn print_part<'a>(
    rt: &impl Print,
    op: usize,
    n: usize,
    a: &'a [u8],
    b: &'a [u8],
) -> io::Result<()> {
    let mut no: u8 = 0;
    let mut field: u8 = 0;
    let part = match op {
        12 => fields::identity_field(a, n, &mut no, &mut field),
        13 => fields::record_field(a, n, &mut no, &mut field),
        14 => items::text_item(a, n, &mut no),
        15 => newer::newer(a, b, &mut no, &mut field),
        28 => fields::attribute(a, n, &mut no, &mut field),
        _ => fields::attribute_named(a, b, &mut no, &mut field),
    };
    if op != 14 && op != 15 {
        say::text(rt, part)?;
    }
    say::outcome(rt, no, field, part.len())?;
    say::number(rt, crc16::crc_of(part) as usize)
}

pub(crate) fn print_place(rt: &impl Print, at: fields::Place) -> io::Result<()> {
    say::outcome(rt, at.no, at.field, at.start)?;
    say::number(rt, at.len)
}

fn print_item(rt: &impl Print, at: items::Place) -> io::Result<()> {
    say::outcome(rt, at.no, 0, at.start)?;
    say::number(rt, at.len)
}

fn print_choice(rt: &impl Print, chosen: newer::Choice) -> io::Result<()> {
    say::outcome(rt, chosen.no, chosen.field, chosen.which as usize)
}

// The first line, by a reader.
fn first_line(file: &[u8]) -> files::Line {
    files::Reader::new(file).step()
}

// A place alone where the file is finished.
fn print_line(rt: &impl Print, line: files::Line) -> io::Result<()> {
    match line {
        files::Line::Finished { place } => say::number(rt, place),
        files::Line::Read {
            no,
            field,
            kind,
            start,
            len,
            next,
        } => {
            say::outcome(rt, no, field, kind)?;
            say::number(rt, start)?;
            say::number(rt, len)?;
            say::number(rt, next)
        }
    }
}

fn print_totals(rt: &impl Print, totals: files::Totals) -> io::Result<()> {
    say::number(rt, totals.lines)?;
    say::number(rt, totals.accepted)
}

pub(crate) fn run<'a>(
    rt: &impl Print,
    op: usize,
    n: usize,
    a: &'a [u8],
    b: &'a [u8],
) -> io::Result<()> {
    match op {
        1..=7 => say::number(rt, test(op, n, a) as usize),
        8 => say::number(rt, crc16::crc_of(a) as usize),
        9 => say::number(rt, check_by_state(a) as usize),
        10 => print_answer(rt, reading::read_identity(a)),
        11 => print_answer(rt, reading::read_record(a)),
        12..=15 | 28 | 30 => print_part(rt, op, n, a, b),
        16 => print_place(rt, fields::identity_place(a, n)),
        17 => print_place(rt, fields::record_place(a, n)),
        18 => print_item(rt, items::item_place(a, n)),
        19 => print_choice(rt, newer::newer_of(a, b)),
        20 => print_line(rt, files::line_at(a, n)),
        21 => print_line(rt, files::step_from(a, n)),
        22 => print_line(rt, first_line(a)),
        23 => print_totals(rt, files::count(a)),
        29 => print_place(rt, fields::attribute_place(a, n)),
        31 => print_place(rt, fields::attribute_named_place(a, b)),
        32 => hashes::print_sha384(rt, a),
        33 => hashes::print_sha384_by_state(rt, n, a),
        34 => hashes::print_check(rt, a),
        36 => confirmations::print_hmac(rt, a, b),
        39 => hashes::print_sha1(rt, a),
        40 => hashes::print_sha1_by_state(rt, n, a),
        41 => print_answer(rt, trailed::read_trailed(a)),
        42 => print_line(rt, trailed::trailed_at(a, n)),
        43 => print_totals(rt, trailed::count_trailed(a)),
        _ => Ok(()),
    }
}
