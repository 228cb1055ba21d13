// Calls that are made for every byte value in one place of a text, by their numbers in the case file.
use crate::{calls, filing, input, moments, say};
use std::io;

fn pair(no: u8, field: u8) -> usize {
    (no as usize) * 100 + (field as usize)
}

fn pair_of(read: reading::Answer) -> usize {
    pair(read.no, read.field)
}

fn pair_of_totals(totals: files::Totals) -> usize {
    totals.lines % 100 * 100 + totals.accepted % 100
}

// The text is read into an output of n bytes.
fn pair_of_mail(n: usize, text: &[u8]) -> usize {
    let mut out = [0u8; 2048];
    let room = n % 2049;
    let made = mail::read_mail(text, &mut out[..room]);
    pair(made.no, made.field)
}

// The answer in one number: its only one, or 100 times the first and the second.
fn answer(op: usize, n: usize, a: &[u8]) -> usize {
    match op {
        8 => crc16::crc_of(a) as usize,
        10 => pair_of(reading::read_identity(a)),
        11 => pair_of(reading::read_record(a)),
        18 => pair(items::item_place(a, n).no, 0),
        23 => pair_of_totals(files::count(a)),
        29 => {
            let at = fields::attribute_place(a, n);
            pair(at.no, at.field)
        }
        34 => {
            let said = fingerprint::check_fingerprint(a);
            pair(said.no, said.field)
        }
        41 => pair_of(trailed::read_trailed(a)),
        43 => pair_of_totals(trailed::count_trailed(a)),
        46 => pair_of_mail(n, a),
        48 => {
            let said = filing::check_place(n, a);
            pair(said.no, said.field)
        }
        55 => moments::moment_in_one(a),
        56 => {
            let said = expiry::expiry_of(a);
            pair(said.no, said.field)
        }
        _ => calls::test(op, n, a) as usize,
    }
}

// The answer for a text of four pieces, 1,024 bytes at the most.
fn answer_of(op: usize, n: usize, a: &[u8], byte: u8, b: &[u8], check: &[u8]) -> usize {
    let mut text = [0u8; 1024];
    let mut end = put::put(&mut text, 0, a);
    end = put::put_byte(&mut text, end, byte);
    end = put::put(&mut text, end, b);
    end = put::put(&mut text, end, check);
    answer(op, n, input::cut(&text, 0, end))
}

// Every byte value between a and b, and behind them its own four bytes of c, the check that it makes right. Where the answer is
// not that of the value before, the value and the answer are printed.
pub(crate) fn sweep(
    rt: &impl Print,
    op: usize,
    n: usize,
    a: &[u8],
    b: &[u8],
    c: &[u8],
) -> io::Result<()> {
    let mut last = None;
    for byte in 0..=u8::MAX {
        let at = byte as usize * 4;
        let said = answer_of(op, n, a, byte, b, input::cut(c, at, at + 4));
        if last != Some(said) {
            say::number(rt, byte as usize)?;
            say::number(rt, said)?;
        }
        last = Some(said);
    }
    Ok(())
}
