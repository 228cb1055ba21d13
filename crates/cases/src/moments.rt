// A TIMESTAMP and the Expiry of a public key as numbers of seconds.
use crate::{input, say};
use std::io;

pub(crate) fn print_moment(rt: &impl Print, a: &[u8]) -> io::Result<()> {
    let moment = text::moment_of(a);
    say::number(rt, moment.valid as usize)?;
    say::signed(rt, moment.seconds)
}

pub(crate) fn print_expiry(rt: &impl Print, a: &[u8]) -> io::Result<()> {
    let said = expiry::expiry_of(a);
    say::number(rt, said.no as usize)?;
    say::number(rt, said.field as usize)?;
    say::signed(rt, said.seconds)
}

// What the last seven of the eight bytes of a number of seconds say.
fn seven_bytes(seconds: i64) -> usize {
    let bytes = text::seconds_bytes(seconds);
    input::number(&bytes, 1, 8)
}

// The answer in one number: 100 more than its seconds, and 0 with a text that is no TIMESTAMP.
pub(crate) fn moment_in_one(a: &[u8]) -> usize {
    let moment = text::moment_of(a);
    if !moment.valid {
        return 0;
    }
    seven_bytes(moment.seconds) % 72057594037927936 + 100
}
