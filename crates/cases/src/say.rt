// Printing.
use std::io;

pub(crate) fn text(rt: &impl Print, s: &[u8]) -> io::Result<()> {
    rt.write_all(s)
}

// A number, after a space.
pub(crate) fn number(rt: &impl Print, n: usize) -> io::Result<()> {
    print!(rt; " {n}")
}

// A number with its sign, after a space.
pub(crate) fn signed(rt: &impl Print, n: i64) -> io::Result<()> {
    print!(rt; " {n}")
}

// A number of document 01's, a field's number, and what comes with them.
pub(crate) fn outcome(rt: &impl Print, no: u8, field: u8, n: usize) -> io::Result<()> {
    number(rt, no as usize)?;
    number(rt, field as usize)?;
    number(rt, n)
}
