// The calls that answer when a date is, in seconds since 19930101T000000Z. They are said in decimal digits, with a sign where
// they are negative.
use crate::say::Saying;
use std::io;

fn seconds<P: Print>(say: &mut Saying<P>, seconds: i64) -> io::Result<()> {
    let mut digits = itoa::Buffer::new();
    say.piece(b" seconds ")?;
    say.piece(digits.format(seconds).as_bytes())
}

// Of a text.
pub(crate) fn moment<P: Print>(say: &mut Saying<P>, s: &[u8]) -> io::Result<()> {
    let said = text::moment_of(s);
    say.piece(if said.valid { b"valid" } else { b"invalid" })?;
    seconds(say, said.seconds)
}

// Of the field Expiry of a record.
pub(crate) fn expiry<P: Print>(say: &mut Saying<P>, record: &[u8]) -> io::Result<()> {
    let said = expiry::expiry_of(record);
    say.answer(said.no, said.field)?;
    seconds(say, said.seconds)
}
