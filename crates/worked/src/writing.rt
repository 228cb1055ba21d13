// What is written into a lent output: a line with a trailer, a block by mail, and a record out of a text.
use crate::say::{self, Saying};
use crate::step::Step;
use std::io;

// The call is lent an output that holds `before`. What is said is the number, and the whole output.
pub(crate) fn write<P: Print, F: Fn(&[u8], &mut [u8]) -> put::Written>(
    say: &mut Saying<P>,
    call: F,
    text: &[u8],
    before: &[u8],
) -> io::Result<()>
    requires { F.IsAlwaysCallable call }
{
    let mut out = [0u8; 2048];
    put::put(&mut out, 0, before);
    let room = before.len() % 2049;
    let made = call(text, &mut out[..room]);
    say.number(made.no as usize)?;
    say.piece(b" ")?;
    say.piece(say::front(&out, room))
}

// The bytes, with a line feed for each tab; answers how many they are.
fn put_fed(bytes: &[u8], out: &mut [u8]) -> usize {
    for (at, &byte) in bytes.iter().enumerate() {
        put::put_byte(out, at, if byte == b'\t' { b'\n' } else { byte });
    }
    bytes.len()
}

// The text is the rest of the step, from the fourth part on. Whether what the call says is the value known.
pub(crate) fn by_mail<P: Print, F: Fn(&[u8], &mut [u8]) -> put::Written>(
    rt: &P,
    call: F,
    step: Step,
    known: &[u8],
) -> io::Result<bool>
    requires { F.IsAlwaysCallable call }
{
    let mut value = [0u8; 2048];
    let known_len = put_fed(known, &mut value);
    let mut text = [0u8; 2048];
    let len = put_fed(step.rest(3), &mut text);
    let mut say = Saying::new(rt, say::front(&value, known_len));
    write(&mut say, call, say::front(&text, len), step.part(2))?;
    Ok(say.agrees())
}
