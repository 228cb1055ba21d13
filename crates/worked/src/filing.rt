// The calls of the key cabinet. A step is a history of calls on one cabinet: each part from the third on is the name of a call
// and, behind a blank, the record, the identity or the request that it is given. Three are no calls of the library: `write` is given a place
// and, behind a blank, what is written there into the lent bytes, `write_hex` the same in hexadecimal characters, and `read_hex`
// a place, of which it answers eight bytes so. Behind what a call answers stands the check of all lent bytes.
ghost use Rattle.std.specs.Prelude.{◌≡◌, length};

use crate::say::Saying;
use crate::step::{Call, Step};
use std::io;

// A byte more than a cabinet has. The length is stated because a proof that looked at this many zeros would be slow.
fn zeros() -> [u8; 65537]
    ensures { 65537 ≡ length result }
{
    [0; 65537]
}

// ---- what a call answers

fn say_count<P: Print>(say: &mut Saying<P>, said: cabinet::Counted) -> io::Result<()> {
    say.answer(said.no, 0)?;
    say.piece(b" keys ")?;
    say.number(said.count)
}

// Six decimal digits.
fn say_long<P: Print>(say: &mut Saying<P>, n: usize) -> io::Result<()> {
    say.number(n / 10000)?;
    say.number(n / 100)?;
    say.number(n)
}

fn say_place<P: Print>(say: &mut Saying<P>, said: fields::Place) -> io::Result<()> {
    say.answer(said.no, said.field)?;
    say.piece(b" at ")?;
    say_long(say, said.start)?;
    say.piece(b" length ")?;
    say_long(say, said.len)
}

fn say_found<P: Print>(say: &mut Saying<P>, lent: &[u8], identity: &[u8]) -> io::Result<()> {
    let mut no = 0;
    let mut field = 0;
    let part = cabinet::find_key(lent, identity, &mut no, &mut field);
    say.answer(no, field)?;
    if part.is_empty() {
        return Ok(());
    }
    say.piece(b" ")?;
    say.piece(part)
}

fn say_check<P: Print>(say: &mut Saying<P>, lent: &[u8]) -> io::Result<()> {
    say.piece(b" check ")?;
    say.piece(&text::check_text(crc16::crc_of(lent)))
}

// ---- one call

// The number that a word of decimal digits is, of which the last six count.
fn number(word: &[u8]) -> usize {
    let mut n = 0;
    for &digit in word {
        n = n % 100000 * 10 + text::hex_value(digit) as usize;
    }
    n
}

// What stands behind the first blank.
fn rest(s: &[u8]) -> &[u8] {
    let start = frame::part_start(b' ', s, 1);
    s.get(start..).unwrap_or(&[])
}

// The eight bytes from a place on, in hexadecimal characters; zeros where they are not all there.
fn hex_at(lent: &[u8], from: usize) -> [u8; 16] {
    let mut characters = [0u8; 16];
    if let Some(bytes) = lent.get(from..from.wrapping_add(8)) {
        put::put_hex(&mut characters, 0, bytes);
    }
    characters
}

// The calls that answer two numbers.
fn change(call: Call, lent: &mut [u8], given: &[u8]) -> cabinet::Filed {
    match call {
        Call::MakeCabinet => cabinet::make_cabinet(lent),
        Call::PutKey => cabinet::put_key(lent, given),
        Call::RemoveKey => cabinet::remove_key(lent, given),
        Call::Admit => cabinet::admit(lent, given),
        _ => cabinet::check_cabinet(lent),
    }
}

fn answer<P: Print>(
    say: &mut Saying<P>,
    call: Call,
    lent: &mut [u8],
    given: &[u8],
) -> io::Result<()> {
    let place = number(frame::part(b' ', given, 0));
    match call {
        Call::CountKeys => say_count(say, cabinet::count_keys(lent)),
        Call::KeyPlace => say_place(say, cabinet::key_place(lent, given)),
        Call::FindKey => say_found(say, lent, given),
        Call::Write => {
            put::put(lent, place, rest(given));
            say.piece(b"written")
        }
        Call::WriteHex => {
            put::put_decoded(lent, place, rest(given));
            say.piece(b"written")
        }
        Call::ReadHex => say.piece(&hex_at(lent, number(given))),
        _ => {
            let said = change(call, lent, given);
            say.answer(said.no, said.field)
        }
    }
}

// ---- the calls of a step

// A hundred at the most.
fn go_through<P: Print>(say: &mut Saying<P>, lent: &mut [u8], step: Step) -> io::Result<()> {
    for k in 2..102 {
        let part = step.part(k);
        if part.is_empty() {
            break;
        }
        if k > 2 {
            say.piece(b"; ")?;
        }
        answer(
            say,
            Call::named(frame::part(b' ', part, 0)),
            lent,
            rest(part),
        )?;
        say_check(say, lent)?;
    }
    Ok(())
}

// The calls are lent 65,537 bytes without the last n.
pub(crate) fn go<P: Print>(say: &mut Saying<P>, step: Step) -> io::Result<()> {
    let mut space = zeros();
    let room = 65537 - step.number() % 16;
    go_through(say, &mut space[..room], step)
}
