// Runs document 01's values on each side of every limit, the records of 003, and for every row of the table the refused
// neighbours of an accepted record. Standard input has pairs of lines, a label and a text. Of each text the program prints
// the label, what the call of each text type answers, its check, what the identity call and the record call answer
// (number, field number, row of the kind), and the fields that the field calls hand back.
#![tactic(auto)]

ghost use Rattle.std.specs.Prelude.{◌≡◌, length};

use std::io;

fn print(rt: &impl Print, text: &[u8]) -> io::Result<()> {
    rt.write_all(text)
}

// A space and a number.
fn then(rt: &impl Print, n: usize) -> io::Result<()> {
    print!(rt; " {n}")
}

fn print_answer(rt: &impl Print, call: &[u8], answer: reading::Answer) -> io::Result<()> {
    print(rt, call)?;
    then(rt, answer.no as usize)?;
    then(rt, answer.field as usize)?;
    then(rt, answer.kind)
}

fn print_field(rt: &impl Print, n: usize, field: &[u8]) -> io::Result<()> {
    print!(rt; "  {n} ")?;
    print(rt, field)?;
    print(rt, b"\n")
}

// Field n of an identity and of a record, where there is one.
fn print_fields(rt: &impl Print, n: usize, s: &[u8]) -> io::Result<()> {
    let mut no: u8 = 0;
    let mut field: u8 = 0;
    let of_identity = fields::identity_field(s, n, &mut no, &mut field);
    if no == numbers::ACCEPTED {
        print_field(rt, n, of_identity)?;
    }
    let of_record = fields::record_field(s, n, &mut no, &mut field);
    if no == numbers::ACCEPTED {
        print_field(rt, n, of_record)?;
    }
    Ok(())
}

// The names stand in one text, since each text that a function holds makes its proof longer.
fn print_test(rt: &impl Print, n: usize, accepted: bool) -> io::Result<()> {
    print(
        rt,
        frame::part(
            b'/',
            b"\n  IDENT /, TIMESTAMP /, HEX /, POINT /, SIG /, MAC /, PRINT ",
            n,
        ),
    )?;
    print(rt, frame::part(b'/', b"no/yes", accepted as usize))
}

fn show_text(rt: &impl Print, s: &[u8]) -> io::Result<()> {
    print_test(rt, 0, text::is_ident(s))?;
    print_test(rt, 1, text::is_timestamp(s))?;
    print_test(rt, 2, text::is_hex(s.len(), s))?;
    print_test(rt, 3, text::is_point(s))?;
    print_test(rt, 4, text::is_sig(s))?;
    print_test(rt, 5, text::is_mac(s))?;
    print_test(rt, 6, text::is_print(s))?;
    print(rt, b", check ")?;
    print(rt, &text::check_text(crc16::crc_of(s)))
}

// The value of a single character, and the character of that value.
fn show_value(rt: &impl Print, s: &[u8]) -> io::Result<()> {
    let [character] = s else {
        return Ok(());
    };
    let value = text::hex_value(*character);
    print(rt, b"\n  value")?;
    then(rt, value as usize)?;
    print(rt, b", character")?;
    then(rt, text::hex_digit(value) as usize)
}

fn show(rt: &impl Print, label: &[u8], s: &[u8]) -> io::Result<()> {
    print(rt, label)?;
    show_text(rt, s)?;
    show_value(rt, s)?;
    print_answer(rt, b"\n  identity", reading::read_identity(s))?;
    print_answer(rt, b", record", reading::read_record(s))?;
    print(rt, b"\n")?;
    for n in 0..9 {
        print_fields(rt, n, s)?;
    }
    Ok(())
}

// Room for the input, which has no more lines than it has bytes. The length is stated because a proof that looked at this
// many zeros would be slow.
const ROOM: usize = 196608;

fn room() -> [u8; ROOM]
    ensures { 196608 ≡ length result }
{
    [0; ROOM]
}

// A pair with no label ends the list.
fn show_all(rt: &impl Print, input: &[u8]) -> io::Result<()> {
    for line in (0..ROOM).step_by(2) {
        let label = frame::part(b'\n', input, line);
        if label.is_empty() {
            break;
        }
        show(rt, label, frame::part(b'\n', input, line + 1))?;
    }
    Ok(())
}

fn main(rt: HostRuntime) -> io::Result<()> {
    let mut buffer = room();
    let n = standard_input::read_full(&mut rt.stdin(), &mut buffer)?;
    show_all(&rt, &buffer[..n])
}
