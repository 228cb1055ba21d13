// Runs the calls for users on the cases that compare/ wrote, an implementation that shares nothing with the library, and
// prints an answer for each. What it must print, the file stdout, is what compare/ answered. compare/README.md has the form
// of both files.
#![tactic(auto)]

mod calls;
mod confirmations;
mod filing;
mod hashes;
mod input;
mod moments;
mod outputs;
mod say;
mod sweeps;

ghost use Rattle.std.specs.Prelude.{◌≡◌, length};

use std::io;

// Room for the case file. The length is stated because a proof that looked at this many zeros would be slow.
fn room() -> [u8; 4194304]
    ensures { 4194304 ≡ length result }
{
    [0; 4194304]
}

// One case, by its head: the call, its number n, and its label and its strings a, b and c. An output that is lent has n
// bytes, and holds before what the file begins with. A call that is made for every byte value has a number of 64 more.
fn run_case(rt: &impl Print, file: &[u8], head: &[u8]) -> io::Result<()> {
    let op = input::number(head, 0, 1);
    let n = input::number(head, 1, 9);
    let a = input::string(file, head, 17);
    let b = input::string(file, head, 25);
    let c = input::string(file, head, 33);
    say::text(rt, input::string(file, head, 9))?;
    match op {
        24..=27 | 35 | 44..=46 => outputs::write(rt, op, a, b, c, n, input::cut(file, 0, 1024)),
        37 => confirmations::print_request(rt, a, b, c, n, input::cut(file, 0, 1024)),
        38 => confirmations::print_response(rt, a, b, c),
        47..=53 | 57 => filing::file(rt, op, a, b, c, n),
        54 => filing::go(rt, a, c),
        55 => moments::print_moment(rt, a),
        56 => moments::print_expiry(rt, a),
        64..=127 => sweeps::sweep(rt, op % 64, n, a, b, c),
        _ => calls::run(rt, op, n, a, b),
    }?;
    say::text(rt, b"\n")
}

fn run_all(rt: &impl Print, file: &[u8]) -> io::Result<()> {
    let end = input::number(file, 1024, 1032) % 4294967296;
    for at in (1032..end).step_by(41) {
        run_case(rt, file, input::cut(file, at, at + 41))?;
    }
    Ok(())
}

fn main(rt: HostRuntime) -> io::Result<()> {
    let mut file = room();
    let n = standard_input::read_full(&mut rt.stdin(), &mut file)?;
    run_all(&rt, &file[..n])
}
