// Runs the list on the files that one input of the lister cannot hold: document 01's example, no bytes, only line feeds, and
// as many bytes as are listed in one line, with one byte more.
#![tactic(auto)]

ghost use Rattle.std.specs.Prelude.{◌≡◌, length};

use std::io;
use std::io::Stdout;

fn list(output: Stdout, title: &[u8], file: &[u8]) -> io::Result<()> {
    output.write_all(title)?;
    list_printing::print_list(output, file);
    Ok(())
}

// One byte more than is listed. The length is stated because a proof that looked at this many zeros would be slow.
fn zeros() -> [u8; list_text::MOST + 1]
    ensures { 65537 ≡ length result }
{
    [0; list_text::MOST + 1]
}

// The front of a file, and all of it where it is shorter. The length is a parameter, since a proof counts up to a number
// that it sees.
fn front(file: &[u8], len: usize) -> &[u8] {
    file.get(..len).unwrap_or(file)
}

fn main(rt: HostRuntime) -> io::Result<()> {
    let output = rt.stdout();
    let zeros = zeros();
    list(output, b"01's example\n", b"\nPK.ECDH.2|x\nabc")?;
    list(output, b"no bytes\n", b"")?;
    list(output, b"three line feeds\n", b"\n\n\n")?;
    list(
        output,
        b"as many bytes as are taken\n",
        front(&zeros, list_text::MOST),
    )?;
    list(output, b"one byte more\n", &zeros)
}
