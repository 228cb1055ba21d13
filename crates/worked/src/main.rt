// The published examples of SHA-384 and SHA-1 (FIPS 180-4) and of HMAC (RFC 4231), the worked example of STS600-9-1 (003), and
// the records of STS 600-4-2's Appendix A (000), step by step, through the public calls alone. Standard input has three lines
// for a step: where it stands and what it is; a call with what it is lent, with a tab between them, because an attribute may
// have spaces; the value known. In a text by mail, which comes last, and in the value known of it, a tab stands for a line
// feed. A step of the key cabinet has many calls, on one cabinet. The program prints each step with the value that the library
// gives, says of each whether it agrees, and at last how many do. docs/VECTORS.md tells where each value was taken from.
#![tactic(auto)]

mod calls;
mod confirmations;
mod dates;
mod files_of_records;
mod filing;
mod rebuilding;
mod say;
mod step;
mod writing;

ghost use Rattle.std.specs.Prelude.{◌≡◌, length};

use std::io;
use step::Step;

// Whether the step agrees.
fn run_step(rt: &impl Print, title: &[u8], step: Step, known: &[u8]) -> io::Result<bool> {
    rt.write_all(title)?;
    rt.write_all(b"\n  ")?;
    let agrees = calls::run(rt, step, known)?;
    rt.write_all(if agrees {
        b"\n  agrees\n"
    } else {
        b"\n  DIFFERS\n"
    })?;
    Ok(agrees)
}

// Room for the input, which has no more lines than it has bytes. The length is stated because a proof that looked at this
// many zeros would be slow.
const ROOM: usize = 1048576;

fn room() -> [u8; ROOM]
    ensures { 1048576 ≡ length result }
{
    [0; ROOM]
}

// A step with no title ends the list.
fn run_all(rt: &impl Print, input: &[u8]) -> io::Result<()> {
    let mut agree = 0u64;
    let mut differ = 0u64;
    for line in (0..ROOM).step_by(3) {
        let title = frame::part(b'\n', input, line);
        if title.is_empty() {
            break;
        }
        let bytes = frame::part(b'\n', input, line + 1);
        let known = frame::part(b'\n', input, line + 2);
        if run_step(rt, title, Step { bytes }, known)? {
            agree = agree.saturating_add(1);
        } else {
            differ = differ.saturating_add(1);
        }
    }
    println!(rt; "steps that agree: {agree}")?;
    println!(rt; "steps that differ: {differ}")
}

fn main(rt: HostRuntime) -> io::Result<()> {
    let mut buffer = room();
    let n = standard_input::read_full(&mut rt.stdin(), &mut buffer)?;
    run_all(&rt, &buffer[..n])
}
