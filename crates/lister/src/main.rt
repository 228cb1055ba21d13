// Prints what stands in a file of records on standard input: document 01, "Files of records and the newer key". A list that
// could not be written is a line on standard error, of which `./list` makes an exit status.
#![tactic(auto)]

use std::io;

// One byte more than is listed is asked for, which tells a file that is too big.
fn main(rt: HostRuntime) -> io::Result<()> {
    let mut data = [0u8; list_text::MOST + 1];
    let n = standard_input::read_full(&mut rt.stdin(), &mut data)?;
    let printed = list_printing::print_list(rt.stdout(), &data[..n]);
    if !printed.taken {
        eprintln!(rt; "lister: the list could not be written")?;
    }
    Ok(())
}
