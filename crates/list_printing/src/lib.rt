// The list of a file of records on standard output: document 01, "Files of records and the newer key". Its text is made and
// proved by crate `list_text`; here it is handed to the kernel.
#![tactic(auto)]

ghost use Rattle.std.specs.Prelude.{◌≡◌, length};
ghost use Rattle.list_text.specs.Listing.{list_room, list_text};
ghost use Rattle.list_printing.specs.Printing.{print_list};

use std::io::Stdout;

// Room for any list. The length is stated because a proof that looked at this many zeros would be slow.
fn room() -> [u8; list_text::ROOM]
    ensures { list_room ≡ length result }
{
    [0; list_text::ROOM]
}

// What is said of a list that was printed: how many bytes it has, and whether the kernel took all of them. No Option, because the length is
// promised in both cases.
#[derive(Clone, Copy)]
pub struct Printed {
    pub len: usize,
    pub taken: bool,
}

// Hands a text to the kernel, and answers whether all of it was taken, of which no contract can speak. It has to be the list
// of the file: so says the `requires`.
fn hand_over(output: Stdout, file: &[u8], text: &[u8]) -> bool
    requires { text.now ≡ list_text file.now }
{
    output.write_all(text).is_ok()
}

// Prints the list of a file, or "too big". A write that fails is not tried again.
pub fn print_list(output: Stdout, file: &[u8]) -> Printed
    ensures { result.len ≡ print_list file.now }
{
    let mut text = room();
    let put::Written { len, .. } = list_text::write_list(file, &mut text);
    let taken = hand_over(output, file, &text[..len]);
    Printed { len, taken }
}
