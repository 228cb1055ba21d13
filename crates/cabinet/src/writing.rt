// Writing a place of a cabinet: a text, zeros after it, a TVP, and a number behind it.
ghost use Rattle.std.specs.Prelude.{◌≡◌, ◌++◌, ◌-◌, ◌≤◌, length, get_or};
ghost use Rattle.shelf.specs.Cabinet.{zeros};
ghost use Rattle.cabinet.specs.Steps.{part_at, with_part, key_in, tvp_between, filled_with, PlaceFits, KeyFits, TvpFits, Fits};

// Byte j of the text, and zeros after it.
fn byte_of(text: &[u8], j: usize) -> u8
    ensures { result ≡ get_or text.now j 0 }
{
    if j < text.len() {
        return text[j];
    }
    0
}

// The text, and zeros after it, in the lent bytes. Byte by byte, since of `copy_from_slice` LLVM makes a constant for the module: 19930101T000000Z.
pub(crate) fn fill(out: &mut [u8], text: &[u8])
    requires { length text.now ≤ length out.old }
    ensures { out.new ≡ text.now ++ zeros (length out.old - length text.now) }
{
    for (j, byte) in out.iter_mut().enumerate() {
        *byte = byte_of(text, j);
    }
}

// The text with zeros after it and the number, in the bytes of a place; the TVP between them stays.
fn fill_place(place: &mut [u8], text: &[u8], number: &[u8])
    requires { PlaceFits place.old text.now number.now }
    ensures { place.new ≡ key_in place.old text.now number.now }
{
    fill(&mut place[0..crate::TVP_AT], text);
    fill(&mut place[crate::NUMBER_AT..crate::WIDTH], number);
}

// The same in place i.
pub(crate) fn write_key(cabinet: &mut [u8], i: usize, text: &[u8], number: &[u8])
    requires { KeyFits cabinet.old i text.now number.now }
    ensures { cabinet.new ≡ with_part cabinet.old i (key_in (part_at cabinet.old i) text.now number.now) }
{
    let start = i * crate::WIDTH;
    let end = start + crate::WIDTH;
    fill_place(&mut cabinet[start..end], text, number);
}

// The TVP in place i, and nothing else.
pub(crate) fn write_tvp(cabinet: &mut [u8], i: usize, tvp: &[u8])
    requires { TvpFits cabinet.old i tvp.now }
    ensures { cabinet.new ≡ with_part cabinet.old i (tvp_between (part_at cabinet.old i) tvp.now) }
{
    let start = i * crate::WIDTH + crate::TVP_AT;
    let end = i * crate::WIDTH + crate::NUMBER_AT;
    fill(&mut cabinet[start..end], tvp);
}

// All of place i anew: zeros alone where text, TVP and number are empty.
pub(crate) fn write_place(cabinet: &mut [u8], i: usize, text: &[u8], tvp: &[u8], number: &[u8])
    requires { Fits cabinet.old i text.now tvp.now number.now }
    ensures { cabinet.new ≡ with_part cabinet.old i (filled_with text.now tvp.now number.now) }
{
    write_key(cabinet, i, text, number);
    write_tvp(cabinet, i, tvp);
}
