// Building from the fields that reading hands back.
use crate::say::{self, Saying};
use std::io;

// Reads an identity, or else a record.
pub(crate) fn read(s: &[u8]) -> reading::Answer {
    let read = reading::read_identity(s);
    if read.no == numbers::ACCEPTED {
        return read;
    }
    reading::read_record(s)
}

// Puts the fields one behind the other, and answers how many bytes they are.
fn gather(s: &[u8], read: &reading::Answer, fields: &mut [u8]) -> usize {
    let mut len = 0;
    for j in 0..places::MOST {
        len = put::put(fields, len, places::part_at(s, &read.starts, &read.lens, j));
    }
    len
}

// A record of the kind of s, of the fields that were read.
pub(crate) fn rebuild<P: Print>(
    say: &mut Saying<P>,
    s: &[u8],
    read: &reading::Answer,
) -> io::Result<()> {
    let mut fields = [0u8; reading::LONGEST];
    let len = gather(s, read, &mut fields);
    let lens = read.lens.get(..table::count_of(read.kind)).unwrap_or(&[]);
    let mut out = [0u8; reading::LONGEST];
    let made = building::build(frame::title_of(s), say::front(&fields, len), lens, &mut out);
    say.written(made, &out)
}

// The same of a public key, with Issuer and Signature, its fourth and fifth field, left empty.
pub(crate) fn rebuild_unsigned<P: Print>(
    say: &mut Saying<P>,
    s: &[u8],
    mut read: reading::Answer,
) -> io::Result<()> {
    read.lens[3] = 0;
    read.lens[4] = 0;
    rebuild(say, s, &read)
}
