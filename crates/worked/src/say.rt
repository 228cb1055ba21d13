// What a call hands back, as text: the bytes themselves, those of a key agreement text, a hash, a key or a tag in hexadecimal
// characters, or `refused` and the number. It is printed piece by piece and held against the value known.
use std::io;

// The first bytes, and none where there are not so many.
pub(crate) fn front<'a>(bytes: &'a [u8], len: usize) -> &'a [u8] {
    bytes.get(..len).unwrap_or(&[])
}

// What is said of a step, and what is left of the value known: nothing of it once a piece has differed.
#[derive(Drop)]
pub(crate) struct Saying<'a, P: Print> {
    rt: &'a P,
    left: Option<&'a [u8]>,
}

impl<'a, P: Print> Saying<'a, P> {
    pub(crate) fn new(rt: &'a P, known: &'a [u8]) -> Saying<'a, P> {
        let left = Some(known);
        Saying { rt, left }
    }

    // All that is known was said, and nothing else.
    pub(crate) fn agrees(&self) -> bool {
        self.left.is_some_and(|left| left.is_empty())
    }

    pub(crate) fn piece(&mut self, piece: &[u8]) -> io::Result<()> {
        self.rt.write_all(piece)?;
        self.left = self.left.and_then(|left| left.strip_prefix(piece));
        Ok(())
    }

    // Two decimal digits.
    pub(crate) fn number(&mut self, n: usize) -> io::Result<()> {
        self.piece(&[
            text::hex_digit((n / 10 % 10) as u8),
            text::hex_digit((n % 10) as u8),
        ])
    }

    // The number, and the field's where one is named.
    pub(crate) fn answer(&mut self, no: u8, field: u8) -> io::Result<()> {
        self.number(no as usize)?;
        if field == 0 {
            return Ok(());
        }
        self.piece(b" field ")?;
        self.number(field as usize)
    }

    pub(crate) fn part(&mut self, no: u8, part: &[u8]) -> io::Result<()> {
        if no == numbers::ACCEPTED {
            return self.piece(part);
        }
        self.piece(b"refused ")?;
        self.number(no as usize)
    }

    pub(crate) fn hex(&mut self, no: u8, bytes: &[u8]) -> io::Result<()> {
        if no != numbers::ACCEPTED {
            return self.part(no, bytes);
        }
        for &byte in bytes {
            self.piece(&[text::hex_digit(byte / 16), text::hex_digit(byte % 16)])?;
        }
        Ok(())
    }

    // What was written into a lent output.
    pub(crate) fn written(&mut self, made: put::Written, out: &[u8]) -> io::Result<()> {
        self.part(made.no, front(out, made.len))
    }
}
