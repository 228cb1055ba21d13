// HMAC, and the confirmation tags of a request and of its response. Keys, Z and what HMAC is taken of are given in hexadecimal
// characters.
use crate::say::{self, Saying};
use std::io;

// The bytes of hexadecimal characters, and how many they are.
#[derive(Clone, Copy)]
struct Decoded {
    bytes: [u8; 160],
    len: usize,
}

impl Decoded {
    fn of(characters: &[u8]) -> Decoded {
        let mut bytes = [0u8; 160];
        let len = put::put_decoded(&mut bytes, 0, characters);
        Decoded { bytes, len }
    }

    fn as_slice(&self) -> &[u8] {
        say::front(&self.bytes, self.len)
    }
}

// ---- HMAC

// The tag without its last n bytes, because one is published so.
fn tag_of<P: Print>(say: &mut Saying<P>, n: usize, key: &[u8], text: &[u8]) -> io::Result<()> {
    let key = Decoded::of(key);
    let tag = hmac::hmac_of(key.as_slice(), text);
    say.hex(numbers::ACCEPTED, say::front(&tag, 24 - n % 16))
}

pub(crate) fn hmac<P: Print>(
    say: &mut Saying<P>,
    n: usize,
    key: &[u8],
    text: &[u8],
) -> io::Result<()> {
    let text = Decoded::of(text);
    tag_of(say, n, key, text.as_slice())
}

// Of the text of a request that the call writes.
pub(crate) fn tag<P: Print, F: Fn(&[u8], &mut [u8]) -> put::Written>(
    say: &mut Saying<P>,
    write: F,
    mac_key: &[u8],
    request: &[u8],
) -> io::Result<()>
    requires { F.IsAlwaysCallable write }
{
    let mut out = [0u8; 512];
    let made = write(request, &mut out);
    tag_of(say, 0, mac_key, say::front(&out, made.len))
}

// ---- the calls on Z

// The number that is answered; the keys stand in what is lent.
fn confirm(z: &[u8], request: &[u8], mac_key: &mut [u8], kek: &mut [u8]) -> u8 {
    let z = Decoded::of(z);
    confirm::confirm_request(z.as_slice(), request, mac_key, kek).no
}

// MacKey, for which n bytes less than its 24 are lent.
pub(crate) fn mac_key<P: Print>(
    say: &mut Saying<P>,
    n: usize,
    z: &[u8],
    request: &[u8],
) -> io::Result<()> {
    let mut mac_key = [0u8; 24];
    let mut kek = [0u8; 24];
    let room = 24 - n % 16;
    let no = confirm(z, request, &mut mac_key[..room], &mut kek);
    say.hex(no, &mac_key)
}

// KEK, for which n bytes less than its 24 are lent.
pub(crate) fn kek<P: Print>(
    say: &mut Saying<P>,
    n: usize,
    z: &[u8],
    request: &[u8],
) -> io::Result<()> {
    let mut mac_key = [0u8; 24];
    let mut kek = [0u8; 24];
    let room = 24 - n % 16;
    let no = confirm(z, request, &mut mac_key, &mut kek[..room]);
    say.hex(no, &kek)
}

pub(crate) fn confirm_request<P: Print>(
    say: &mut Saying<P>,
    z: &[u8],
    request: &[u8],
) -> io::Result<()> {
    let mut mac_key = [0u8; 24];
    let mut kek = [0u8; 24];
    let no = confirm(z, request, &mut mac_key, &mut kek);
    say.part(no, b"accepted")
}

pub(crate) fn confirm_response<P: Print>(
    say: &mut Saying<P>,
    z: &[u8],
    request: &[u8],
    response: &[u8],
) -> io::Result<()> {
    let z = Decoded::of(z);
    let said = confirm::confirm_response(z.as_slice(), request, response);
    say.part(said.no, b"accepted")
}
