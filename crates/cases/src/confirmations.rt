// HMAC, and the confirmation tags of a request and of its response.
use crate::{hashes, input, say};
use std::io;

pub(crate) fn print_hmac(rt: &impl Print, key: &[u8], text: &[u8]) -> io::Result<()> {
    let tag = hmac::hmac_of(key, text);
    hashes::print_bytes(rt, &tag)
}

fn print_confirmed(rt: &impl Print, said: confirm::Confirmed) -> io::Result<()> {
    say::outcome(rt, said.no, said.field, said.which as usize)
}

// The check of the whole output.
fn print_check(rt: &impl Print, space: &[u8; 1024], room: usize) -> io::Result<()> {
    say::number(rt, crc16::crc_of(input::cut(space, 0, room)) as usize)
}

// The call is lent an output of n bytes for MacKey, and one for KEK, whose length stands in c. Both hold `before`.
pub(crate) fn print_request(
    rt: &impl Print,
    z: &[u8],
    request: &[u8],
    c: &[u8],
    n: usize,
    before: &[u8],
) -> io::Result<()> {
    let mut mac_key = [0u8; 1024];
    let mut kek = [0u8; 1024];
    put::put(&mut mac_key, 0, before);
    put::put(&mut kek, 0, before);
    let room = n % 1025;
    let kek_room = input::number(c, 0, 8) % 1025;
    print_confirmed(
        rt,
        confirm::confirm_request(z, request, &mut mac_key[..room], &mut kek[..kek_room]),
    )?;
    print_check(rt, &mac_key, room)?;
    print_check(rt, &kek, kek_room)
}

pub(crate) fn print_response(
    rt: &impl Print,
    z: &[u8],
    request: &[u8],
    response: &[u8],
) -> io::Result<()> {
    print_confirmed(rt, confirm::confirm_response(z, request, response))
}
