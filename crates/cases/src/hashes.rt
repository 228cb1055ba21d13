// SHA-384, SHA-1 and the Fingerprint of a public key.
ghost use Rattle.std.specs.Prelude.{◌<◌};

use crate::say;
use std::io;

// Past every text of the case file.
const WHOLE: usize = 131072;

pub(crate) fn print_bytes(rt: &impl Print, bytes: &[u8]) -> io::Result<()> {
    for &byte in bytes {
        say::number(rt, byte as usize)?;
    }
    Ok(())
}

// How many bytes a piece has; with 0 it has all.
fn piece_size(n: usize) -> usize
    ensures { 0 < result }
{
    if 0 < n {
        return n;
    }
    WHOLE
}

// The hash of a in pieces, the last of what is left.
fn sha384_by_state(n: usize, a: &[u8]) -> [u8; 48] {
    a.chunks(piece_size(n))
        .fold(sha384::Sha384::begin(), |state, piece| state.add(piece))
        .end()
}

fn sha1_by_state(n: usize, a: &[u8]) -> [u8; 20] {
    a.chunks(piece_size(n))
        .fold(sha_1::Sha1::begin(), |state, piece| state.add(piece))
        .end()
}

pub(crate) fn print_sha384(rt: &impl Print, a: &[u8]) -> io::Result<()> {
    print_bytes(rt, &sha384::sha384_of(a))
}

pub(crate) fn print_sha384_by_state(rt: &impl Print, n: usize, a: &[u8]) -> io::Result<()> {
    print_bytes(rt, &sha384_by_state(n, a))
}

pub(crate) fn print_sha1(rt: &impl Print, a: &[u8]) -> io::Result<()> {
    print_bytes(rt, &sha_1::sha1_of(a))
}

pub(crate) fn print_sha1_by_state(rt: &impl Print, n: usize, a: &[u8]) -> io::Result<()> {
    print_bytes(rt, &sha1_by_state(n, a))
}

pub(crate) fn print_check(rt: &impl Print, a: &[u8]) -> io::Result<()> {
    let said = fingerprint::check_fingerprint(a);
    say::number(rt, said.no as usize)?;
    say::number(rt, said.field as usize)
}
