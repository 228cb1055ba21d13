// The case file, as compare/ writes it, with numbers in big endian: what a lent output holds before, 1,024 bytes; the place
// where the heads end, eight bytes; the heads, 41 bytes each; and the strings. A head has the call, one byte; n, eight bytes;
// and eight places, four bytes each: where the case's label, a, b and c each begin and end.

// The bytes from a place to another, and none where they are not all there.
pub(crate) fn cut<'a>(s: &'a [u8], from: usize, to: usize) -> &'a [u8] {
    s.get(from..to).unwrap_or(&[])
}

// The bytes from a place to another as a number, of which the last eight count.
pub(crate) fn number(s: &[u8], from: usize, to: usize) -> usize {
    let mut n = 0;
    for &byte in cut(s, from, to) {
        n = n % 72057594037927936 * 256 + byte as usize;
    }
    n
}

// The string whose two places stand in a head from `at` on.
pub(crate) fn string<'a>(file: &'a [u8], head: &[u8], at: usize) -> &'a [u8] {
    let next = at % 64 + 4;
    cut(file, number(head, at, next), number(head, next, next + 4))
}
