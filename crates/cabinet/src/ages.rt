// Old records: what the rules up to E10 accept stays in its place, and what today's refuse of that is old (document 02, E11).
ghost use Rattle.std.specs.Prelude.{◌≡◌};
ghost use Rattle.shelf.specs.Cabinet.{is_old};
ghost use Rattle.format.specs.Files.{up_to};

// The record in a place, what stands before the first zero, is old.
pub(crate) fn is_old(place: &[u8]) -> bool
    ensures { result ≡ is_old (up_to 0 place.now) }
{
    let len = frame::next_mark(0, place, 0);
    let answer = reading::read_of(table::ECDSA, table::REQ, &place[0..len]);
    answer.no != numbers::ACCEPTED
}
