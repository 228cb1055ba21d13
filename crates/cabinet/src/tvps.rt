// The TVP of a place: the last one that was accepted for its module (document 02, E10).
ghost use Rattle.std.specs.Prelude.{◌≡◌, length};
ghost use Rattle.shelf.specs.Cabinet.{is_tvp};
ghost use Rattle.cabinet.specs.Steps.{is_later_tvp};

// The TVP of a module of which no request was admitted.
pub(crate) const START: [u8; 16] = *b"19930101T000000Z";

// A TIMESTAMP that is not before 19930101T000000Z, whose number is 0.
pub(crate) fn is_tvp(tvp: &[u8]) -> bool
    ensures { result ≡ is_tvp tvp.now }
{
    let moment = text::moment_of(tvp);
    moment.valid && 0 <= moment.seconds
}

// The TVP is later than the one in a place.
pub(crate) fn is_later_tvp(tvp: &[u8], place: &[u8]) -> bool
    requires { length place.now ≡ 1024 }
    ensures { result ≡ is_later_tvp tvp.now place.now }
{
    text::is_later(tvp, &place[crate::TVP_AT..crate::NUMBER_AT])
}
