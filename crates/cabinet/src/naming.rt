// The names that tell two Subjects apart. Two accepted identities share the three exactly where they begin alike, up to the third ':', so they are compared where they
// stand: in a Subject, in a lent identity, in the ID_SM of a request.
ghost use Rattle.std.specs.Prelude.{◌≡◌};
ghost use Rattle.cabinet.specs.Steps.{names_in, subject_at, starts_so, is_later_than};

// What stands in an identity before its GNT: its kind's name, Manufacturer and MID, each followed by ':'. Nothing, of bytes without so many marks.
pub(crate) fn names_in<'a>(identity: &'a [u8]) -> &'a [u8]
    ensures { result.now ≡ names_in identity.now }
{
    let end = frame::part_start(b':', identity, table::IDENTITY_GNT);
    identity.get(..end).unwrap_or(&[])
}

// The Subject of a record, alone or in its place.
pub(crate) fn subject_in<'a>(bytes: &'a [u8]) -> &'a [u8]
    ensures { result.now ≡ subject_at bytes.now }
{
    frame::part(b'|', bytes, table::PUBKEY_SUBJECT)
}

// The Subject of the record in a place begins with these names.
pub(crate) fn has_names(place: &[u8], names: &[u8]) -> bool
    ensures { result ≡ starts_so place.now names.now }
{
    let start = frame::part_start(b'|', place, table::PUBKEY_SUBJECT);
    place.get(start..).unwrap_or(&[]).starts_with(names)
}

// The GNT of this Subject is later than that of the record in a place.
pub(crate) fn is_later_than(subject: &[u8], place: &[u8]) -> bool
    ensures { result ≡ is_later_than subject.now place.now }
{
    text::is_later(
        subjects::field_in(subject, table::IDENTITY_GNT),
        subjects::field_in(subject_in(place), table::IDENTITY_GNT),
    )
}
