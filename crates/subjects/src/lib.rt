// The Subject of a public key, an identity: its fields, and whether two identities name one Subject (document 01, "Files of
// records and the newer key", number 13): they agree in kind, Manufacturer and MID; GNT and Fingerprint may differ. The calls
// take any bytes and have no `requires`.
#![tactic(auto)]

ghost use Rattle.std.specs.Prelude.{◌≡◌};
ghost use Rattle.text.specs.Text.{same};
ghost use Rattle.subjects.specs.Subjects.{identity_part, IsIdentityPart, are_alike};

// Field n, from 1, of an identity; an empty part at its front where there is none.
pub fn field_in<'a>(identity: &'a [u8], n: usize) -> &'a [u8]
    ensures { IsIdentityPart identity.entry n result }
{
    frame::part(b':', frame::body_of(identity), n)
}

// The two identities have the same field n.
fn do_agree(s: &[u8], t: &[u8], n: usize) -> bool
    ensures { result ≡ same (identity_part s.now n) (identity_part t.now n) }
{
    text::are_same(field_in(s, n), field_in(t, n))
}

// The two identities agree in what stands before the first mark, in Manufacturer and in MID: of two accepted identities,
// in kind, Manufacturer and MID.
#[tactic(auto, unfolding(crate::specs::Subjects::are_alike))]
pub fn are_alike(s: &[u8], t: &[u8]) -> bool
    ensures { result ≡ are_alike s.now t.now }
{
    text::are_same(frame::title_of(s), frame::title_of(t))
        && do_agree(s, t, table::IDENTITY_MANUFACTURER)
        && do_agree(s, t, table::IDENTITY_MID)
}
