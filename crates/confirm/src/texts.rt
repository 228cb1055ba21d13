// The key agreement texts, given to a hash piece by piece: no copy of a text is made. What they are made of is `agreement`'s.
ghost use Rattle.std.specs.Prelude.{◌≡◌, ◌≤◌, length, T};
ghost use Rattle.text.specs.Text.{is_hex};
ghost use Rattle.text.specs.Base16.{base16_decode};
ghost use Rattle.sha384.specs.State.{added};
ghost use Rattle.format.specs.Kinds.{REQ};
ghost use Rattle.format.specs.Read.{fields_in};
ghost use Rattle.agreement.specs.Steps.{lv_item, item_for, text_of};

use agreement::{LoadRequest, Outline};

// The length of the item, and its bytes.
fn add_item(hash: sha384::Sha384, item: &[u8]) -> sha384::Sha384
    requires { length item.now ≤ 255 }
    ensures { result ≡ added hash (lv_item item.now) }
{
    hash.add(&[item.len() as u8]).add(item)
}

// A point, decoded, as an item. In its array the length stands before it.
fn add_point(hash: sha384::Sha384, point: &[u8]) -> sha384::Sha384
    requires { T (is_hex 194 point.now) }
    ensures { result ≡ added hash (lv_item (base16_decode point.now)) }
{
    let mut item = [0u8; 98];
    item[0] = agreement::POINT_BYTES as u8;
    put::put_decoded(&mut item, 1, point);
    hash.add(&item)
}

// Field n, from 1, as an item: QE is decoded, all else goes in as it stands.
fn add_field(hash: sha384::Sha384, request: &LoadRequest, n: usize) -> sha384::Sha384
    ensures { result ≡ added hash (lv_item (item_for (fields_in REQ request.now.bytes.now) n)) }
{
    let field = places::field_at(request.bytes, request.starts, request.lens, n);
    if n == table::REQ_QE {
        add_point(hash, field)
    } else {
        add_item(hash, field)
    }
}

// The text of this outline.
pub(crate) fn add_text(
    hash: sha384::Sha384,
    outline: &Outline,
    request: &LoadRequest,
) -> sha384::Sha384
    ensures { result ≡ added hash (text_of outline.now.label.now outline.now.fields.now request.now.bytes.now) }
{
    let counted = hash.add(&[(1 + outline.fields.len()) as u8]);
    let mut given = add_item(counted, outline.label);
    for &n in outline.fields {
        given = add_field(given, request, n);
    }
    given
}
