// Keys and tags. No branch and no place depends on Z, on a key or on a tag that is made: what is compared is compared to its end.
ghost use Rattle.std.specs.Prelude.{◌≡◌, length, T};
ghost use Rattle.text.specs.Text.{same, is_hex};
ghost use Rattle.text.specs.Base16.{base16_decode};
ghost use Rattle.format.specs.Kinds.{REQ};
ghost use Rattle.format.specs.Read.{fields_in};
ghost use Rattle.items.specs.Items.{lv_concat};
ghost use Rattle.hmac.specs.Hmac.{hmac};
ghost use Rattle.agreement.specs.Texts.{module_items, centre_items};
ghost use Rattle.agreement.specs.Steps.{text_of};
ghost use Rattle.confirm.specs.Confirm.{derived};

use crate::texts;
use agreement::{LoadRequest, Outline};

// MacKey and KEK, one behind the other. The counter is 1. Here and below label and fields are put on the stack first: constants that
// are borrowed where they are named would stand in the object.
pub(crate) fn derived(z: &[u8], request: &LoadRequest) -> [u8; 48]
    ensures { result ≡ derived z.now (fields_in REQ request.now.bytes.now) }
{
    let label = agreement::SHARED_LABEL;
    let fields = agreement::SHARED_FIELDS;
    let outline = Outline {
        label: &label,
        fields: &fields,
    };
    let counted = sha384::Sha384::begin().add(z).add(&[0, 0, 0, 1]);
    texts::add_text(counted, &outline, request).end()
}

// The tag of the text of this outline.
fn tag_of(mac_key: &[u8], outline: &Outline, request: &LoadRequest) -> [u8; 24]
    ensures { result ≡ hmac mac_key.now (text_of outline.now.label.now outline.now.fields.now request.now.bytes.now) }
{
    let begun = hmac::begin(mac_key);
    let given = texts::add_text(begun, outline, request);
    hmac::end(mac_key, given)
}

// The tag of the module text, MacTag_SM.
pub(crate) fn module_tag(mac_key: &[u8], request: &LoadRequest) -> [u8; 24]
    ensures { result ≡ hmac mac_key.now (lv_concat (module_items (fields_in REQ request.now.bytes.now))) }
{
    let label = agreement::MODULE_LABEL;
    let fields = agreement::MODULE_FIELDS;
    let outline = Outline {
        label: &label,
        fields: &fields,
    };
    tag_of(mac_key, &outline, request)
}

// The tag of the centre text, MacTag_KMC.
pub(crate) fn centre_tag(mac_key: &[u8], request: &LoadRequest) -> [u8; 24]
    ensures { result ≡ hmac mac_key.now (lv_concat (centre_items (fields_in REQ request.now.bytes.now))) }
{
    let label = agreement::CENTRE_LABEL;
    let fields = agreement::CENTRE_FIELDS;
    let outline = Outline {
        label: &label,
        fields: &fields,
    };
    tag_of(mac_key, &outline, request)
}

// Whether two tags are the same. All bytes are compared, whichever differs first.
fn are_same(a: &[u8], b: &[u8]) -> bool
    requires { length a.now ≡ length b.now }
    ensures { result ≡ same a.now b.now }
{
    let mut differing = 0u8;
    for (x, y) in a.iter().zip(b) {
        differing |= x ^ y;
    }
    differing == 0
}

// Whether a MacTag says this tag. It is the MacTag that is decoded, because making characters of the tag would take branches on it.
// As many bytes are compared as were decoded, which are all of them: LLVM is not to know how many, or it makes constants for them.
pub(crate) fn is_tag(mac_tag: &[u8], tag: &[u8]) -> bool
    requires { T (is_hex 48 mac_tag.now) × (length tag.now ≡ 24) }
    ensures { result ≡ same (base16_decode mac_tag.now) tag.now }
{
    let mut said = [0u8; 24];
    let len = put::put_decoded(&mut said, 0, mac_tag);
    are_same(&said[..len], tag)
}
