// HMAC, and the confirmation tags of a key agreement.
ghost use Rattle.std.specs.Prelude.{◌≡◌, length};
ghost use Rattle.hmac.specs.Hmac.{hmac};
ghost use Rattle.confirm.specs.Confirm.{Confirms, confirm_request, confirm_response};

// The 24 bytes of a tag.
#[repr(C)]
#[derive(Clone, Copy)]
pub struct Tag {
    pub bytes: [u8; 24],
}

// The tag of a text under a key.
pub fn obscurlane_hmac_of(key: &[u8], text: &[u8]) -> Tag
    ensures { result.bytes ≡ hmac key.now text.now }
{
    let bytes = hmac::hmac_of(key, text);
    Tag { bytes }
}

// Whether the MacTag of a request is right for Z; with 0 MacKey and KEK.
pub fn obscurlane_confirm_request(
    z: &[u8],
    request: &[u8],
    mac_key: &mut [u8],
    kek: &mut [u8],
) -> confirm::Confirmed
    ensures { Confirms (confirm_request z.now request.now (length mac_key.old) (length kek.old)) mac_key.old kek.old mac_key.new kek.new result }
{
    confirm::confirm_request(z, request, mac_key, kek)
}

// Whether the MacTag of a response is right for Z, with the request that it answers.
pub fn obscurlane_confirm_response(z: &[u8], request: &[u8], response: &[u8]) -> confirm::Confirmed
    ensures { result ≡ confirm_response z.now request.now response.now }
{
    confirm::confirm_response(z, request, response)
}
