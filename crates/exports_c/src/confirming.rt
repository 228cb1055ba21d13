// HMAC, and the confirmation tags of a key agreement.
ghost use Rattle.std.specs.Prelude.{◌≡◌, length};
ghost use Rattle.hmac.specs.Hmac.{hmac};
ghost use Rattle.confirm.specs.Confirm.{Confirms, confirm_request, confirm_response};

// The tag of a text under a key.
#[unsafe(no_mangle)]
pub extern "C" fn obscurlane_hmac_of(key: &[u8], text: &[u8]) -> exports::confirming::Tag
    ensures { result.bytes ≡ hmac key.now text.now }
{
    exports::confirming::obscurlane_hmac_of(key, text)
}

// Whether the MacTag of a request is right for Z; with 0 MacKey and KEK.
#[unsafe(no_mangle)]
pub extern "C" fn obscurlane_confirm_request(
    z: &[u8],
    request: &[u8],
    mac_key: &mut [u8],
    kek: &mut [u8],
) -> confirm::Confirmed
    ensures { Confirms (confirm_request z.now request.now (length mac_key.old) (length kek.old)) mac_key.old kek.old mac_key.new kek.new result }
{
    exports::confirming::obscurlane_confirm_request(z, request, mac_key, kek)
}

// Whether the MacTag of a response is right for Z, with the request that it answers.
#[unsafe(no_mangle)]
pub extern "C" fn obscurlane_confirm_response(
    z: &[u8],
    request: &[u8],
    response: &[u8],
) -> confirm::Confirmed
    ensures { result ≡ confirm_response z.now request.now response.now }
{
    exports::confirming::obscurlane_confirm_response(z, request, response)
}
