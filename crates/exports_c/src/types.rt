// Whether bytes are of a text type.
ghost use Rattle.std.specs.Prelude.{◌≡◌};
ghost use Rattle.text.specs.Text.{is_ident, is_timestamp, is_hex, is_point, is_sig, is_mac, is_print};

#[unsafe(no_mangle)]
pub extern "C" fn obscurlane_is_ident(s: &[u8]) -> bool
    ensures { result ≡ is_ident s.now }
{
    exports::types::obscurlane_is_ident(s)
}

#[unsafe(no_mangle)]
pub extern "C" fn obscurlane_is_timestamp(s: &[u8]) -> bool
    ensures { result ≡ is_timestamp s.now }
{
    exports::types::obscurlane_is_timestamp(s)
}

#[unsafe(no_mangle)]
pub extern "C" fn obscurlane_is_hex(n: usize, s: &[u8]) -> bool
    ensures { result ≡ is_hex n s.now }
{
    exports::types::obscurlane_is_hex(n, s)
}

#[unsafe(no_mangle)]
pub extern "C" fn obscurlane_is_point(s: &[u8]) -> bool
    ensures { result ≡ is_point s.now }
{
    exports::types::obscurlane_is_point(s)
}

#[unsafe(no_mangle)]
pub extern "C" fn obscurlane_is_sig(s: &[u8]) -> bool
    ensures { result ≡ is_sig s.now }
{
    exports::types::obscurlane_is_sig(s)
}

#[unsafe(no_mangle)]
pub extern "C" fn obscurlane_is_mac(s: &[u8]) -> bool
    ensures { result ≡ is_mac s.now }
{
    exports::types::obscurlane_is_mac(s)
}

#[unsafe(no_mangle)]
pub extern "C" fn obscurlane_is_print(s: &[u8]) -> bool
    ensures { result ≡ is_print s.now }
{
    exports::types::obscurlane_is_print(s)
}
