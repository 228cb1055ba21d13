// Whether bytes are of a text type.
ghost use Rattle.std.specs.Prelude.{◌≡◌};
ghost use Rattle.text.specs.Text.{is_ident, is_timestamp, is_hex, is_point, is_sig, is_mac, is_print};

pub fn obscurlane_is_ident(s: &[u8]) -> bool
    ensures { result ≡ is_ident s.now }
{
    text::is_ident(s)
}

pub fn obscurlane_is_timestamp(s: &[u8]) -> bool
    ensures { result ≡ is_timestamp s.now }
{
    text::is_timestamp(s)
}

pub fn obscurlane_is_hex(n: usize, s: &[u8]) -> bool
    ensures { result ≡ is_hex n s.now }
{
    text::is_hex(n, s)
}

pub fn obscurlane_is_point(s: &[u8]) -> bool
    ensures { result ≡ is_point s.now }
{
    text::is_point(s)
}

pub fn obscurlane_is_sig(s: &[u8]) -> bool
    ensures { result ≡ is_sig s.now }
{
    text::is_sig(s)
}

pub fn obscurlane_is_mac(s: &[u8]) -> bool
    ensures { result ≡ is_mac s.now }
{
    text::is_mac(s)
}

pub fn obscurlane_is_print(s: &[u8]) -> bool
    ensures { result ≡ is_print s.now }
{
    text::is_print(s)
}
