// A date as a number: the seconds since 19930101T000000Z.
ghost use Rattle.std.specs.Prelude.{◌≡◌};
ghost use Rattle.text.specs.Seconds.{moment_of};
ghost use Rattle.expiry.specs.Expiry.{expiry_of};

// Of a TIMESTAMP.
#[unsafe(no_mangle)]
pub extern "C" fn obscurlane_moment_of(s: &[u8]) -> text::Moment
    ensures { result ≡ moment_of s.now }
{
    exports::dates::obscurlane_moment_of(s)
}

// Of Expiry of a public key.
#[unsafe(no_mangle)]
pub extern "C" fn obscurlane_expiry_of(record: &[u8]) -> expiry::Expiry
    ensures { result ≡ expiry_of «record».now }
{
    exports::dates::obscurlane_expiry_of(record)
}
