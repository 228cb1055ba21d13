// A date as a number: the seconds since 19930101T000000Z.
ghost use Rattle.std.specs.Prelude.{◌≡◌};
ghost use Rattle.text.specs.Seconds.{moment_of};
ghost use Rattle.expiry.specs.Expiry.{expiry_of};

// Of a TIMESTAMP.
pub fn obscurlane_moment_of(s: &[u8]) -> text::Moment
    ensures { result ≡ moment_of s.now }
{
    text::moment_of(s)
}

// Of Expiry of a public key.
pub fn obscurlane_expiry_of(record: &[u8]) -> expiry::Expiry
    ensures { result ≡ expiry_of «record».now }
{
    expiry::expiry_of(record)
}
