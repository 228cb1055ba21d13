// The check, whole and byte by byte.
ghost use Rattle.std.specs.Prelude.{◌≡◌};
ghost use Rattle.crc16.specs.Crc.{begin, add, end, crc_of};

// The state before the first byte.
pub fn obscurlane_crc_begin() -> u16
    ensures { result ≡ begin }
{
    crc16::Crc::begin().state
}

// The state with one byte more.
pub fn obscurlane_crc_add(state: u16, byte: u8) -> u16
    ensures { result ≡ add state byte }
{
    crc16::Crc { state }.add(byte).state
}

// The check of all bytes given.
pub fn obscurlane_crc_end(state: u16) -> u16
    ensures { result ≡ end state }
{
    crc16::Crc { state }.end()
}

// The check of the bytes.
pub fn obscurlane_crc_of(bytes: &[u8]) -> u16
    ensures { result ≡ crc_of bytes.now }
{
    crc16::crc_of(bytes)
}
