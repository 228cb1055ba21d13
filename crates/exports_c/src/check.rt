// The check, whole and byte by byte.
ghost use Rattle.std.specs.Prelude.{◌≡◌};
ghost use Rattle.crc16.specs.Crc.{begin, add, end, crc_of};

// The state before the first byte.
#[unsafe(no_mangle)]
pub extern "C" fn obscurlane_crc_begin() -> u16
    ensures { result ≡ begin }
{
    exports::check::obscurlane_crc_begin()
}

// The state with one byte more.
#[unsafe(no_mangle)]
pub extern "C" fn obscurlane_crc_add(state: u16, byte: u8) -> u16
    ensures { result ≡ add state byte }
{
    exports::check::obscurlane_crc_add(state, byte)
}

// The check of all bytes given.
#[unsafe(no_mangle)]
pub extern "C" fn obscurlane_crc_end(state: u16) -> u16
    ensures { result ≡ end state }
{
    exports::check::obscurlane_crc_end(state)
}

// The check of the bytes.
#[unsafe(no_mangle)]
pub extern "C" fn obscurlane_crc_of(bytes: &[u8]) -> u16
    ensures { result ≡ crc_of bytes.now }
{
    exports::check::obscurlane_crc_of(bytes)
}
