// CRC16-MODBUS, the check at the end of every record (STS 600-4-2, clause 5.5): a small state handed on by value,
// begun, given one byte after another, ended. Bit by bit: there is no table, in the compiled code either.
#![tactic(auto)]

ghost use Rattle.std.specs.Prelude.{◌≡◌};
ghost use Rattle.crc16.specs.Crc.{begin, bit_step, bit_steps, add, end, crc_of};

// One bit. The feedback is masked, which is quicker than choosing it; of a product by the bit LLVM makes a jump, and the bits
// of a record are not to be guessed.
fn bit(state: u16) -> u16
    ensures { result ≡ bit_step state }
{
    (state >> 1) ^ (((state & 1) * 0xFFFF) & 0xA001)
}

// The eight bits of a byte. Nested calls, because LLVM takes a loop of bit steps for a CRC and puts a table of
// 512 bytes in its place.
fn eight(state: u16) -> u16
    ensures { result ≡ bit_steps 8 state }
{
    bit(bit(bit(bit(bit(bit(bit(bit(state))))))))
}

// The check of the bytes given so far.
#[derive(Clone, Copy)]
pub struct Crc {
    pub state: u16,
}

impl Crc {
    // The state before the first byte.
    pub fn begin() -> Crc
        ensures { result.state ≡ begin }
    {
        Crc { state: 0xFFFF }
    }

    // The state with one byte more.
    pub fn add(self, byte: u8) -> Crc
        ensures { result.state ≡ add self.state byte }
    {
        Crc {
            state: eight(self.state ^ (byte as u16)),
        }
    }

    // The check of all bytes given.
    pub fn end(self) -> u16
        ensures { result ≡ end self.state }
    {
        self.state
    }
}

// The check of a slice.
pub fn crc_of(bytes: &[u8]) -> u16
    ensures { result ≡ crc_of bytes.now }
{
    let mut crc = Crc::begin();
    for byte in bytes {
        crc = crc.add(*byte);
    }
    crc.end()
}
