// Hexadecimal characters and values (STS 600-4-2, clauses 5.3, 5.5 and 5.8.1), without a table of digits.
ghost use Rattle.std.specs.Prelude.{◌≡◌};
ghost use Rattle.text.specs.Base16.{hex_digit, hex_value, check_text};

// The character of a value below 16, and 0 for any other.
#[tactic(auto, unfolding(crate::specs::Base16::hex_digit))]
pub fn hex_digit(value: u8) -> u8
    ensures { result ≡ hex_digit value }
{
    match value {
        0..=9 => b'0' + value,
        10..=15 => b'A' + (value - 10),
        _ => 0,
    }
}

// The value of a character 0-9 or A-F, and 16 for any other byte.
#[tactic(auto, unfolding(crate::specs::Base16::hex_value))]
pub fn hex_value(c: u8) -> u8
    ensures { result ≡ hex_value c }
{
    match c {
        b'0'..=b'9' => c - b'0',
        b'A'..=b'F' => 10 + (c - b'A'),
        _ => 16,
    }
}

// The four characters of a check, the higher byte first.
#[tactic(auto, unfolding(crate::specs::Base16::check_text))]
pub fn check_text(check: u16) -> [u8; 4]
    ensures { result ≡ check_text check }
{
    let [high, low] = check.to_be_bytes();
    [
        hex_digit(high / 16),
        hex_digit(high % 16),
        hex_digit(low / 16),
        hex_digit(low % 16),
    ]
}
