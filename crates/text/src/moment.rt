// The number that a TIMESTAMP stands for, and its eight bytes (document 02, E9).
ghost use Rattle.std.specs.Prelude.{◌≡◌, ◌^◌, ◌<◌, T};
ghost use Rattle.std.proofs.Math.IntN.{sub_ℕ};
ghost use Rattle.text.specs.Text.{is_timestamp};
ghost use Rattle.text.specs.Seconds.{since_year_one, start, moment_of, seconds_bytes};
ghost use Rattle.text.specs.Later.{later};

// What the date call answers: whether a text is a TIMESTAMP, and its seconds since 19930101T000000Z, negative before; 0 with
// any other text.
#[repr(C)]
#[derive(Clone, Copy)]
pub struct Moment {
    pub valid: bool,
    pub seconds: i64,
}

// The seconds from the beginning of the year 1 to 19930101T000000Z.
const START: i64 = 62_861_443_200;

// The seconds from the beginning of the year 1 to a TIMESTAMP.
fn since_year_one(s: &[u8; 16]) -> usize
    requires { T (is_timestamp s.now) }
    ensures { (result ≡ since_year_one s.now) × (result < 2 ^ 40) }
{
    let days = crate::calendar::days_before(
        crate::date::year_of(s),
        crate::date::two(s, 4),
        crate::date::two(s, 6),
    );
    let hours = 3600 * crate::date::two(s, 9);
    let minutes = 60 * crate::date::two(s, 11);
    86400 * days + (hours + minutes + crate::date::two(s, 13))
}

// From seconds since the beginning of the year 1 to seconds since 19930101T000000Z.
fn since_start(total: usize) -> i64
    requires { total < 2 ^ 40 }
    ensures { result ≡ sub_ℕ total (since_year_one start) }
{
    total as i64 - START
}

// The date call.
pub fn moment_of(s: &[u8]) -> Moment
    ensures { result ≡ moment_of s.now }
{
    match crate::date::stamp_in(s) {
        Some(stamp) => Moment {
            valid: true,
            seconds: since_start(since_year_one(stamp)),
        },
        None => Moment {
            valid: false,
            seconds: 0,
        },
    }
}

// TIMESTAMP: YYYYMMDDThhmmssZ, every part in its range, the day by its month and year.
pub fn is_timestamp(s: &[u8]) -> bool
    ensures { result ≡ is_timestamp s.now }
{
    moment_of(s).valid
}

// Whether s is later than t, by the number of seconds; a text that is no TIMESTAMP counts as 19930101T000000Z.
pub fn is_later(s: &[u8], t: &[u8]) -> bool
    ensures { result ≡ later s.now t.now }
{
    moment_of(t).seconds < moment_of(s).seconds
}

// A number of seconds in eight bytes, big-endian two's complement.
pub fn seconds_bytes(seconds: i64) -> [u8; 8]
    ensures { result ≡ seconds_bytes seconds }
{
    seconds.to_be_bytes()
}
