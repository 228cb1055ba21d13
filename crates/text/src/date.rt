// TIMESTAMP (STS 600-4-2, clause 5.1.4; document 02, E2).
ghost use Rattle.std.specs.Prelude.{◌≡◌, ◌-◌, ◌≤◌, ◌<◌, true, false, MatchOption};
ghost use Rattle.text.specs.Calendar.{days_of_month};
ghost use Rattle.text.specs.Text.{between, fits, looks, number, part, year, month, day, is_timestamp};

// The byte c stands where a pattern has p: T and Z for themselves, any other letter for a digit.
fn does_fit(p: u8, c: u8) -> bool
    ensures { result ≡ fits p c }
{
    match p {
        b'T' | b'Z' => c == p,
        _ => crate::alphabet::is_decimal(c),
    }
}

fn looks_like(pattern: &[u8], s: &[u8]) -> bool
    ensures { result ≡ looks pattern.now s.now }
{
    pattern.len() == s.len() && pattern.iter().zip(s).all(|(p, c)| does_fit(*p, *c))
}

// What a digit stands for; 0 for a byte below '0'.
pub(crate) fn digit(c: u8) -> usize
    ensures { (result ≡ c - 48) × (result < 256) }
{
    c.saturating_sub(b'0') as usize
}

// The number in two digits from place i on.
pub(crate) fn two(s: &[u8; 16], i: usize) -> usize
    requires { i ≤ 14 }
    ensures { (result ≡ number (part i 2 s.now)) × (result < 2816) }
{
    10 * digit(s[i]) + digit(s[i + 1])
}

fn is_two_between(low: usize, high: usize, s: &[u8; 16], i: usize) -> bool
    requires { i ≤ 14 }
    ensures { result ≡ between low high (number (part i 2 s.now)) }
{
    crate::alphabet::is_between(low, high, two(s, i))
}

pub(crate) fn year_of(s: &[u8; 16]) -> usize
    ensures { result ≡ year s.now }
{
    100 * two(s, 0) + two(s, 2)
}

fn is_year(s: &[u8; 16]) -> bool
    ensures { result ≡ between 1 9999 (year s.now) }
{
    crate::alphabet::is_between(1, 9999, year_of(s))
}

// The day is one that exists in its month.
fn is_day(s: &[u8; 16]) -> bool
    ensures { result ≡ between 1 (days_of_month (year s.now) (month s.now)) (day s.now) }
{
    let last = crate::calendar::days_of_month(year_of(s), two(s, 4));
    is_two_between(1, last, s, 6)
}

// TIMESTAMP: YYYYMMDDThhmmssZ, every part in its range, the day by its month and year.
#[tactic(auto, unfolding(crate::specs::Text::is_timestamp))]
fn is_date(s: &[u8; 16]) -> bool
    ensures { result ≡ is_timestamp s.now }
{
    looks_like(b"YYYYMMDDThhmmssZ", s)
        && is_year(s)
        && is_two_between(1, 12, s, 4)
        && is_day(s)
        && is_two_between(0, 23, s, 9)
        && is_two_between(0, 59, s, 11)
        && is_two_between(0, 59, s, 13)
}

// The characters of a TIMESTAMP; None for any other text.
pub(crate) fn stamp_in<'a>(s: &'a [u8]) -> Option<&'a [u8; 16]>
    ensures { MatchOption result (is_timestamp s.now ≡ false) (λ stamp. (is_timestamp s.now ≡ true) × (stamp.now ≡ s.now)) }
{
    let stamp = <&[u8; 16]>::try_from(s).ok()?;
    if is_date(stamp) { Some(stamp) } else { None }
}
