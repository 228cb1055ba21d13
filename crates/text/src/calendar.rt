// The Gregorian calendar (document 02, E2 and E9).
ghost use Rattle.std.specs.Prelude.{◌≡◌, ◌^◌, ◌≤◌, ◌<◌};
ghost use Rattle.text.specs.Calendar.{leap, days_of_month, sum_to, days_of_year, days_before};

// A year that ends a century is one by 400, every other by 4.
fn is_leap(year: usize) -> bool
    ensures { result ≡ leap year }
{
    if year % 100 == 0 {
        year % 400 == 0
    } else {
        year % 4 == 0
    }
}

// Branches and no table: the module team counts constants.
pub(crate) fn days_of_month(year: usize, month: usize) -> usize
    ensures { result ≡ days_of_month year month }
{
    match month {
        2 if is_leap(year) => 29,
        2 => 28,
        4 | 6 | 9 | 11 => 30,
        _ => 31,
    }
}

// The days of the years 1 to n: every fourth has a day more, but of those that end a century only every fourth.
fn days_of_years(n: usize) -> usize
    requires { n < 10000 }
    ensures { (result ≡ sum_to n days_of_year) × (result < 2 ^ 22) }
{
    365 * n + n / 4 - n / 100 + n / 400
}

// The days of the months 1 to n of a year: first as though February had 30.
fn days_of_months(year: usize, n: usize) -> usize
    requires { n < 12 }
    ensures { (result ≡ sum_to n (days_of_month year)) × (result < 2 ^ 9) }
{
    let days = (367 * n + 5) / 12;
    if n < 2 {
        days
    } else if is_leap(year) {
        days - 1
    } else {
        days - 2
    }
}

// The days from 1 January of the year 1 to a date.
pub(crate) fn days_before(year: usize, month: usize, day: usize) -> usize
    requires { (1 ≤ year) × (year ≤ 9999) × (1 ≤ month) × (month ≤ 12) × (1 ≤ day) × (day ≤ 31) }
    ensures { (result ≡ days_before year month day) × (result < 2 ^ 23) }
{
    days_of_years(year - 1) + days_of_months(year, month - 1) + (day - 1)
}
