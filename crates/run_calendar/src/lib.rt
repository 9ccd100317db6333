// How far two points in time of document 01 are apart, in milliseconds.
#![tactic(auto)]

ghost use Rattle.std.specs.Prelude.{◌≡◌, ◌+◌, ◌-◌, ◌≤◌};
ghost use Rattle.run_calendar.specs.Days.{year_days, month_days, days_before, milliseconds_at, interval};

use mbus_fields::moments::days_in;
use mbus_rules::Moment;

// The days of so many years from 2000 on: every fourth year is a leap year, of the full hundreds only every fourth.
fn year_days(years: u64) -> u64
    requires { years ≤ 255 }
    ensures { (result ≡ year_days years) × (result ≤ 100000) }
{
    365 * years + (years + 3) / 4 + (years + 399) / 400 - (years + 99) / 100
}

// The days of the first so many months of a year; year 0 is 2000.
fn month_days(year: u8, months: u8) -> u64
    ensures { (result ≡ month_days (2000 + year) months) × (result ≤ 65535) }
{
    // Not by `sum`, which asks before the first month that every sum on the way fits.
    let mut days = 0;
    for month in 0..months {
        days += days_in(year, month + 1) as u64;
    }
    days
}

// The days before a date.
fn days_before(year: u8, month: u8, day: u8) -> u64
    ensures { (result ≡ days_before year month day) × (result ≤ 1000000) }
{
    year_days(year as u64)
        + month_days(year, month.saturating_sub(1))
        + day.saturating_sub(1) as u64
}

// The milliseconds before a point in time.
fn milliseconds_at(m: Moment) -> u64
    ensures { result ≡ milliseconds_at m }
{
    let days = days_before(m.year, m.month, m.day);
    86_400_000 * days + 1000 * (60 * (60 * m.hour as u64 + m.minute as u64) + m.second as u64)
}

// The milliseconds from one point in time to another; 0 where the other is not later.
pub fn interval(first: Moment, last: Moment) -> u64
    ensures { result ≡ interval first last }
{
    milliseconds_at(last).saturating_sub(milliseconds_at(first))
}
