// The point in time.
ghost use Rattle.std.specs.Prelude.{◌≡◌, ◌+◌};
ghost use Rattle.mbus_rules.specs.Moments.{moment_of, spare_bits, date_exists, time_exists, weekday_exists, wrong_moment};
ghost use Rattle.base_calendar.specs.Months.{days_in};

use base_calendar::days_of;
use base_numbers::byte_at;
use mbus_rules::Moment;

// The fields that the six bytes hold.
pub fn moment_of(value: &[u8]) -> Moment
    ensures { result ≡ moment_of value.now }
{
    let second = byte_at(value, 0);
    let minute = byte_at(value, 1);
    let hour = byte_at(value, 2);
    let day = byte_at(value, 3);
    let month = byte_at(value, 4);
    let year = month / 16 * 8 + day / 32;
    Moment {
        year,
        month: month % 16,
        day: day % 32,
        hour: hour % 32,
        minute: minute % 64,
        second: second % 64,
        weekday: hour / 32,
    }
}

// A bit that must be zero is not.
pub fn spare_bits(value: &[u8]) -> bool
    ensures { result ≡ spare_bits value.now }
{
    let second = byte_at(value, 0);
    let minute = byte_at(value, 1);
    let last = byte_at(value, 5);
    (63 < second) | (63 < minute) | (0 < last)
}

// The days of a month where year 0 is 2000.
pub fn days_in(year: u8, month: u8) -> u8
    ensures { result ≡ days_in (2000 + year) month }
{
    days_of(2000 + year as u16, month)
}

pub fn date_exists(m: Moment) -> bool
    ensures { result ≡ date_exists m }
{
    let days = days_in(m.year, m.month);
    (m.year < 100) & ((0 < m.month) & (m.month < 13)) & ((0 < m.day) & (m.day <= days))
}

pub fn time_exists(m: Moment) -> bool
    ensures { result ≡ time_exists m }
{
    (m.second < 60) & (m.minute < 60) & (m.hour < 24)
}

// The weekday is not said, or one of seven.
pub fn weekday_exists(m: Moment) -> bool
    ensures { result ≡ weekday_exists m }
{
    m.weekday < 8
}

// The six bytes break the rule of a point in time: a bit that must be zero is not, or there is no such date or time of day.
#[tactic(auto, unfolding(mbus_rules::specs::Moments::wrong_moment))]
pub fn wrong_moment(value: &[u8]) -> bool
    ensures { result ≡ wrong_moment value.now }
{
    let moment = moment_of(value);
    spare_bits(value) | !date_exists(moment) | !time_exists(moment)
}
