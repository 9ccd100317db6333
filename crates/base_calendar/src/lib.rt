// The Gregorian calendar.
#![tactic(auto)]

ghost use Rattle.std.specs.Prelude.{◌≡◌};
ghost use Rattle.base_calendar.specs.Months.{days_in};

// The days of a month, by the Gregorian calendar. (A match: its numbers are days and no kinds, and months of one length share an arm.)
pub fn days_of(year: u16, month: u8) -> u8
    ensures { result ≡ days_in year month }
{
    let leap = year % 4 == 0 && (year % 100 != 0 || year % 400 == 0);
    match month {
        2 if leap => 29,
        2 => 28,
        4 | 6 | 9 | 11 => 30,
        _ => 31,
    }
}
