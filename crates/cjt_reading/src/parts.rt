// The parts of an answer, on bytes: digits as words, values with their units, the clock.
ghost use Rattle.std.specs.Prelude.{◌≡◌, ◌≤◌, [], ◌∷◌};
ghost use Rattle.base_digits.specs.Digits.{digits_of};
ghost use Rattle.cjt_rules.specs.CjtClocks.{clock_of};
ghost use Rattle.cjt_rules.specs.CjtLines.{part, value_from, wrong_part, wrong_listed, tells_in};

use base_digits::packed_in;
use base_numbers::{byte_at, number_at};
use cjt_fields::wrong_clock;
use cjt_rules::{CjtAnswer, CjtClock, CjtQuantity};

// A digit of at most eight bytes from a place on is over nine.
// (A width is no type of its own: each is a number in the lines that call, and would be wrapped there to be unwrapped here.)
fn wrong_at(d: &[u8], place: usize, width: usize) -> bool
    requires { width ≤ 8 }
    ensures { result ≡ wrong_part place width d.now }
{
    let digits = packed_in(number_at(d, place, width));
    digits.wrong
}

// The number whose digits at most four bytes from a place on are.
fn count_at(d: &[u8], place: usize, width: usize) -> u32
    requires { width ≤ 4 }
    ensures { result ≡ digits_of (part place width d.now) }
{
    let digits = packed_in(number_at(d, place, width));
    digits.count as u32
}

// A value of four bytes from a place on, and its unit behind them.
fn value_at(d: &[u8], place: usize) -> CjtQuantity
    requires { place ≤ 20 }
    ensures { result ≡ value_from place d.now }
{
    let count = count_at(d, place, 4);
    let code = byte_at(d, place + 4);
    CjtQuantity { count, code }
}

// The two digits of a byte.
fn two_digits(byte: u8) -> u8
    ensures { result ≡ digits_of (byte ∷ []) }
{
    10 * (byte / 16) + byte % 16
}

// The four digits of two bytes.
fn four_digits(low: u8, high: u8) -> u16
    ensures { result ≡ digits_of (low ∷ high ∷ []) }
{
    let low = two_digits(low);
    let high = two_digits(high);
    100 * high as u16 + low as u16
}

// The clock, from the thirty-fifth byte on.
fn clock_in(d: &[u8]) -> CjtClock
    ensures { result ≡ clock_of (part 34 7 d.now) }
{
    let second = two_digits(byte_at(d, 34));
    let minute = two_digits(byte_at(d, 35));
    let hour = two_digits(byte_at(d, 36));
    let day = two_digits(byte_at(d, 37));
    let month = two_digits(byte_at(d, 38));
    let year = four_digits(byte_at(d, 39), byte_at(d, 40));
    CjtClock {
        year,
        month,
        day,
        hour,
        minute,
        second,
    }
}

// 84, by the bytes behind the serial number.
pub(crate) fn wrong_listed(d: &[u8]) -> bool
    ensures { result ≡ wrong_listed d.now }
{
    let cold = wrong_at(d, 0, 4);
    let heat = wrong_at(d, 5, 4);
    let power = wrong_at(d, 10, 4);
    let flow = wrong_at(d, 15, 4);
    let volume = wrong_at(d, 20, 4);
    let inlet = wrong_at(d, 25, 3);
    let outlet = wrong_at(d, 28, 3);
    let hours = wrong_at(d, 31, 3);
    let digits = wrong_at(d, 34, 7);
    let clock = wrong_clock(clock_in(d));
    cold | heat | power | flow | volume | inlet | outlet | hours | digits | clock
}

// The answer that the bytes behind the serial number hold.
pub(crate) fn tells_in(meter_type: u8, address: u64, serial: u8, d: &[u8]) -> CjtAnswer
    ensures { result ≡ tells_in meter_type address serial d.now }
{
    let cold = value_at(d, 0);
    let heat = value_at(d, 5);
    let power = value_at(d, 10);
    let flow = value_at(d, 15);
    let volume = value_at(d, 20);
    let inlet = count_at(d, 25, 3);
    let outlet = count_at(d, 28, 3);
    let hours = count_at(d, 31, 3);
    let clock = clock_in(d);
    let first_state = byte_at(d, 41);
    let second_state = byte_at(d, 42);
    CjtAnswer {
        meter_type,
        address,
        serial,
        cold,
        heat,
        power,
        flow,
        volume,
        inlet,
        outlet,
        hours,
        clock,
        first_state,
        second_state,
    }
}
