// The error of indication of document 01, by formulas A.1 and B.1 of 000.
#![tactic(auto)]

ghost use Rattle.std.specs.Prelude.{◌≡◌, ◌≤◌, ◌<◌, ◌^◌};
ghost use Rattle.base_rules.specs.Shown.{shown};
ghost use Rattle.base_numbers.specs.Rounding.{nearest};
ghost use Rattle.bench_indication.specs.Errors.{tenths, indication_of, rise_most};

use base_rules::Refusal;

pub mod rises;

// The largest count.
pub const COUNT_MOST: u64 = 1_000_000_000_000;

// The whole number nearest to a / d, halves up.
fn nearest(a: u64, d: u64) -> u64
    requires { (a < 2 ^ 62) × (0 < d) × (d < 2 ^ 62) }
    ensures { result ≡ nearest a d }
{
    (2 * a + d) / (2 * d)
}

// The error of the meter's rise against the standard's.
fn tenths(meter: u64, standard: u64) -> i64
    requires { (meter ≤ rise_most) × (0 < standard) × (standard ≤ rise_most) }
    ensures { result ≡ tenths meter standard }
{
    if meter < standard {
        return -(nearest(1000 * (standard - meter), standard) as i64);
    }
    nearest(1000 * (meter - standard), standard) as i64
}

// The error of indication in tenths of a percent, or refused by 60, 61 or 62, from the meter's counts m1 and m2 and the standard's s1 and s2,
// all in one unit. Where there is one standard value, as in B.1, it is s2 and s1 is 0.
pub fn error_of(m1: u64, m2: u64, s1: u64, s2: u64) -> Result<i64, Refusal>
    ensures { result ≡ shown (indication_of m1 m2 s1 s2) }
{
    if COUNT_MOST < m1 || COUNT_MOST < m2 || COUNT_MOST < s1 || COUNT_MOST < s2 {
        return Err(Refusal::COUNT_TOO_LARGE);
    }
    if m2 < m1 {
        return Err(Refusal::METER_COUNT_FALLS);
    }
    if s2 <= s1 {
        return Err(Refusal::STANDARD_COUNT_NOT_RISING);
    }
    Ok(tenths(m2 - m1, s2 - s1))
}
