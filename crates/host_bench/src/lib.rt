// What a bench does around a line, for C: the wake-up, the gap after it, the error of indication. include/skarrowith.h says how.
#![tactic(auto)]

ghost use Rattle.std.specs.Prelude.{◌≡◌, [], ◌∷◌};
ghost use Rattle.bench_clock.specs.Gaps.{gap_of};
ghost use Rattle.bench_clock.specs.Wakes.{wake_of, wake_line};
ghost use Rattle.base_lent.specs.Lent.{told, done, Leaves};
ghost use Rattle.host_bench.specs.Calls.{error_for};

use base_lent::handing::hand;
use base_rules::Refusal;
use bench_clock::{Clock, write_wake};
use bench_indication::error_of;

pub mod resistance;

// Writes a wake-up of so many characters.
pub fn skarrowith_write_wake(count: usize, out: &mut [u16]) -> u32
    ensures { Leaves done wake_line (wake_of count out.old) out.old out.new result }
{
    match write_wake(count, out) {
        Ok(_) => 0,
        Err(refused) => refused.told(),
    }
}

// Whether a command that begins at a time stands in the gap after a wake-up that ended at another.
pub fn skarrowith_gap(ended: u64, begins: u64) -> u32
    ensures { result ≡ told done (gap_of ended begins) }
{
    match Clock(ended).gap(Clock(begins)) {
        Ok(()) => 0,
        Err(refused) => refused.told(),
    }
}

// The error of indication in tenths of a percent.
pub fn skarrowith_error(m1: u64, m2: u64, s1: u64, s2: u64, tenths: &mut [i64]) -> u32
    ensures { Leaves done (λ e. e ∷ []) (error_for m1 m2 s1 s2 tenths.old) tenths.old tenths.new result }
{
    if tenths.is_empty() {
        return Refusal::TOO_FEW_PLACES.told();
    }
    hand(error_of(m1, m2, s1, s2), &mut tenths[0])
}
