// The real-time method from the record, document 02's request 2026-04: the error by formula C.1 of 000, from a run bundle.
#![tactic(auto)]

ghost use Rattle.std.specs.Prelude.{◌≡◌};
ghost use Rattle.base_rules.specs.Answers.{within};
ghost use Rattle.base_rules.specs.Shown.{shown};
ghost use Rattle.bundle_check.specs.Records.{records_of};
ghost use Rattle.run_calendar.specs.Days.{interval};
ghost use Rattle.run_counting.specs.Counting.{numbers_of};
ghost use Rattle.run_replay.specs.Errors.{wrong_interval, error_of_figures, replay_of};
ghost use Rattle.run_replay.specs.Shown.{replay_with};

use base_rules::Refusal;
use bench_indication::rises::error_of_rises;
use figures::{Figures, VOLUME_MOST, figures_at};
use run_calendar::interval;
use run_counting::counting;

mod figures;

// The first and the last row that count, and the error in tenths of a percent.
#[derive(Clone, Copy, PartialEq, Eq)]
pub struct Replayed {
    pub first: usize,
    pub last: usize,
    pub tenths: i64,
}

// The longest interval in milliseconds, 30 min.
pub const INTERVAL_MOST: u64 = 1_800_000;

fn wrong_interval(t: u64) -> bool
    ensures { result ≡ wrong_interval t }
{
    t == 0 || INTERVAL_MOST < t
}

// The error by C.1, from the meter's volumes v1 and v2, the standard's s1 and s2, and their intervals.
#[tactic(auto, unfolding(crate::specs::Errors::error_of_figures))]
fn error_of_figures(
    v1: u64,
    v2: u64,
    s1: u64,
    s2: u64,
    elapsed: u64,
    meter: u64,
) -> Result<i64, Refusal>
    ensures { result ≡ shown (error_of_figures v1 v2 s1 s2 elapsed meter) }
{
    if VOLUME_MOST < v1 || VOLUME_MOST < v2 || VOLUME_MOST < s1 || VOLUME_MOST < s2 {
        return Err(Refusal::REPLAY_VOLUME_TOO_LARGE);
    }
    if wrong_interval(elapsed) || wrong_interval(meter) {
        return Err(Refusal::REPLAY_WRONG_INTERVAL);
    }
    if v2 < v1 {
        return Err(Refusal::METER_COUNT_FALLS);
    }
    if s2 <= s1 {
        return Err(Refusal::STANDARD_COUNT_NOT_RISING);
    }
    error_of_rises((v2 - v1) * elapsed, (s2 - s1) * meter)
}

// The error between two answers. (The standard's volumes and the time stay three parameters, as `skarrowith_replay_error` has them for C: a struct of them
// would be made by replay and taken apart here.)
fn error_between(
    first: Figures,
    last: Figures,
    s1: u64,
    s2: u64,
    elapsed: u64,
) -> Result<i64, Refusal>
    ensures { result ≡ shown (error_of_figures first.volume last.volume s1 s2 elapsed (interval first.time last.time)) }
{
    error_of_figures(
        first.volume,
        last.volume,
        s1,
        s2,
        elapsed,
        interval(first.time, last.time),
    )
}

// Replays a bundle for one position: the first and last answers that count, and the error by C.1 with the standard's volumes s1 and s2
// in millilitres and the elapsed milliseconds; or refused by 30 to 37, 61 to 65.
pub fn replay(
    bundle: &[u8],
    position: u8,
    s1: u64,
    s2: u64,
    elapsed: u64,
) -> Result<Replayed, Refusal>
    ensures { result ≡ shown (within (replay_with (numbers_of position (records_of bundle.now))) (replay_of bundle.now position s1 s2 elapsed)) }
{
    let counted = counting(bundle, position)?;
    let count = counted.count;
    if count < 2 {
        return Err(Refusal::REPLAY_TOO_FEW_ANSWERS);
    }
    let first = counted.rows[0] as usize;
    let last = counted.rows[count - 1] as usize;
    let from = figures_at(bundle, first);
    let to = figures_at(bundle, last);
    let tenths = error_between(from, to, s1, s2, elapsed)?;
    Ok(Replayed {
        first,
        last,
        tenths,
    })
}
