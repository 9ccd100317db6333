// The error of one rise against another.
ghost use Rattle.std.specs.Prelude.{◌≡◌};
ghost use Rattle.base_rules.specs.Shown.{shown};
ghost use Rattle.bench_indication.specs.Errors.{rise_error_of};

use crate::tenths;
use base_rules::Refusal;

// The largest rise: with it, 1000 times a difference of rises stays below the type's largest number.
pub const RISE_MOST: u64 = 1_800_000_000_000_000;

// The error of one rise against another, in whatever unit both are: in tenths of a percent, or refused by 60 or 62.
pub fn error_of_rises(meter: u64, standard: u64) -> Result<i64, Refusal>
    ensures { result ≡ shown (rise_error_of meter standard) }
{
    if RISE_MOST < meter || RISE_MOST < standard {
        return Err(Refusal::COUNT_TOO_LARGE);
    }
    if standard == 0 {
        return Err(Refusal::STANDARD_COUNT_NOT_RISING);
    }
    Ok(tenths(meter, standard))
}
