// The sweep of a run bundle (2026-12 of document 02), in the caller's own buffer.
#![tactic(auto)]

ghost use Rattle.std.specs.Prelude.{◌≡◌, length};
ghost use Rattle.base_rules.specs.Answers.{reads};
ghost use Rattle.base_lent.specs.Copying.{laid};
ghost use Rattle.bundle_check.specs.Bundles.{check_of};
ghost use Rattle.bundle_sweep.specs.Sweeping.{swept_bundle};
ghost use Rattle.bundle_sweep.specs.Shown.{Sweeps};

use crate::drawing::draw_rows;
use crate::placing::place_bodies;
use base_numbers::put_number;
use base_rules::Refusal;
use bundle_check::check;

mod drawing;
mod moving;
mod placing;

// The last position of a bench: a limit, and no kind.
const LAST_POSITION: u8 = 48;

// The rows are drawn together first: only then is it known where the first body goes.
fn sweep_rows(bundle: &mut [u8], count: usize, position: u8) -> usize
    requires { check_of bundle.old ≡ reads count }
    ensures { (result ≡ length (swept_bundle position bundle.old)) × (bundle.new
        ≡ laid bundle.old 0 (swept_bundle position bundle.old)) }
{
    let kept = draw_rows(bundle, count, position);
    let end = place_bodies(bundle, kept);
    put_number(bundle, 0, 2, kept as u64);
    end
}

// Removes the wake rows, and the rows of a position that is not 0, from the bundle that fills the first bytes of the buffer. Where it is
// refused, the buffer stays as it was. Buffer, filled and position come from C one by one.
pub fn sweep(buffer: &mut [u8], filled: usize, position: u8) -> Result<usize, Refusal>
    ensures { Sweeps buffer.old filled position result buffer.new }
{
    if buffer.len() < filled {
        return Err(Refusal::BUNDLE_TOO_LONG);
    }
    let count = check(&buffer[..filled])?;
    if LAST_POSITION < position {
        return Err(Refusal::BUNDLE_WRONG_ROW);
    }
    let end = sweep_rows(&mut buffer[..filled], count, position);
    Ok(end)
}
