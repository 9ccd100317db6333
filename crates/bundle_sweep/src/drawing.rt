// The rows that are left, drawn together at the beginning of the contents.
ghost use Rattle.std.specs.Prelude.{◌≡◌, ◌+◌, ◌≤◌, length};
ghost use Rattle.base_rules.specs.Answers.{reads};
ghost use Rattle.bundle_rows.specs.Rows.{unchecked_row};
ghost use Rattle.bundle_check.specs.Bundles.{check_of};
ghost use Rattle.bundle_sweep.specs.Sweeping.{goes};
ghost use Rattle.bundle_sweep.specs.Writing.{row_goes, Drawn};

use crate::moving::move_down;
use bench_clock::is_wake;
use bundle_rows::unchecked_row;

// A row of this position with this body goes: a wake-up, or a row of the named position.
fn is_gone(position: u8, own: u8, body: &[u8]) -> bool
    ensures { result ≡ goes position own body.now }
{
    let wake = is_wake(body);
    wake | ((position != 0) & (own == position))
}

// Row i goes, whose body lies in the bundle. This is all that is left of an accepted bundle while rows are drawn together.
fn goes_at(bundle: &[u8], i: usize, position: u8) -> bool
    requires { (unchecked_row bundle.now i).offset + (unchecked_row bundle.now i).length ≤ length bundle.now }
    ensures { result ≡ row_goes position bundle.now (unchecked_row bundle.now i) }
{
    let row = unchecked_row(bundle, i);
    let at = row.offset as usize;
    let end = at + row.length as usize;
    is_gone(position, row.position, &bundle[at..end])
}

// Each row that is left moves up to the one before it, with the offset that it has; answers how many there are. It takes no
// Accepted: the bundle is lent to be changed, and is none from the first row that moves.
pub(crate) fn draw_rows(bundle: &mut [u8], count: usize, position: u8) -> usize
    requires { check_of bundle.old ≡ reads count }
    ensures { Drawn position bundle.old result bundle.new }
{
    let mut kept: usize = 0;
    for i in 0..count {
        let gone = goes_at(bundle, i, position);
        if !gone {
            move_down(bundle, 2 + 12 * i, 2 + 12 * kept, 12);
            kept += 1;
        }
    }
    kept
}
