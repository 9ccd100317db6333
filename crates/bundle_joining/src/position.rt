// The rows of one position as a bundle of their own, in a second buffer.
ghost use Rattle.std.specs.Prelude.{false, ◌≡◌};
ghost use Rattle.bundle_rows.specs.Fields.{wrong_position};
ghost use Rattle.bundle_joining.specs.ChoosingShown.{Chooses};

use crate::choosing::{measure, write_rows};
use base_rules::Refusal;
use bundle_check::accepted::Accepted;
use bundle_check::check;
use bundle_rows::wrong_position;

// The rows are measured first: only then is it known where the first body goes, and whether there is room.
fn choose(bundle: Accepted, position: u8, out: &mut [u8]) -> Result<usize, Refusal>
    requires { wrong_position position ≡ false }
    ensures { Chooses bundle.entry.bytes.now position out.old result out.new }
{
    let size = measure(bundle, position);
    let rows = size.rows;
    let filled = 2 + 12 * rows + size.bytes;
    if out.len() < filled {
        return Err(Refusal::BUNDLE_FULL);
    }
    write_rows(bundle, position, rows, out);
    Ok(filled)
}

// The rows of a position from 1 to 48, in order with their bodies and times, as a bundle in the first bytes of the second buffer. Where it is
// refused the buffer stays as it was.
pub fn of_position(bundle: &[u8], position: u8, out: &mut [u8]) -> Result<usize, Refusal>
    ensures { Chooses bundle.now position out.old result out.new }
{
    let count = check(bundle)?;
    if wrong_position(position) {
        return Err(Refusal::BUNDLE_WRONG_ROW);
    }
    let accepted = Accepted {
        bytes: bundle,
        count,
    };
    choose(accepted, position, out)
}
