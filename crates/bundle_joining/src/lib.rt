// The rows of two bundles by time, as one bundle in a third buffer.
#![tactic(auto)]

ghost use Rattle.bundle_joining.specs.JoinShown.{Joins};

use crate::joining::write_rows;
use base_rules::Refusal;
use bundle_check::accepted::Accepted;
use bundle_check::{MOST_BYTES, check};
use bundle_rows::MOST_ROWS;

mod choosing;
mod joining;
pub mod position;
mod writing;

// Both bundles have been accepted: their rows go into one where they fit there and in the buffer.
fn join_rows(a: Accepted, b: Accepted, out: &mut [u8]) -> Result<usize, Refusal>
    ensures { Joins a.entry.bytes.now b.entry.bytes.now out.old result out.new }
{
    let rows = a.count + b.count;
    let filled = a.bytes.len() + b.bytes.len() - 2;
    let full = (MOST_ROWS < rows) | (MOST_BYTES < filled) | (out.len() < filled);
    if full {
        return Err(Refusal::BUNDLE_FULL);
    }
    write_rows(a, b, out);
    Ok(filled)
}

// The rows of two bundles by time, of equal times those of a first, with their bodies, as a bundle in the first bytes of a buffer. Where it is
// refused the buffer stays as it was.
pub fn join(a: &[u8], b: &[u8], out: &mut [u8]) -> Result<usize, Refusal>
    ensures { Joins a.now b.now out.old result out.new }
{
    let in_a = check(a)?;
    let in_b = check(b)?;
    let first = Accepted {
        bytes: a,
        count: in_a,
    };
    let second = Accepted {
        bytes: b,
        count: in_b,
    };
    join_rows(first, second, out)
}
