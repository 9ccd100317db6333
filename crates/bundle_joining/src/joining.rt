// The rows of two bundles written one by one into a third, the earlier first.
ghost use Rattle.std.specs.Prelude.{◌≡◌};
ghost use Rattle.base_lent.specs.Copying.{laid};
ghost use Rattle.bundle_joining.specs.Joining.{joined_bundle};
ghost use Rattle.bundle_joining.specs.Turns.{BothFit, from_b};

use crate::writing::put_row;
use base_numbers::put_number;
use bundle_check::accepted::Accepted;

// The next row is that of b: a has none left, or b has one and it is earlier.
fn is_from_b(a: Accepted, i: usize, b: Accepted, j: usize) -> bool
    ensures { result ≡ from_b a.entry.bytes.now a.entry.count i b.entry.bytes.now b.entry.count j }
{
    let of_a = a.row(i);
    let of_b = b.row(j);
    (a.count <= i) | ((j < b.count) & (of_b.time < of_a.time))
}

// The count, and each row with its body behind the body before it. It is not one with that of `choosing`: there rows of one bundle are passed
// over, here two bundles take turns.
pub(crate) fn write_rows(a: Accepted, b: Accepted, out: &mut [u8])
    requires { BothFit a.bytes.now a.count b.bytes.now b.count out.old }
    ensures { out.new ≡ laid out.old 0 (joined_bundle a.entry.bytes.now b.entry.bytes.now) }
{
    let rows = a.count + b.count;
    put_number(out, 0, 2, rows as u64);
    let mut at = 2 + 12 * rows;
    let mut i: usize = 0;
    let mut j: usize = 0;
    for k in 0..rows {
        let of_b = is_from_b(a, i, b, j);
        if of_b {
            let row = b.row(j);
            at = put_row(b.bytes, row, out, k, at);
            j += 1;
        } else {
            let row = a.row(i);
            at = put_row(a.bytes, row, out, k, at);
            i += 1;
        }
    }
}
