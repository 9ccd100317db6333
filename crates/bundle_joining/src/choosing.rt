// The rows of one position: how much room they take, and their bundle.
ghost use Rattle.std.specs.Prelude.{◌≡◌, ◌≤◌, length};
ghost use Rattle.base_lent.specs.Copying.{laid};
ghost use Rattle.bundle_joining.specs.Choosing.{position_bundle};
ghost use Rattle.bundle_joining.specs.Measuring.{size_of};

use crate::writing::put_row;
use base_numbers::put_number;
use bundle_check::accepted::Accepted;

// How many rows there are, and how many bytes their bodies have.
#[derive(Clone, Copy)]
pub(crate) struct Size {
    pub(crate) rows: usize,
    pub(crate) bytes: usize,
}

// The rows of a position, measured.
pub(crate) fn measure(bundle: Accepted, position: u8) -> Size
    ensures { result ≡ size_of position bundle.entry.bytes.now }
{
    let mut rows: usize = 0;
    let mut bytes: usize = 0;
    for i in 0..bundle.count {
        let row = bundle.row(i);
        let own = row.position == position;
        if own {
            rows += 1;
            bytes += row.length as usize;
        }
    }
    Size { rows, bytes }
}

// The count, and each row of the position with its body behind the body before it.
pub(crate) fn write_rows(bundle: Accepted, position: u8, rows: usize, out: &mut [u8])
    requires { (rows ≡ (size_of position bundle.bytes.now).rows)
        × (length (position_bundle position bundle.bytes.now) ≤ length out.old) }
    ensures { out.new ≡ laid out.old 0 (position_bundle position bundle.entry.bytes.now) }
{
    put_number(out, 0, 2, rows as u64);
    let mut at = 2 + 12 * rows;
    let mut k: usize = 0;
    for i in 0..bundle.count {
        let row = bundle.row(i);
        let own = row.position == position;
        if own {
            at = put_row(bundle.bytes, row, out, k, at);
            k += 1;
        }
    }
}
