// The bodies of the rows that are left, one behind the other, and their offsets.
ghost use Rattle.bundle_sweep.specs.Writing.{BodiesInOrder, Placed};

use crate::moving::move_down;
use base_lent::lay_each;
use bundle_rows::{Row, row_bytes, unchecked_row};

// Each body moves to where the one before it ends, the first behind the rows, and its row gets that offset; answers where the last ends.
pub(crate) fn place_bodies(bundle: &mut [u8], kept: usize) -> usize
    requires { BodiesInOrder bundle.old kept }
    ensures { Placed bundle.old kept result bundle.new }
{
    let mut at = 2 + 12 * kept;
    for i in 0..kept {
        let row = unchecked_row(bundle, i);
        let size = row.length as usize;
        move_down(bundle, row.offset as usize, at, size);
        let offset = at as u32;
        let placed = row_bytes(Row { offset, ..row });
        lay_each(bundle, 2 + 12 * i, &placed);
        at = at + size;
    }
    at
}
