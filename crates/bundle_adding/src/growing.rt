// The contents rows in front of bodies that have moved.
ghost use Rattle.std.specs.Prelude.{◌≡◌, ◌+◌, ◌≤◌, length};
ghost use Rattle.bundle_rows.specs.Rows.{most_rows, first_offset};
ghost use Rattle.bundle_check.specs.Bundles.{most_bytes};
ghost use Rattle.bundle_adding.specs.Writing.{rows_placed, contents_grown};

use base_lent::{lay, lay_each};
use base_numbers::put_number;
use bundle_rows::{Row, row_bytes, unchecked_row};

// Each row gets the offset that its body has, the first body at a place and each next one behind it. The buffer is no accepted bundle here,
// and a struct of buffer and count that knows the rows to be there would be made from the two and taken apart again for each step.
pub(crate) fn place_rows(buffer: &mut [u8], count: usize, first: usize)
    requires { (count ≤ most_rows) × (first_offset count ≤ length buffer.old) × (first ≤ most_bytes) }
    ensures { buffer.new ≡ rows_placed count first buffer.old }
{
    let mut at = first;
    for i in 0..count {
        let row = unchecked_row(buffer, i);
        let offset = at as u32;
        let moved = row_bytes(Row { offset, ..row });
        lay_each(buffer, 2 + 12 * i, &moved);
        at = at + row.length as usize;
    }
}

// The rows get their new offsets, the new row stands last, and the count is one more.
pub(crate) fn grow_contents(buffer: &mut [u8], count: usize, row: Row)
    requires { (count ≤ most_rows) × (first_offset count + 12 ≤ length buffer.old) }
    ensures { buffer.new ≡ contents_grown count row buffer.old }
{
    let first = 2 + 12 * count;
    place_rows(buffer, count, first + 12);
    lay(buffer, first, &row_bytes(row));
    put_number(buffer, 0, 2, (count + 1) as u64);
}
