// Room for a row among the contents, and for its body among the bodies.
ghost use Rattle.std.specs.Prelude.{◌≡◌, ◌+◌, ◌≤◌, ◌<◌, length};
ghost use Rattle.bundle_rows.specs.Rows.{most_rows, first_offset};
ghost use Rattle.bundle_adding.specs.Opening.{bodies_opened, row_opened, contents_opened};

use crate::bodies::{move_bodies, move_up};
use crate::growing::place_rows;
use base_lent::lay;
use base_numbers::put_number;
use bundle_rows::{Row, row_bytes};

// The bodies, which stand from one place up to another, move by 12, and the new body stands among them: those behind it move further.
pub(crate) fn open_bodies(buffer: &mut [u8], from: usize, at: usize, to: usize, body: &[u8])
    requires { (from ≤ at) × (at ≤ to) × (to + 12 + length body.now ≤ length buffer.old) }
    ensures { buffer.new ≡ bodies_opened from at to body.now buffer.old }
{
    move_up(buffer, at, to, 12 + body.len());
    move_bodies(buffer, from, at, body);
}

// A row stands among the others, and those behind it move by 12. That its place is not past the count is asked once more by each function on
// the way, since the place is a number of its own.
fn open_row(buffer: &mut [u8], count: usize, place: usize, row: Row)
    requires { (count ≤ most_rows) × (place ≤ count) × (first_offset count + 12 ≤ length buffer.old) }
    ensures { buffer.new ≡ row_opened count place row buffer.old }
{
    let first = 2 + 12 * place;
    move_up(buffer, first, 2 + 12 * count, 12);
    lay(buffer, first, &row_bytes(row));
}

// The new row stands in its place, all rows get their new offsets, and the count is one more.
pub(crate) fn open_contents(buffer: &mut [u8], count: usize, place: usize, row: Row)
    requires { (count < most_rows) × (place ≤ count) × (first_offset count + 12 ≤ length buffer.old) }
    ensures { buffer.new ≡ contents_opened count place row buffer.old }
{
    open_row(buffer, count, place, row);
    place_rows(buffer, count + 1, 2 + 12 * count + 12);
    put_number(buffer, 0, 2, (count + 1) as u64);
}
