// One row of a bundle written into another.
ghost use Rattle.std.specs.Prelude.{◌≡◌, ◌+◌, ◌≤◌, ◌<◌, length};
ghost use Rattle.bundle_rows.specs.Rows.{most_rows};
ghost use Rattle.bundle_check.specs.Bundles.{most_bytes};
ghost use Rattle.bundle_joining.specs.Writing.{row_put};

use base_lent::lay_each;
use bundle_rows::{Row, row_bytes};

// The row goes to place k of the contents with its body at a place, and the body there; answers where the body ends. (Both by lay_each: by lay
// the back end asks for memmove for the body, and puts the row's fields together before it copies them, for which it waits.)
pub(crate) fn put_row(source: &[u8], row: Row, out: &mut [u8], k: usize, at: usize) -> usize
    requires { (row.offset + row.length ≤ length source.now) × (k < most_rows) × (at ≤ most_bytes) }
    ensures { (result ≡ at + row.length) × (out.new ≡ row_put source.now row k at out.old) }
{
    let size = row.length as usize;
    let from = row.offset as usize;
    let offset = at as u32;
    let bytes = row_bytes(Row { offset, ..row });
    lay_each(out, 2 + 12 * k, &bytes);
    lay_each(out, at, &source[from..from + size]);
    at + size
}
