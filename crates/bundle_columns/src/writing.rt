// From the five lists to the contents of the file.
ghost use Rattle.std.specs.Prelude.{◌≡◌, ◌≤◌, length};
ghost use Rattle.base_lent.specs.Copying.{laid};
ghost use Rattle.bundle_rows.specs.Rows.{most_rows, first_offset, bytes_of_rows};
ghost use Rattle.bundle_columns.specs.Columns.{kept_from, contents_bytes};
ghost use Rattle.bundle_columns.specs.Record.{columns_size, columns_in};
ghost use Rattle.bundle_columns.specs.Shown.{contents_into, Turns};

use crate::{count_in, kept_row};
use base_lent::lay_each;
use base_numbers::put_number;
use base_rules::Refusal;
use bundle_rows::row_bytes;

// So many rows of the lists, one behind the other, behind the count. The lists are no bundle, so that no Accepted counts them.
fn put_rows(columns: &[u8], count: usize, out: &mut [u8])
    requires { (length columns.now ≡ columns_size) × (count ≤ most_rows) × (first_offset count ≤ length out.old) }
    ensures { out.new ≡ laid out.old 2 (bytes_of_rows (kept_from (columns_in columns.now) 0 count)) }
{
    for i in 0..count {
        let row = kept_row(columns, i);
        let bytes = row_bytes(row);
        lay_each(out, 2 + 12 * i, &bytes);
    }
}

// The count and the rows as a bundle begins with them, in the first places. Where it is refused nothing is changed.
pub fn contents_of(columns: &[u8], out: &mut [u8]) -> Result<usize, Refusal>
    ensures { Turns contents_bytes (contents_into columns.now out.old) out.old result out.new }
{
    let count = count_in(columns)?;
    if out.len() < 2 + 12 * count {
        return Err(Refusal::TOO_FEW_PLACES);
    }
    put_number(out, 0, 2, count as u64);
    put_rows(columns, count, out);
    Ok(count)
}
