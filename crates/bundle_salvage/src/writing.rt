// The new bundle in the second buffer.
ghost use Rattle.std.specs.Prelude.{◌≡◌, ◌+◌, ◌-◌, ◌≤◌, length, take, drop};
ghost use Rattle.base_lent.specs.Copying.{laid};
ghost use Rattle.bundle_rows.specs.Rows.{rows_of, first_offset, bytes_of_rows};
ghost use Rattle.bundle_check.specs.Bundles.{count_of};
ghost use Rattle.bundle_check.specs.Records.{records_of, bundle_of};
ghost use Rattle.bundle_check.specs.RowRules.{bodies_end};
ghost use Rattle.bundle_salvage.specs.Salvaging.{new_length};
ghost use Rattle.bundle_salvage.specs.Writing.{lowered_rows, InPlace};

use base_lent::lay_each;
use base_numbers::put_number;
use bundle_rows::{Row, row_bytes, unchecked_row};

// The rows that are kept, each with its offset lower by the rows that are dropped.
fn put_rows(damaged: &[u8], kept: usize, count: usize, out: &mut [u8])
    requires { (InPlace damaged.now kept count) × (first_offset kept ≤ length out.old) }
    ensures { out.new ≡ laid out.old 2 (bytes_of_rows (lowered_rows kept (count - kept) damaged.now)) }
{
    let fewer = (12 * (count - kept)) as u32;
    for i in 0..kept {
        let row = unchecked_row(damaged, i);
        let offset = row.offset - fewer;
        let bytes = row_bytes(Row { offset, ..row });
        lay_each(out, 2 + 12 * i, &bytes);
    }
}

// The count, the rows and their bodies, which stand in the damaged bundle up to a place.
pub(crate) fn write(damaged: &[u8], kept: usize, count: usize, end: usize, out: &mut [u8])
    requires { (InPlace damaged.now kept count) × (count ≡ count_of damaged.now)
        × (end ≡ bodies_end (first_offset count) (rows_of kept (drop 2 damaged.now))) × (new_length kept count end ≤ length out.old) }
    ensures { out.new ≡ laid out.old 0 (bundle_of (take kept (records_of damaged.now))) }
{
    put_number(out, 0, 2, kept as u64);
    put_rows(damaged, kept, count, out);
    lay_each(out, 2 + 12 * kept, &damaged[2 + 12 * count..end]);
}
