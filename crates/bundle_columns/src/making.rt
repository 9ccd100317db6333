// From a bundle to the five lists.
ghost use Rattle.std.specs.Prelude.{◌≡◌, ◌++◌, ◌+◌, ◌*◌, ◌≤◌, length};
ghost use Rattle.base_rules.specs.Lists.{at};
ghost use Rattle.base_lent.specs.Copying.{laid};
ghost use Rattle.base_numbers.specs.Numbers.{bytes_of};
ghost use Rattle.bundle_rows.specs.Rows.{most_rows};
ghost use Rattle.bundle_columns.specs.Record.{columns_size, list_bytes, columns_bytes};
ghost use Rattle.bundle_columns.specs.Making.{fields_in, FieldThere};
ghost use Rattle.bundle_columns.specs.Shown.{columns_into, Turns};

use crate::{COLUMNS_BYTES, DIRECTIONS, LENGTHS, OFFSETS, POSITIONS, TIMES};
use base_numbers::{number_at, put_number};
use base_rules::Refusal;
use bundle_check::accepted::Accepted;
use bundle_check::check;
use bundle_rows::MOST_ROWS;

// A field of row i: so many bytes at a place in its twelve; 0 where there is no such row. An enum of the widths 1, 2 and 4 would be turned
// back into its number for each place that is worked out.
fn field(bundle: Accepted, place: usize, width: usize, i: usize) -> u64
    requires { (place + width ≤ 12) × (width ≤ 4) }
    ensures { FieldThere bundle.entry.bytes.now bundle.entry.count place width i result }
{
    if i < bundle.count {
        return number_at(bundle.bytes, 2 + 12 * i + place, width);
    }
    0
}

// One list of 512 places: that field of each row, and 0 past the last.
fn put_list(bundle: Accepted, place: usize, width: usize, out: &mut [u8], at: usize)
    requires { (place + width ≤ 12) × (width ≤ 4) × (at + width * most_rows ≤ length out.old) }
    ensures { out.new ≡ laid out.old at (list_bytes width (fields_in place width bundle.entry.count bundle.entry.bytes.now)) }
{
    for i in 0..MOST_ROWS {
        let n = field(bundle, place, width, i);
        put_number(out, at + width * i, width, n);
    }
}

// The count, the positions and the directions.
fn put_bytes(bundle: Accepted, out: &mut [u8])
    requires { columns_size ≤ length out.old }
    ensures { out.new ≡ laid out.old 0 (bytes_of 8 bundle.entry.count
        ++ (list_bytes 1 (fields_in 0 1 bundle.entry.count bundle.entry.bytes.now)
        ++ list_bytes 1 (fields_in 1 1 bundle.entry.count bundle.entry.bytes.now))) }
{
    put_number(out, 0, 8, bundle.count as u64);
    put_list(bundle, 0, 1, out, POSITIONS);
    put_list(bundle, 1, 1, out, DIRECTIONS);
}

// The times, the offsets and the lengths.
fn put_words(bundle: Accepted, out: &mut [u8])
    requires { columns_size ≤ length out.old }
    ensures { out.new ≡ laid out.old 1032 (list_bytes 4 (fields_in 2 4 bundle.entry.count bundle.entry.bytes.now)
        ++ (list_bytes 4 (fields_in 6 4 bundle.entry.count bundle.entry.bytes.now)
        ++ list_bytes 2 (fields_in 10 2 bundle.entry.count bundle.entry.bytes.now))) }
{
    put_list(bundle, 2, 4, out, TIMES);
    put_list(bundle, 6, 4, out, OFFSETS);
    put_list(bundle, 10, 2, out, LENGTHS);
}

// The lists of a bundle that the check accepts, as their record in the first places. Where it is refused nothing is changed.
pub fn columns_of(bundle: &[u8], out: &mut [u8]) -> Result<usize, Refusal>
    ensures { Turns columns_bytes (columns_into bundle.now out.old) out.old result out.new }
{
    if out.len() < COLUMNS_BYTES {
        return Err(Refusal::TOO_FEW_PLACES);
    }
    let count = check(bundle)?;
    let accepted = Accepted {
        bytes: bundle,
        count,
    };
    put_bytes(accepted, out);
    put_words(accepted, out);
    Ok(count)
}
