// The contents of a run bundle kept in columns (2026-10 of document 02): a count and five lists of 512 places, as the bytes of their record.
#![tactic(auto)]

ghost use Rattle.std.specs.Prelude.{◌≡◌, ◌<◌, length};
ghost use Rattle.base_rules.specs.Shown.{shown};
ghost use Rattle.bundle_rows.specs.Rows.{most_rows};
ghost use Rattle.bundle_columns.specs.Columns.{kept_row};
ghost use Rattle.bundle_columns.specs.Record.{columns_size, columns_in, columns_from};
ghost use Rattle.bundle_columns.specs.Lookups.{row_kept, body_kept, next_kept};
ghost use Rattle.bundle_columns.specs.Shown.{count_kept};

use crate::scanning::next_place;
use base_numbers::number_at;
use base_rules::Refusal;
use bundle_check::rows::{BodyPlace, place_of};
use bundle_rows::{MOST_ROWS, Row};

pub mod making;
mod scanning;
pub mod writing;

// The bytes of the record, and where in it each list begins.
pub const COLUMNS_BYTES: usize = 6_152;

pub(crate) const POSITIONS: usize = 8;

pub(crate) const DIRECTIONS: usize = 520;

pub(crate) const TIMES: usize = 1_032;

pub(crate) const OFFSETS: usize = 3_080;

pub(crate) const LENGTHS: usize = 5_128;

// The number of rows in the lists, or refused by 101.
pub fn count_in(columns: &[u8]) -> Result<usize, Refusal>
    ensures { result ≡ shown (count_kept (columns_from columns.now)) }
{
    let count = number_at(columns, 0, 8);
    if (columns.len() != COLUMNS_BYTES) | ((MOST_ROWS as u64) < count) {
        return Err(Refusal::NO_RECORD);
    }
    Ok(count as usize)
}

// The row at a place of the lists.
pub(crate) fn kept_row(columns: &[u8], i: usize) -> Row
    requires { (length columns.now ≡ columns_size) × (i < most_rows) }
    ensures { result ≡ kept_row (columns_in columns.now) i }
{
    let time = number_at(columns, TIMES + 4 * i, 4);
    let offset = number_at(columns, OFFSETS + 4 * i, 4);
    let length = number_at(columns, LENGTHS + 2 * i, 2);
    Row {
        position: columns[POSITIONS + i],
        direction: columns[DIRECTIONS + i],
        time: time as u32,
        offset: offset as u32,
        length: length as u16,
    }
}

// The fields of row i, counted from 0. It is not one with `bundle_check::rows::row`: a trait for what counts and reads the rows would be longer
// than these six lines.
pub fn row(columns: &[u8], i: usize) -> Result<Row, Refusal>
    ensures { result ≡ shown (row_kept columns.now i) }
{
    let count = count_in(columns)?;
    if count <= i {
        return Err(Refusal::BUNDLE_NO_SUCH_ROW);
    }
    Ok(kept_row(columns, i))
}

// Where the body of row i lies in the bundle.
pub fn body_at(columns: &[u8], i: usize) -> Result<BodyPlace, Refusal>
    ensures { result ≡ shown (body_kept columns.now i) }
{
    row(columns, i).map(place_of)
}

// The next row of a position from a given row on: only the positions are looked at.
pub fn next(columns: &[u8], position: u8, from: usize) -> Result<usize, Refusal>
    ensures { result ≡ shown (next_kept columns.now position from) }
{
    let count = count_in(columns)?;
    next_place(&columns[POSITIONS..POSITIONS + count], position, from)
}
