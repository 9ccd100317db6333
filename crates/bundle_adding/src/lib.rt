// Adding a row to a run bundle of document 01, in the caller's own buffer.
#![tactic(auto)]

ghost use Rattle.std.specs.Prelude.{◌≡◌, ◌+◌, ◌≤◌, length, take};
ghost use Rattle.base_rules.specs.Answers.{reads};
ghost use Rattle.bundle_check.specs.Bundles.{most_bytes, contents_of, check_of};
ghost use Rattle.bundle_adding.specs.Adding.{new_record, last_time, buffer_after};
ghost use Rattle.bundle_adding.specs.Shown.{Adds};

use crate::bodies::move_bodies;
use crate::growing::grow_contents;
use base_characters::pairs::any_over;
use base_rules::Refusal;
use bundle_check::accepted::Accepted;
use bundle_check::{MOST_BYTES, check};
use bundle_rows::{MOST_ROWS, Row, wrong_field};

mod bodies;
mod growing;
pub mod inserting;
mod opening;
mod placing;

// What is said of a row that is to be put in, beside its body. `add` and `insert` take it field by field, as C hands it over.
#[derive(Clone, Copy)]
pub(crate) struct NewRow {
    pub(crate) position: u8,
    pub(crate) direction: u8,
    pub(crate) time: u32,
}

// The time of the last row, 0 where there is none.
fn last_time(bundle: Accepted) -> u32
    ensures { result ≡ last_time (contents_of bundle.entry.bytes.now) }
{
    if bundle.count == 0 {
        return 0;
    }
    bundle.row(bundle.count - 1).time
}

// The row and its body are put in where there is room for them. The bodies move first: the new row takes the place of the first one.
// The buffer is lent to be changed: a struct of buffer, filled and count would be taken apart before the first byte moves, and its fact with it.
fn insert(buffer: &mut [u8], filled: usize, count: usize, row: NewRow, body: &[u8])
    requires { (check_of (take filled buffer.old) ≡ reads count) × (filled + 12 + length body.now ≤ length buffer.old)
        × (filled + 12 + length body.now ≤ most_bytes) }
    ensures { buffer.new ≡ buffer_after (reads (filled + 12 + length body.now)) buffer.old filled
        (new_record row.position row.direction row.time body.now) }
{
    let offset = (filled + 12) as u32;
    let length = body.len() as u16;
    move_bodies(buffer, 2 + 12 * count, filled, body);
    grow_contents(
        buffer,
        count,
        Row {
            position: row.position,
            direction: row.direction,
            time: row.time,
            offset,
            length,
        },
    );
}

// The new row is tried, and put in where no refusal applies. The old bundle has been tried.
fn add_row(
    buffer: &mut [u8],
    filled: usize,
    count: usize,
    row: NewRow,
    body: &[u8],
) -> Result<usize, Refusal>
    requires { (filled ≤ length buffer.old) × (check_of (take filled buffer.old) ≡ reads count) }
    ensures { Adds buffer.old filled (new_record row.position row.direction row.time body.now) result buffer.new }
{
    let old = &buffer[..filled];
    let last = last_time(Accepted { bytes: old, count });
    let field = wrong_field(row.position, row.direction, body.len());
    let wrong = field | (row.time < last);
    if wrong {
        return Err(Refusal::BUNDLE_WRONG_ROW);
    }
    let wide = any_over(body);
    if wide {
        return Err(Refusal::BUNDLE_WRONG_CHARACTER);
    }
    let bytes = filled + 12 + body.len();
    let full = (MOST_ROWS <= count) | (buffer.len() < bytes) | (MOST_BYTES < bytes);
    if full {
        return Err(Refusal::BUNDLE_FULL);
    }
    insert(buffer, filled, count, row, body);
    Ok(bytes)
}

// Adds a row to the bundle that fills the first bytes of the buffer. Where it is refused, the buffer stays as it was.
pub fn add(
    buffer: &mut [u8],
    filled: usize,
    position: u8,
    direction: u8,
    time: u32,
    body: &[u8],
) -> Result<usize, Refusal>
    ensures { Adds buffer.old filled (new_record position direction time body.now) result buffer.new }
{
    if buffer.len() < filled {
        return Err(Refusal::BUNDLE_TOO_LONG);
    }
    let count = check(&buffer[..filled])?;
    let row = NewRow {
        position,
        direction,
        time,
    };
    add_row(buffer, filled, count, row, body)
}
