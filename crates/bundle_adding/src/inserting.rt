// Inserting a row at its place in time.
ghost use Rattle.std.specs.Prelude.{◌≡◌, ◌+◌, ◌≤◌, ◌<◌, length, take};
ghost use Rattle.base_lent.specs.Copying.{laid};
ghost use Rattle.base_rules.specs.Answers.{reads};
ghost use Rattle.bundle_rows.specs.Rows.{most_rows};
ghost use Rattle.bundle_check.specs.Bundles.{most_bytes, check_of};
ghost use Rattle.bundle_check.specs.Records.{records_of, bundle_of};
ghost use Rattle.bundle_adding.specs.Adding.{new_record};
ghost use Rattle.bundle_adding.specs.Inserting.{put_at};
ghost use Rattle.bundle_adding.specs.Shown.{Inserts};

use crate::NewRow;
use crate::opening::{open_bodies, open_contents};
use crate::placing::{bodies_end, place_behind};
use base_characters::pairs::any_over;
use base_rules::Refusal;
use bundle_check::accepted::Accepted;
use bundle_check::{MOST_BYTES, check};
use bundle_rows::{MOST_ROWS, Row, wrong_field};

// The row and its body are put in at a place where there is room for them. The bodies move first: a row more takes the place of the
// first one.
fn put_in(buffer: &mut [u8], filled: usize, count: usize, place: usize, row: NewRow, body: &[u8])
    requires { (check_of (take filled buffer.old) ≡ reads count) × (count < most_rows) × (place ≤ count)
        × (filled + 12 + length body.now ≤ length buffer.old) × (filled + 12 + length body.now ≤ most_bytes) }
    ensures { buffer.new ≡ laid buffer.old 0
        (bundle_of (put_at place (new_record row.position row.direction row.time body.now) (records_of (take filled buffer.old)))) }
{
    let length = body.len() as u16;
    let old = &buffer[..filled];
    let at = bodies_end(Accepted { bytes: old, count }, place);
    open_bodies(buffer, 2 + 12 * count, at, filled, body);
    open_contents(
        buffer,
        count,
        place,
        Row {
            position: row.position,
            direction: row.direction,
            time: row.time,
            offset: 0,
            length,
        },
    );
}

// The new row is tried, and put in where no refusal applies. The old bundle has been tried.
fn insert_row(
    buffer: &mut [u8],
    filled: usize,
    count: usize,
    row: NewRow,
    body: &[u8],
) -> Result<usize, Refusal>
    requires { (filled ≤ length buffer.old) × (check_of (take filled buffer.old) ≡ reads count) }
    ensures { Inserts buffer.old filled (new_record row.position row.direction row.time body.now) result buffer.new }
{
    let wrong = wrong_field(row.position, row.direction, body.len());
    if wrong {
        return Err(Refusal::BUNDLE_WRONG_ROW);
    }
    let wide = any_over(body);
    if wide {
        return Err(Refusal::BUNDLE_WRONG_CHARACTER);
    }
    let bytes = filled + 12 + body.len();
    let full = (MOST_ROWS <= count) | (buffer.len() < bytes) | (MOST_BYTES < bytes);
    if full {
        return Err(Refusal::BUNDLE_FULL);
    }
    let old = &buffer[..filled];
    let place = place_behind(Accepted { bytes: old, count }, row.time);
    put_in(buffer, filled, count, place, row, body);
    Ok(bytes)
}

// Inserts a row behind the last one whose time is not above its own. Where it is refused, the buffer stays as it was. It is not one with
// `add`, which C knows by another name: with its tests in functions of both, adding took an eighth more instructions.
pub fn insert(
    buffer: &mut [u8],
    filled: usize,
    position: u8,
    direction: u8,
    time: u32,
    body: &[u8],
) -> Result<usize, Refusal>
    ensures { Inserts buffer.old filled (new_record position direction time body.now) result buffer.new }
{
    if buffer.len() < filled {
        return Err(Refusal::BUNDLE_TOO_LONG);
    }
    let count = check(&buffer[..filled])?;
    let row = NewRow {
        position,
        direction,
        time,
    };
    insert_row(buffer, filled, count, row, body)
}
