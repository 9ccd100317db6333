// What a walk along the rows of a position is open for, and how each row changes that.
ghost use Rattle.std.specs.Prelude.{◌≡◌, ◌+◌, ◌≤◌, length};
ghost use Rattle.base_characters.specs.Characters.{chars};
ghost use Rattle.mbus_rules.specs.Lines.{read_line};
ghost use Rattle.mbus_rules.specs.Outlines.{outlined};
ghost use Rattle.bundle_rows.specs.Rows.{unchecked_row};
ghost use Rattle.run_counting.specs.Ears.{ear_opened, opened_after, fits_in_time, heard_by, row_with, row_in, passed_by};

use bench_clock::{Clock, is_wake};
use bundle_rows::{Row, unchecked_row};
use exchange_replies::fits;
use mbus_reading::pairs::outline_of;
use mbus_rules::{Outline, Request};

// The answer to an accepted read: of which address, and the end of the read's send, from which on it may begin.
#[derive(Clone, Copy)]
pub(crate) struct Open {
    pub(crate) address: u8,
    pub(crate) end: u64,
}

// What is open after a row, and whether the row counts. Where nothing is open nothing counts before the next accepted read; else the first row
// heard that begins at or after the end decides. (Two facts: where nothing is open behind a row it may count or not, and the walk asks for each alone.)
#[derive(Clone, Copy)]
pub(crate) struct Turn {
    pub(crate) ear: Option<Open>,
    pub(crate) counts: bool,
}

// What is open, put together anew: copied as a whole it takes the bytes between its fields along, which is dearer at run time.
fn held(ear: Option<Open>) -> Option<Open>
    ensures { result ≡ ear }
{
    match ear {
        Some(due) => Some(Open {
            address: due.address,
            end: due.end,
        }),
        None => None,
    }
}

// After a sent row: open for the answer to an accepted read.
fn opened(outline: Outline, end: u64) -> Option<Open>
    ensures { result ≡ ear_opened outline end }
{
    match outline {
        Outline::Asks(Request::Read(address)) => Some(Open { address, end }),
        _ => None,
    }
}

// The same from the line that was sent and the start of its first character. (A length of two bytes: a type of such slices would be made of each body just
// to be taken apart again, here and in run_repeats and run_verdicts.)
fn opened_after(time: u32, body: &[u8]) -> Option<Open>
    requires { length body.now ≤ 65535 }
    ensures { result ≡ opened_after time body.now }
{
    let end = time as u64 + Clock::CHARACTER * (body.len() / 2) as u64;
    opened(outline_of(body), end)
}

// Whether a line that begins at or after the end of the send is in time, and data that fits the read.
fn fits_in_time(due: Open, time: u32, body: &[u8]) -> bool
    ensures { result ≡ fits_in_time due time (outlined (read_line (chars body.now))) }
{
    let late = Clock(due.end).late(Clock(time as u64));
    !late && fits(Request::Read(due.address), outline_of(body))
}

// After a row heard: one that begins before the end is passed over, and the first other one decides.
fn heard_by(ear: Option<Open>, time: u32, body: &[u8]) -> Turn
    ensures { result ≡ heard_by ear time (outlined (read_line (chars body.now))) }
{
    match ear {
        None => Turn { ear, counts: false },
        Some(due) => {
            if (time as u64) < due.end {
                return Turn { ear, counts: false };
            }
            Turn {
                ear: None,
                counts: fits_in_time(due, time, body),
            }
        }
    }
}

// After any row with its body: a row of another position and a wake-up are passed over.
fn passed_by(position: u8, ear: Option<Open>, row: Row, body: &[u8]) -> Turn
    requires { length body.now ≤ 65535 }
    ensures { result ≡ passed_by position ear (row_with row body.now) }
{
    if row.position != position {
        return Turn { ear, counts: false };
    }
    if is_wake(body) {
        return Turn { ear, counts: false };
    }
    if row.direction == 0 {
        return Turn {
            ear: opened_after(row.time, body),
            counts: false,
        };
    }
    heard_by(ear, row.time, body)
}

// After row i of a bundle, whose body lies in it. (It is asked for here, and no method of `Accepted`: no public function may ask for a row that is there.)
pub(crate) fn turn_at(position: u8, ear: Option<Open>, bundle: &[u8], i: usize) -> Turn
    requires { (unchecked_row bundle.now i).offset + (unchecked_row bundle.now i).length ≤ length bundle.now }
    ensures { result ≡ passed_by position ear (row_in bundle.now i) }
{
    let row = unchecked_row(bundle, i);
    let at = row.offset as usize;
    let end = at + row.length as usize;
    passed_by(position, held(ear), row, &bundle[at..end])
}
