// The lines of a listing.
ghost use Rattle.std.specs.Prelude.{◌≡◌, ◌++◌, ◌+◌, ◌*◌, ◌≤◌, length, take};
ghost use Rattle.base_characters.specs.Characters.{chars};
ghost use Rattle.bundle_check.specs.Bundles.{contents_of};
ghost use Rattle.bundle_rows.specs.Rows.{unchecked_row, body_in};
ghost use Rattle.text_filling.specs.Texts.{text};
ghost use Rattle.run_listing.specs.Listings.{refused_text, word_for, word_of, direction_text, row_text, line_for, lines_for};
ghost use Rattle.run_listing.specs.Writing.{line_text, Holds};

use crate::line_column::{Column, column_of};
use crate::texts::{Line, begin, blank, with, with_number};
use base_lent::lay;
use bundle_check::accepted::Accepted;
use bundle_rows::unchecked_row;
use mbus_rules::{Outline, Request};

// The word refused and the number.
pub(crate) fn refused(n: u16) -> Line
    ensures { Holds 18 result (refused_text n) }
{
    let word = begin(b"refused ");
    with_number(word, n as u32)
}

// The word for what reading answers.
fn word_for(outline: Outline) -> Line
    ensures { Holds 18 result (word_for outline) }
{
    match outline {
        Outline::Refused(n) => refused(n),
        Outline::Ack => begin(b"ack"),
        Outline::Asks(request) => match request {
            Request::Read(_) => begin(b"read"),
            Request::Enter(_, _) => begin(b"enter"),
            Request::Leave(_) => begin(b"leave"),
        },
        Outline::Data(_) => begin(b"data"),
    }
}

// The word for a body.
pub(crate) fn word_of(body: &[u8]) -> Line
    ensures { Holds 18 result (word_of (chars body.now)) }
{
    match column_of(body) {
        Column::Wake => begin(b"wake"),
        Column::Reads(outline) => word_for(outline),
    }
}

// Sent or heard, between commas.
fn with_direction(line: Line, direction: u8) -> Line
    requires { line.size ≤ 10 }
    ensures { Holds 17 result (line_text line ++ (text "," ++ (direction_text direction ++ text ","))) }
{
    if direction == 0 {
        return with(line, b",sent,");
    }
    with(line, b",heard,")
}

// A line of the listing: position, direction, time and word.
fn line_of(position: u8, direction: u8, time: u32, word: Line) -> Line
    requires { (word.size ≤ 18) × (length word.bytes ≡ 48) }
    ensures { Holds 48 result (row_text position direction time (line_text word)) }
{
    let first = with_number(blank(), position as u32);
    let second = with_direction(first, direction);
    let third = with_number(second, time);
    let fourth = with(third, b",");
    let size = word.size;
    let bytes = word.bytes;
    let fifth = with(fourth, &bytes[..size]);
    with(fifth, b"\n")
}

// The line of row i, whose body lies in the bundle. (It is asked for here, and no method of `Accepted`: no public function may ask for a row that is there.)
fn row_line(bundle: &[u8], i: usize) -> Line
    requires { (unchecked_row bundle.now i).offset + (unchecked_row bundle.now i).length ≤ length bundle.now }
    ensures { Holds 48 result (line_for bundle.now (unchecked_row bundle.now i)) }
{
    let row = unchecked_row(bundle, i);
    let at = row.offset as usize;
    let end = at + row.length as usize;
    let word = word_of(&bundle[at..end]);
    line_of(row.position, row.direction, row.time, word)
}

// The lines of all rows stand in the places from one on; the answer is the place behind them. (A struct of both would be made and taken apart for this
// one call.)
pub(crate) fn put_rows(out: &mut [u8], at: usize, bundle: Accepted) -> usize
    requires { at + 48 * bundle.count ≤ length out.old }
    ensures { (result ≤ length out.new) × (result ≡ at + length (lines_for bundle.entry.bytes.now (contents_of bundle.entry.bytes.now)))
        × (take result out.new ≡ take at out.old ++ lines_for bundle.entry.bytes.now (contents_of bundle.entry.bytes.now)) }
{
    let mut next = at;
    for i in 0..bundle.count {
        let line = row_line(bundle.bytes, i);
        let size = line.size;
        let bytes = line.bytes;
        lay(out, next, &bytes[..size]);
        next = next + size;
    }
    next
}
