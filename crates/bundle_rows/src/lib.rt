// The contents rows of a run bundle of document 01, each read where it stands, and the ranges of their fields.
#![tactic(auto)]

ghost use Rattle.std.specs.Prelude.{◌≡◌, ◌+◌, ◌≤◌, length, take, drop};
ghost use Rattle.base_characters.specs.Characters.{chars};
ghost use Rattle.bundle_rows.specs.Fields.{wrong_position, wrong_field};
ghost use Rattle.bundle_rows.specs.Rows.{row_of, blank_row, unchecked_row, bytes_of_row, body_in, unchecked_characters, Puts};

use base_characters::pairs::character_at;
use base_numbers::{bytes_of, number_at};

// The most rows of a bundle.
pub const MOST_ROWS: usize = 512;

// The five fields of a contents row.
#[derive(Clone, Copy)]
pub struct Row {
    pub position: u8,
    pub direction: u8,
    pub time: u32,
    pub offset: u32,
    pub length: u16,
}

// A position is outside 1 to 48.
pub fn wrong_position(position: u8) -> bool
    ensures { result ≡ wrong_position position }
{
    (position < 1) | (48 < position)
}

// A position, direction or length is out of its range.
pub fn wrong_field(position: u8, direction: u8, length: usize) -> bool
    ensures { result ≡ wrong_field position direction length }
{
    let outside = wrong_position(position);
    outside | (1 < direction) | (length % 2 == 1) | (length < 2) | (1004 < length)
}

// The row whose twelve bytes begin at a place.
fn row_of(s: &[u8], at: usize) -> Row
    requires { at + 12 ≤ length s.now }
    ensures { result ≡ row_of (drop at s.now) }
{
    let time = number_at(s, at + 2, 4);
    let offset = number_at(s, at + 6, 4);
    let length = number_at(s, at + 10, 2);
    Row {
        position: s[at],
        direction: s[at + 1],
        time: time as u32,
        offset: offset as u32,
        length: length as u16,
    }
}

// A row with nothing in it.
fn blank_row() -> Row
    ensures { result ≡ blank_row }
{
    Row {
        position: 0,
        direction: 0,
        time: 0,
        offset: 0,
        length: 0,
    }
}

// The fields of row i without the check, for a caller that has made it; blank where their bytes are not all there.
pub fn unchecked_row(bundle: &[u8], i: usize) -> Row
    ensures { result ≡ unchecked_row bundle.now i }
{
    let past = MOST_ROWS <= i;
    if past {
        return blank_row();
    }
    let cut = bundle.len() < 2 + 12 * (i + 1);
    if cut {
        return blank_row();
    }
    row_of(bundle, 2 + 12 * i)
}

// The bytes of row i's body, as far as the bundle has them.
fn unchecked_body<'a>(bundle: &'a [u8], i: usize) -> &'a [u8]
    ensures { result.now ≡ body_in bundle.now (unchecked_row bundle.now i) }
{
    let row = unchecked_row(bundle, i);
    let at = row.offset as usize;
    let size = row.length as usize;
    if bundle.len() < at {
        return &bundle[..0];
    }
    if bundle.len() - at < size {
        return &bundle[at..];
    }
    let end = at + size;
    &bundle[at..end]
}

// Writes the characters of bytes into the first places, as many as there are of both, and answers how many. The loop counts characters, of
// two bytes each.
fn put_characters(bytes: &[u8], line: &mut [u16]) -> usize
    ensures { Puts (take (length line.old) (chars bytes.now)) line.old result line.new }
{
    let count = line.len().min(bytes.len() / 2);
    for i in 0..count {
        line[i] = character_at(bytes, i);
    }
    count
}

// Writes the characters of row i's body into the first places without the check, for a caller that has made it, and answers how many;
// none where the row's bytes are not all there.
pub fn unchecked_characters(bundle: &[u8], i: usize, line: &mut [u16]) -> usize
    ensures { Puts (unchecked_characters bundle.now i (length line.old)) line.old result line.new }
{
    let body = unchecked_body(bundle, i);
    put_characters(body, line)
}

// The twelve bytes of a row.
pub fn row_bytes(row: Row) -> [u8; 12]
    ensures { result ≡ bytes_of_row row }
{
    let time = bytes_of(row.time as u64);
    let offset = bytes_of(row.offset as u64);
    let length = bytes_of(row.length as u64);
    [
        row.position,
        row.direction,
        time[0],
        time[1],
        time[2],
        time[3],
        offset[0],
        offset[1],
        offset[2],
        offset[3],
        length[0],
        length[1],
    ]
}
