// Whether a row gives a reading, and whether two rows give the same.
ghost use Rattle.std.specs.Prelude.{◌≡◌, ◌+◌, ◌*◌, ◌≤◌, length};
ghost use Rattle.base_rules.specs.Lists.{total};
ghost use Rattle.bundle_rows.specs.Rows.{unchecked_row};
ghost use Rattle.run_counting.specs.Ears.{row_with, row_in};
ghost use Rattle.run_repeats.specs.Repeats.{tells_data, gives_reading, same_parts};
ghost use Rattle.run_repeats.specs.Marks.{row_mark, DataAt};

use base_lent::is_same;
use bundle_rows::{Row, unchecked_row};
use mbus_reading::pairs::outline_of;
use mbus_rules::Outline;

// The line reads as data.
fn tells_data(outline: Outline) -> bool
    ensures { result ≡ tells_data outline }
{
    matches!(outline, Outline::Data(_))
}

// A row with its body gives a reading: it was heard, and is data.
fn gives_reading(row: Row, body: &[u8]) -> bool
    ensures { result ≡ gives_reading (row_with row body.now) }
{
    row.direction != 0 && tells_data(outline_of(body))
}

// The sum of some bytes.
fn sum_of(bytes: &[u8]) -> u32
    requires { length bytes.now ≤ 65535 }
    ensures { (result ≡ total bytes.now) × (result ≤ 255 * 65535) }
{
    bytes.iter().map(|byte| u32::from(*byte)).sum()
}

// A row's mark, by which most rows that give another reading differ at once.
fn mark_of(row: Row, body: &[u8]) -> u32
    requires { length body.now ≤ 65535 }
    ensures { result ≡ row_mark (row_with row body.now) }
{
    if !gives_reading(row, body) {
        return 0;
    }
    1 + sum_of(&body[38..body.len() - 4])
}

// The same of row i of a bundle, whose body lies in it. (It is asked for here, and no method of `Accepted`: no public function may ask for a row that is
// there.)
pub(crate) fn mark_at(bundle: &[u8], i: usize) -> u32
    requires { (unchecked_row bundle.now i).offset + (unchecked_row bundle.now i).length ≤ length bundle.now }
    ensures { result ≡ row_mark (row_in bundle.now i) }
{
    let row = unchecked_row(bundle, i);
    let at = row.offset as usize;
    let end = at + row.length as usize;
    mark_of(row, &bundle[at..end])
}

// Two lines of data have the same meter number and the same entries.
fn same_parts(s: &[u8], t: &[u8]) -> bool
    requires { (42 ≤ length s.now) × (42 ≤ length t.now) }
    ensures { result ≡ same_parts s.now t.now }
{
    is_same(&s[14..22], &t[14..22]) && is_same(&s[38..s.len() - 4], &t[38..t.len() - 4])
}

// The same of rows i and j of a bundle, whose bodies lie in it and are lines of data.
pub(crate) fn same_at(bundle: &[u8], i: usize, j: usize) -> bool
    requires { DataAt bundle.now i × DataAt bundle.now j }
    ensures { result ≡ same_parts (row_in bundle.now i).body (row_in bundle.now j).body }
{
    let first = unchecked_row(bundle, i);
    let first_at = first.offset as usize;
    let first_end = first_at + first.length as usize;
    let second = unchecked_row(bundle, j);
    let second_at = second.offset as usize;
    let second_end = second_at + second.length as usize;
    same_parts(&bundle[first_at..first_end], &bundle[second_at..second_end])
}
