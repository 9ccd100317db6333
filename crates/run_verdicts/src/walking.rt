// The walk along rows, which stand in a bundle or in columns, with an exchange for each position.
ghost use Rattle.std.specs.Prelude.{◌≡◌, ℕ, ◌+◌, ◌≤◌, length};
ghost use Rattle.bundle_rows.specs.declared.Row.{Row};
ghost use Rattle.bundle_rows.specs.Rows.{unchecked_row, body_in};
ghost use Rattle.run_counting.specs.Ears.{row_with};
ghost use Rattle.run_verdicts.specs.Judging.{judged_of};
ghost use Rattle.run_verdicts.specs.Shown.{in_places};
ghost use Rattle.run_verdicts.specs.Verdicts.{verdicts_of};
ghost use Rattle.run_verdicts.specs.Walking.{column_row, records_from, Walkable};

use crate::Verdict;
use crate::judging::{Judged, judge};
use bundle_columns::row;
use bundle_rows::{MOST_ROWS, Row, unchecked_row};
use exchange_steps::Slot;

// What has rows.
pub(crate) trait Rows {
    ghost row_at: { Self → ℕ → Row };

    // Row i, counted from 0.
    fn row(&self, i: usize) -> Row
        ensures { result ≡ row_at self.now i };
}

// A bundle.
#[derive(Clone, Copy)]
pub(crate) struct InBundle<'a>(pub(crate) &'a [u8]);

impl Rows for InBundle<'_> {
    ghost row_at = { λ s i. unchecked_row s.0.now i };

    fn row(&self, i: usize) -> Row {
        unchecked_row(self.0, i)
    }
}

// Columns.
#[derive(Clone, Copy)]
pub(crate) struct InColumns<'a>(pub(crate) &'a [u8]);

impl Rows for InColumns<'_> {
    ghost row_at = { λ s i. column_row s.0.now i };

    // Blank where there is none.
    fn row(&self, i: usize) -> Row {
        match row(self.0, i) {
            Ok(fields) => fields,
            Err(_) => unchecked_row(self.0, MOST_ROWS),
        }
    }
}

// A row whose body lies in the bundle.
fn judge_in(slot: Slot, row: Row, bundle: &[u8]) -> Judged
    requires { row.offset + row.length ≤ length bundle.now }
    ensures { result ≡ judged_of slot (row_with row (body_in bundle.now row)) }
{
    let at = row.offset as usize;
    let end = at + row.length as usize;
    judge(slot, row, &bundle[at..end])
}

// The verdicts of so many rows, each by the exchange of its position, and `Unasked` in the places behind them. (Not inlined: where each instance has one
// caller its arrays would stand twice on the stack.)
#[inline(never)]
pub(crate) fn walk<R: Rows>(rows: &R, bundle: &[u8], count: usize) -> [Verdict; MOST_ROWS]
    requires { Walkable (R.row_at rows.now) bundle.now count }
    ensures { result ≡ in_places (verdicts_of (records_from (R.row_at rows.now) bundle.now count)) }
{
    let mut slots = [Slot::Idle; 49];
    let mut verdicts = [Verdict::Unasked; MOST_ROWS];
    // (By `verdicts.iter_mut().enumerate()` the number, by which a row is asked for, would come along in a pair with its place.)
    for i in 0..count {
        let row = rows.row(i);
        let position = row.position as usize;
        let slot = slots[position];
        let judged = judge_in(slot, row, bundle);
        verdicts[i] = judged.verdict;
        slots[position] = judged.slot;
    }
    verdicts
}
