// Rows of a run bundle that repeat a reading: for each row the lowest earlier one with the same meter number and the same entries.
#![tactic(auto)]

ghost use Rattle.std.specs.Prelude.{◌≡◌, ◌≤◌, ◌<◌, length, get_or, replicate, take};
ghost use Rattle.base_rules.specs.Answers.{reads};
ghost use Rattle.base_lent.specs.Lent.{stored};
ghost use Rattle.bundle_rows.specs.Rows.{most_rows};
ghost use Rattle.bundle_check.specs.Records.{records_of};
ghost use Rattle.run_counting.specs.Ears.{row_in};
ghost use Rattle.run_repeats.specs.Repeats.{same_reading, first_same, earlier_rows, TellsEarlier};
ghost use Rattle.run_repeats.specs.Marks.{Marked};

use base_rules::Refusal;
use bundle_check::accepted::Accepted;
use bundle_check::check;
use bundle_rows::MOST_ROWS;
use reading::{mark_at, same_at};

mod reading;

// Gives each row its mark, so that its line is read once.
fn mark_rows(bundle: Accepted, marks: &mut [u32; MOST_ROWS])
    requires { marks.old ≡ replicate most_rows 0 }
    ensures { Marked bundle.entry.bytes.now bundle.entry.count marks.new }
{
    // (By `marks.iter_mut().enumerate()` the number, by which a row is asked for, would come along in a pair with its place.)
    for i in 0..bundle.count {
        marks[i] = mark_at(bundle.bytes, i);
    }
}

// The rows of an accepted bundle, each with its mark. (That i is below the count is asked for of each index, as a slice asks it.)
#[derive(Clone, Copy)]
struct MarkedRows<'a> {
    bundle: &'a [u8],
    count: usize,
    marks: &'a [u32; MOST_ROWS],
    ghost marked: { Marked bundle.now count marks.now },
}

impl MarkedRows<'_> {
    // Row j gives the same reading as row i, which gives one. Rows with other marks are not held against each other.
    fn is_same_reading(&self, j: usize, i: usize) -> bool
        requires { (j < self.now.count) × (i < self.now.count) × (get_or self.now.marks.now i 0 ≡ 0 → ⊥) }
        ensures { result ≡ same_reading (row_in self.now.bundle.now j) (row_in self.now.bundle.now i) }
    {
        self.marks[j] == self.marks[i] && same_at(self.bundle, j, i)
    }

    // 1 + the number of the lowest row before row i that gives the same reading, or 0.
    fn earlier_of(&self, i: usize) -> u16
        requires { i < self.now.count }
        ensures { result ≡ first_same 0 (take i (records_of self.now.bundle.now)) (row_in self.now.bundle.now i) }
    {
        if self.marks[i] == 0 {
            return 0;
        }
        for j in 0..i {
            if self.is_same_reading(j, i) {
                return j as u16 + 1;
            }
        }
        0
    }

    // Writes the number for each row into its place.
    fn put_earlier(&self, rows: &mut [u16])
        requires { self.now.count ≤ length rows.old }
        ensures { rows.new ≡ stored (λ numbers. numbers) rows.old (reads (earlier_rows (records_of self.now.bundle.now))) }
    {
        // (As in `mark_rows`, by the number of the row.)
        for i in 0..self.count {
            rows[i] = self.earlier_of(i);
        }
    }
}

// For each row of a bundle the lowest earlier row that gives the same reading, and how many rows there are.
pub fn earlier_rows(bundle: &[u8], rows: &mut [u16]) -> Result<usize, Refusal>
    ensures { TellsEarlier bundle.now rows.old result rows.new }
{
    let count = check(bundle)?;
    if rows.len() < count {
        return Err(Refusal::TOO_FEW_PLACES);
    }
    let mut marks = [0u32; MOST_ROWS];
    let accepted = Accepted {
        bytes: bundle,
        count,
    };
    mark_rows(accepted, &mut marks);
    let marked = MarkedRows {
        bundle,
        count,
        marks: &marks,
    };
    marked.put_earlier(rows);
    Ok(count)
}
