// Which answers of a position count, by document 02's request 2026-04: a walk along the rows of a run bundle.
#![tactic(auto)]

ghost use Rattle.std.specs.Prelude.{◌≡◌, replicate};
ghost use Rattle.base_rules.specs.Answers.{within};
ghost use Rattle.base_rules.specs.Shown.{shown};
ghost use Rattle.bundle_rows.specs.Rows.{most_rows};
ghost use Rattle.run_counting.specs.Counting.{counting_of};
ghost use Rattle.run_counting.specs.Shown.{numbered, Numbers};

use base_rules::Refusal;
use bundle_check::accepted::Accepted;
use bundle_check::check;
use bundle_rows::{MOST_ROWS, wrong_position};
use ear::turn_at;

mod ear;

// The numbers of the rows that count, in the first places, and how many there are. Without a heap they have as many places as a bundle may have rows.
#[derive(Clone, Copy)]
pub struct Counted {
    pub count: usize,
    pub rows: [u16; MOST_ROWS],
}

// Writes the numbers of the rows that count into the first places, and answers how many there are.
fn put_numbers(bundle: Accepted, position: u8, rows: &mut [u16; MOST_ROWS]) -> usize
    requires { rows.old ≡ replicate most_rows 0 }
    ensures { Numbers bundle.entry.bytes.now position result rows.new }
{
    let mut ear = None;
    let mut found: usize = 0;
    for i in 0..bundle.count {
        let turn = turn_at(position, ear, bundle.bytes, i);
        if turn.counts {
            rows[found] = i as u16;
            found += 1;
        }
        ear = turn.ear;
    }
    found
}

// The rows of a bundle that count for a position; or refused by 30 to 37.
pub fn counting(bundle: &[u8], position: u8) -> Result<Counted, Refusal>
    ensures { result ≡ shown (within numbered (counting_of bundle.now position)) }
{
    let count = check(bundle)?;
    if wrong_position(position) {
        return Err(Refusal::BUNDLE_WRONG_ROW);
    }
    let mut rows = [0u16; MOST_ROWS];
    let bundle = Accepted {
        bytes: bundle,
        count,
    };
    let count = put_numbers(bundle, position, &mut rows);
    Ok(Counted { count, rows })
}
