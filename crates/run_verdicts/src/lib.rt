// The verdict of each row of a run bundle: what became of what was sent and heard, by the exchange of its position.
#![tactic(auto)]

ghost use Rattle.std.specs.Prelude.{◌≡◌};
ghost use Rattle.base_rules.specs.Answers.{within};
ghost use Rattle.base_rules.specs.Shown.{shown};
ghost use Rattle.run_verdicts.specs.Answering.{verdicts_in};
ghost use Rattle.run_verdicts.specs.Shown.{listed};

use base_rules::Refusal;
use bundle_check::check;
use bundle_rows::MOST_ROWS;
use walking::{InBundle, walk};

mod judging;
pub mod kept;
mod walking;

// What became of a row. A row sent is a wake-up, the first send of an exchange, a resend, or refused by a number; a row heard is a wake-up, or it counts, is
// left over from before, late, behind the one that decided, damaged by a number, of the wrong kind, or was not asked for. (Eleven cases, of which two hold a
// number: as a Result, nine of them would stand in an enum of their own on its one side, and two on its other.)
#[derive(Clone, Copy)]
pub enum Verdict {
    Wake,
    First,
    Resend,
    Refused(u16),
    Counts,
    LeftOver,
    Late,
    Second,
    Damaged(u16),
    WrongKind,
    Unasked,
}

// The verdicts of all rows, in the first places, and how many there are. Every other place has `Unasked`. Without a heap there are as many places as a
// bundle may have rows.
#[derive(Clone, Copy)]
pub struct Verdicts {
    pub count: usize,
    pub verdicts: [Verdict; MOST_ROWS],
}

// The verdicts of the rows of a bundle.
pub fn verdicts_in(bundle: &[u8]) -> Result<Verdicts, Refusal>
    ensures { result ≡ shown (within listed (verdicts_in bundle.now)) }
{
    let count = check(bundle)?;
    let verdicts = walk(&InBundle(bundle), bundle, count);
    Ok(Verdicts { count, verdicts })
}
