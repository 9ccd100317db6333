// The run bundle of document 01, on lent bytes: checking it, and what it holds.
#![tactic(auto)]

ghost use Rattle.std.specs.Prelude.{◌≡◌, ◌≤◌, length};
ghost use Rattle.bundle_rows.specs.Rows.{most_rows, first_offset};
ghost use Rattle.base_rules.specs.Answers.{reads};
ghost use Rattle.base_rules.specs.Shown.{shown};
ghost use Rattle.bundle_check.specs.Bundles.{count_of, opened, check_rows, check_of};

use crate::walk::walk_rows;
use base_characters::pairs::any_over;
use base_numbers::number_at;
use base_rules::Refusal;
use bundle_rows::MOST_ROWS;

pub mod accepted;
pub mod rows;
mod walk;

// The most bytes of a bundle.
pub const MOST_BYTES: usize = 65_536;

// The number of rows, or the lowest of 34 to 37 that applies to them and their bodies. It takes no Accepted, which it is to find out.
fn check_rows(bundle: &[u8], count: usize) -> Result<usize, Refusal>
    requires { (count ≤ most_rows) × (first_offset count ≤ length bundle.now) }
    ensures { result ≡ shown (check_rows count bundle.now) }
{
    let walk = walk_rows(bundle, count);
    if walk.field {
        return Err(Refusal::BUNDLE_WRONG_ROW);
    }
    if walk.place {
        return Err(Refusal::BUNDLE_WRONG_OFFSET);
    }
    if walk.end < bundle.len() {
        return Err(Refusal::BUNDLE_BYTES_LEFT);
    }
    if any_over(&bundle[2 + 12 * count..]) {
        return Err(Refusal::BUNDLE_WRONG_CHARACTER);
    }
    Ok(count)
}

// The number of rows that the contents have, or 30 to 33 where they are not whole.
pub fn opened(bundle: &[u8]) -> Result<usize, Refusal>
    ensures { result ≡ shown (opened bundle.now (reads (count_of bundle.now))) }
{
    if MOST_BYTES < bundle.len() {
        return Err(Refusal::BUNDLE_TOO_LONG);
    }
    if bundle.len() < 2 {
        return Err(Refusal::BUNDLE_TOO_SHORT);
    }
    let count = number_at(bundle, 0, 2) as usize;
    if MOST_ROWS < count {
        return Err(Refusal::BUNDLE_WRONG_COUNT);
    }
    if bundle.len() < 2 + 12 * count {
        return Err(Refusal::BUNDLE_CONTENTS_CUT);
    }
    Ok(count)
}

// The number of rows, or the lowest refusal that applies to the whole bundle.
pub fn check(bundle: &[u8]) -> Result<usize, Refusal>
    ensures { result ≡ shown (check_of bundle.now) }
{
    let count = opened(bundle)?;
    check_rows(bundle, count)
}
