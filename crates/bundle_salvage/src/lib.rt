// Salvaging a run bundle cut short (2026-11 of document 02) into a second buffer.
#![tactic(auto)]

ghost use Rattle.std.specs.Prelude.{◌≡◌};
ghost use Rattle.base_rules.specs.Answers.{reads};
ghost use Rattle.bundle_check.specs.Bundles.{count_of, opened};
ghost use Rattle.bundle_salvage.specs.Salvaging.{rule_told};
ghost use Rattle.bundle_salvage.specs.Shown.{Salvages};

use crate::leading::leading_rows;
use crate::writing::write;
use base_rules::Refusal;
use bundle_check::opened;

mod leading;
mod writing;

// How many rows were kept, how many were dropped, the rule broken or 0, and the bytes of the new bundle.
// The rule stays a number, 0 for none: the theorem RuleOfTheFirstDropped says it so, and C is told it so.
#[derive(Clone, Copy)]
pub struct Salvaged {
    pub kept: usize,
    pub dropped: usize,
    pub rule: u16,
    pub filled: usize,
}

// The rule that is told: that of the first dropped row, or 36 where all are kept and bytes are left over.
fn rule_told(rule: u16, kept: usize, count: usize, end: usize, size: usize) -> u16
    ensures { result ≡ rule_told rule kept count end size }
{
    if kept < count {
        return rule;
    }
    if end < size {
        return 36;
    }
    0
}

// The rows are tried, and those that are kept are written where there is room. The contents have been found whole.
fn salvage_rows(damaged: &[u8], count: usize, out: &mut [u8]) -> Result<Salvaged, Refusal>
    requires { opened damaged.now (reads (count_of damaged.now)) ≡ reads count }
    ensures { Salvages damaged.now out.old result out.new }
{
    let found = leading_rows(damaged, count);
    let kept = found.kept;
    let end = found.end;
    let filled = 2 + 12 * kept + (end - (2 + 12 * count));
    if out.len() < filled {
        return Err(Refusal::BUNDLE_FULL);
    }
    let rule = rule_told(found.rule, kept, count, end, damaged.len());
    let dropped = count - kept;
    write(damaged, kept, count, end, out);
    Ok(Salvaged {
        kept,
        dropped,
        rule,
        filled,
    })
}

// The largest number of leading rows that each keep the rules, as a proper bundle in the second buffer. Where it is refused the buffer stays as
// it was.
pub fn salvage(damaged: &[u8], out: &mut [u8]) -> Result<Salvaged, Refusal>
    ensures { Salvages damaged.now out.old result out.new }
{
    let count = opened(damaged)?;
    salvage_rows(damaged, count, out)
}
