// The leading rows of a damaged bundle that each keep the rules.
ghost use Rattle.std.specs.Prelude.{◌≡◌, ◌≤◌, length};
ghost use Rattle.bundle_check.specs.Bundles.{most_bytes};
ghost use Rattle.bundle_salvage.specs.Salvaging.{rule_of, leading_rows};
ghost use Rattle.bundle_salvage.specs.Writing.{ContentsWhole};

use base_characters::pairs::any_over;
use bundle_rows::{Row, unchecked_row, wrong_field};

// How many rows, the rule that the next one breaks or 0, and where their bodies end.
#[derive(Clone, Copy)]
pub(crate) struct Leading {
    pub(crate) kept: usize,
    pub(crate) rule: u16,
    pub(crate) end: usize,
}

// A row's own lowest of 34, 35 and 37, or 0.
fn rule_of(damaged: &[u8], before: u32, at: usize, row: Row) -> u16
    requires { (at ≤ most_bytes) × (length damaged.now ≤ most_bytes) }
    ensures { result ≡ rule_of damaged.now before at row }
{
    let size = row.length as usize;
    let offset = row.offset as usize;
    let wrong = wrong_field(row.position, row.direction, size);
    let field = wrong | (row.time < before);
    if field {
        return 34;
    }
    let end = at + size;
    if offset != at {
        return 35;
    }
    if damaged.len() < end {
        return 35;
    }
    let wide = any_over(&damaged[at..end]);
    if wide {
        return 37;
    }
    0
}

// Rows are tried one by one up to the first that breaks a rule.
pub(crate) fn leading_rows(damaged: &[u8], count: usize) -> Leading
    requires { ContentsWhole damaged.now count }
    ensures { result ≡ leading_rows count damaged.now }
{
    let mut before: u32 = 0;
    let mut at = 2 + 12 * count;
    for i in 0..count {
        let row = unchecked_row(damaged, i);
        let rule = rule_of(damaged, before, at, row);
        let broken = rule != 0;
        if broken {
            return Leading {
                kept: i,
                rule,
                end: at,
            };
        }
        before = row.time;
        at = at + row.length as usize;
    }
    Leading {
        kept: count,
        rule: 0,
        end: at,
    }
}
