// The scan of the positions for one of them.
ghost use Rattle.std.specs.Prelude.{◌≡◌, ◌+◌, ◌<◌, ◌≤◌, length, drop};
ghost use Rattle.base_rules.specs.Lists.{any};
ghost use Rattle.base_rules.specs.Shown.{shown};
ghost use Rattle.bundle_columns.specs.Lookups.{is_position, in_front, first_from};
ghost use Rattle.bundle_columns.specs.Scanning.{Passed};

use base_rules::Refusal;

// So many positions are looked at together: many far from the place, few near it.
const FAR: usize = 64;

const NEAR: usize = 8;

// The position stands in the block. All of it is looked at, so that the loop has one way through.
fn has(block: &[u8], position: u8) -> bool
    ensures { result ≡ any (is_position position) block.now }
{
    let mut found = false;
    for own in block {
        found = found | (*own == position);
    }
    found
}

// Whole blocks of one size without the position are passed over. The loop counts: the answer is a place, which blocks alone do not have.
fn pass_blocks(positions: &[u8], position: u8, from: usize, size: usize) -> usize
    requires { (from ≤ length positions.now) × (0 < size) }
    ensures { Passed positions.now position from result }
{
    let mut i = from;
    while size <= positions.len() - i {
        let here = has(&positions[i..i + size], position);
        if here {
            return i;
        }
        i += size;
    }
    i
}

// The first place from a given one on at which the position stands, or the end.
fn first_place(positions: &[u8], position: u8, from: usize) -> usize
    requires { from ≤ length positions.now }
    ensures { result ≡ from + in_front (is_position position) (drop from positions.now) }
{
    let rest = &positions[from..];
    let passed = rest
        .iter()
        .position(|own| *own == position)
        .unwrap_or(rest.len());
    from + passed
}

// The first place from a given one on at which the position stands, or 39.
pub(crate) fn next_place(positions: &[u8], position: u8, from: usize) -> Result<usize, Refusal>
    ensures { result ≡ shown (first_from (is_position position) positions.now from) }
{
    if positions.len() < from {
        return Err(Refusal::BUNDLE_NO_SUCH_ROW);
    }
    let far = pass_blocks(positions, position, from, FAR);
    let near = pass_blocks(positions, position, far, NEAR);
    let i = first_place(positions, position, near);
    if positions.len() <= i {
        return Err(Refusal::BUNDLE_NO_SUCH_ROW);
    }
    Ok(i)
}
