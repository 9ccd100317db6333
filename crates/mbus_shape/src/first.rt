// The first bytes of a line, whether or not the others are there: how many it has.
ghost use Rattle.std.specs.Prelude.{◌≡◌, ◌<◌, map, length};
ghost use Rattle.base_rules.specs.Lists.{at};
ghost use Rattle.base_characters.specs.Characters.{byte_of};
ghost use Rattle.mbus_shape.specs.First.{left_by};

use super::{ACK, LONG, SHORT};
use base_characters::line::low_at;

// After 68, where the fourth byte is still to come.
fn left_early(first: &[u16]) -> usize
    requires { (at (map byte_of first.now) 0 ≡ 0x68) × (length first.now < 4) }
    ensures { result ≡ left_by (map byte_of first.now) }
{
    let second = low_at(first, 1);
    let third = low_at(first, 2);
    if (2 < first.len()) & (second != third) {
        return 0;
    }
    second as usize + 6
}

// The count that 5 leaves to a line with these first bytes, or 0 where 4 or 6 refuses every such line. All four are mostly there, so that
// is asked once.
pub fn left_by(first: &[u16]) -> usize
    ensures { result ≡ left_by (map byte_of first.now) }
{
    let start = low_at(first, 0);
    if start == ACK {
        return 1;
    }
    if start == SHORT {
        return 5;
    }
    if start != LONG {
        return 0;
    }
    if first.len() < 4 {
        return left_early(first);
    }
    let second = low_at(first, 1);
    let third = low_at(first, 2);
    let fourth = low_at(first, 3);
    if (second != third) | (fourth != LONG) {
        return 0;
    }
    second as usize + 6
}
