// A line whose characters come as numbers.
ghost use Rattle.std.specs.Prelude.{◌≡◌, map, length, take};
ghost use Rattle.base_rules.specs.Lists.{at};
ghost use Rattle.base_characters.specs.Characters.{byte_of};
ghost use Rattle.base_rules.specs.Shown.{shown};
ghost use Rattle.base_lent.specs.Copying.{copied};
ghost use Rattle.base_characters.specs.Gathering.{sound, gathered};

use super::{Gathering, folded, told_by};
use base_rules::Refusal;

// The byte of the character at a place, 0 past the end.
pub fn low_at(line: &[u16], i: usize) -> u8
    ensures { result ≡ at (map byte_of line.now) i }
{
    line.get(i).map_or(0, |&c| (c % 256) as u8)
}

// 2 and 3 of all characters.
pub fn soundness_of(line: &[u16]) -> Result<(), Refusal>
    ensures { result ≡ shown (sound line.now) }
{
    let mut flags: u16 = 0;
    for &character in line {
        flags |= folded(character);
    }
    told_by(flags)
}

// One walk over the characters, as many as there are places: 2 and 3, the sum of their bytes, and the bytes into the first places. The
// characters are summed whole, since what stands above a byte changes nothing modulo 256.
pub fn gather(line: &[u16], out: &mut [u8]) -> Gathering
    ensures { (result ≡ gathered (take (length out.old) line.now)) × (out.new
        ≡ copied out.old 0 (map byte_of (take (length out.old) line.now))) }
{
    let seen = &line[..line.len().min(out.len())];
    let mut flags: u16 = 0;
    let mut sum: u16 = 0;
    for (i, &c) in seen.iter().enumerate() {
        flags |= folded(c);
        sum = sum.wrapping_add(c);
        out[i] = (c % 256) as u8;
    }
    let outcome = told_by(flags);
    Gathering {
        outcome,
        sum: (sum % 256) as u8,
    }
}
