// The edge between characters and bytes. A line's characters come as numbers, or as bytes, two per character, low byte first; the rules
// behind 3 are rules on bytes. One walk over a line gathers range, parity and sum and stores the bytes; it only gathers, so that the back
// end can take many characters at a time.
#![tactic(auto)]

ghost use Rattle.std.specs.Prelude.{◌≡◌, ◌+◌, ◌%◌, [], ◌∷◌, bit_or};
ghost use Rattle.base_rules.specs.Lists.{total};
ghost use Rattle.base_characters.specs.Characters.{odd};
ghost use Rattle.base_rules.specs.Shown.{shown};
ghost use Rattle.base_characters.specs.Gathering.{Flagged, sound_by, gathered_by};

use base_rules::Refusal;

pub mod carrying;
pub mod line;
pub mod pairs;

// What one walk over characters gathers: 2 or 3, and the sum of their bytes, modulo 256. (No Result of the sum: `gather`
// promises the sum beside a refusal too.)
#[derive(Clone, Copy)]
pub struct Gathering {
    pub outcome: Result<(), Refusal>,
    pub sum: u8,
}

// What is gathered of a part of them: all their tests in one number, and their sum.
#[derive(Clone, Copy)]
pub struct Part {
    pub flags: u16,
    pub sum: u16,
}

// Both tests of a character in one number. Its bits are folded onto the lowest one, which for nine bits is the parity; what is over 511
// stays over 511.
fn folded(c: u16) -> u16
    ensures { Flagged (c ∷ []) result }
{
    let eight = c ^ (c / 256);
    let four = eight ^ (eight / 16);
    let two = four ^ (four / 4);
    two ^ (two / 2)
}

// 2 and 3, by the tests of all characters in one number.
fn told_by(flags: u16) -> Result<(), Refusal>
    ensures { result ≡ shown (sound_by flags) }
{
    if (flags < 512) & (flags % 2 == 0) {
        return Ok(());
    }
    if 511 < flags {
        return Err(Refusal::WRONG_CHARACTER);
    }
    Err(Refusal::ODD_PARITY)
}

// What two parts tell together.
fn told_of(first: Part, second: Part) -> Gathering
    ensures { result ≡ gathered_by (bit_or first.flags second.flags) (first.sum + second.sum) }
{
    let outcome = told_by(first.flags | second.flags);
    let sum = first.sum.wrapping_add(second.sum);
    Gathering {
        outcome,
        sum: (sum % 256) as u8,
    }
}

// The parity over all nine bits is odd, by a count of them: cheaper for a character by itself.
#[tactic(auto, using(crate::proofs::Laws::ParityLaws::counted_odd))]
pub fn counts_odd(c: u16) -> bool
    ensures { result ≡ odd c }
{
    (c % 512).count_ones() % 2 == 1
}

// Both tests of a character in one number, by a count of its bits.
fn counted(c: u16) -> u16
    ensures { Flagged (c ∷ []) result }
{
    let high = c / 512 * 512;
    if counts_odd(c) { high + 1 } else { high }
}

// The sum of bytes, modulo 256.
pub fn sum_of(bytes: &[u8]) -> u8
    ensures { result ≡ total bytes.now % 256 }
{
    let mut sum: u8 = 0;
    for &b in bytes {
        sum = sum.wrapping_add(b);
    }
    sum
}
