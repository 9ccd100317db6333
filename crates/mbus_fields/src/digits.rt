// Packed digits with a sign, and the value that a structure says.
ghost use Rattle.std.specs.Prelude.{◌≡◌, cond, ◌-◌, ◌^◌, ◌<◌, ◌≤◌, min, leb, pos, neg_ℤ};
ghost use Rattle.mbus_fields.specs.Fields.{mark_of, sign_on, marked_in, signed_by, wide_by, wide_of};

use base_digits::{Packed, packed_in};
use base_numbers::number_at;
use mbus_telegrams::table::structure_of;

// What packed digits with a sign hold: the rule is broken, F stands in the highest place, and the number that they are.
// (No Option: the definition tells the sign and the number of any digits, as `Packed` does.)
#[derive(Clone, Copy)]
pub struct Signed {
    pub wrong: bool,
    pub falls: bool,
    pub count: i64,
}

// The width of a value and the word that its bytes are.
#[derive(Clone, Copy)]
pub struct Wide {
    pub width: usize,
    pub word: u64,
}

// The value of so many bytes that stands behind structure and unit, if it is not past the end. (That a width is 8 at most is asked here, below
// and in two other crates, each for its own widths: a type of widths would be made of a number in each just for one call.)
fn wide_at(rest: &[u8], width: usize) -> Option<Wide>
    requires { width ≤ 8 }
    ensures { result ≡ wide_by width rest.now }
{
    if rest.len() < 2 + width {
        return None;
    }
    let word = number_at(rest, 2, width);
    Some(Wide { width, word })
}

// The same: a width that is named here is read without a loop.
fn named_at(rest: &[u8], width: usize) -> Option<Wide>
    requires { width ≤ 8 }
    ensures { result ≡ wide_by width rest.now }
{
    match width {
        2 => wide_at(rest, 2),
        3 => wide_at(rest, 3),
        4 => wide_at(rest, 4),
        6 => wide_at(rest, 6),
        _ => wide_at(rest, width),
    }
}

// The value of packed digits that stands behind structure and unit.
#[tactic(auto, unfolding(mbus_rules::specs::Quantities::width_of))]
pub fn digits_at(structure: u8, rest: &[u8]) -> Option<Wide>
    ensures { result ≡ wide_of structure rest.now }
{
    let row = structure_of(structure);
    if row.packed {
        return named_at(rest, row.width);
    }
    None
}

// F in the highest place of so many bytes, at most eight, and 1 of none, which no word of none reaches. (A table:
// by a shift the case of none and the bound of eight would stand beside it.)
#[tactic(auto, unfolding(crate::specs::Fields::mark_of))]
pub(crate) fn mark_of(width: usize) -> u64
    ensures { result ≡ mark_of (min width 8) }
{
    match width {
        0 => 1,
        1 => 0xF0,
        2 => 0xF000,
        3 => 0xF0_0000,
        4 => 0xF000_0000,
        5 => 0xF0_0000_0000,
        6 => 0xF000_0000_0000,
        7 => 0xF0_0000_0000_0000,
        _ => 0xF000_0000_0000_0000,
    }
}

// The word without its mark, if it has one.
fn unmarked(word: u64, mark: u64) -> u64
    ensures { result ≡ cond (leb mark word) (word - mark) word }
{
    if mark <= word { word - mark } else { word }
}

// A size with a minus sign.
fn negated(size: u64) -> i64
    requires { size < 2 ^ 63 }
    ensures { result ≡ neg_ℤ (pos size) }
{
    -(size as i64)
}

// Digits with a sign: minus zero is none. (Whether there is a sign is kept in the value, as the definition has it, so it is no switch alone.)
fn sign_on(falls: bool, size: Packed) -> Signed
    requires { size.count < 2 ^ 63 }
    ensures { result ≡ sign_on falls size }
{
    if falls {
        let count = negated(size.count);
        return Signed {
            wrong: size.wrong | (size.count == 0),
            falls,
            count,
        };
    }
    let count = size.count as i64;
    Signed {
        wrong: size.wrong,
        falls,
        count,
    }
}

// What a word with a digit over nine holds as digits with a sign: F stands in the highest place where it reaches the mark.
fn marked_of(word: u64, mark: u64) -> Signed
    ensures { result ≡ marked_in mark word }
{
    let falls = mark <= word;
    let size = packed_in(unmarked(word, mark));
    sign_on(falls, size)
}

// What a word of so many bytes holds as digits with a sign. A sign is looked for only where a digit is over nine.
pub fn signed_in(word: u64, width: usize) -> Signed
    ensures { result ≡ signed_by width word }
{
    let plain = packed_in(word);
    if plain.wrong {
        let mark = mark_of(width);
        return marked_of(word, mark);
    }
    sign_on(false, plain)
}
