// A line whose characters come as bytes, two per character, low byte first.
// (Not one function with those of line.rt: the walk here is by blocks, which is cheaper at run time, and what both kinds share is `folded`,
// `told_by` and the laws. Loops go by the character's place, since it is that of two bytes here and of one there.)
ghost use Rattle.std.specs.Prelude.{◌≡◌, ◌-◌, ◌*◌, ◌/◌, ◌<◌, ◌≤◌, map, length, take, drop};
ghost use Rattle.base_rules.specs.Lists.{at, any};
ghost use Rattle.base_characters.specs.Characters.{over, byte_of, chars};
ghost use Rattle.base_rules.specs.Shown.{shown};
ghost use Rattle.base_lent.specs.Copying.{copied};
ghost use Rattle.base_characters.specs.Gathering.{Parted, sound, gathered};

use super::{Gathering, Part, counted, folded, told_by, told_of};
use base_rules::Refusal;

// The character at a place.
#[tactic(auto, using(crate::proofs::Laws::PairLaws::pair_read))]
fn pair_at(bytes: &[u8], i: usize) -> u16
    requires { i < length bytes.now / 2 }
    ensures { result ≡ at (chars bytes.now) i }
{
    u16::from_le_bytes([bytes[2 * i], bytes[2 * i + 1]])
}

// The character at a place, 0 past the end.
#[tactic(auto, using(crate::proofs::Laws::PairLaws::character_none))]
pub fn character_at(bytes: &[u8], i: usize) -> u16
    ensures { result ≡ at (chars bytes.now) i }
{
    if i < bytes.len() / 2 {
        return pair_at(bytes, i);
    }
    0
}

// A character is over 511. All are looked at, many at a time: `any`, which stops at the first, is dearer on a line that has none.
pub fn any_over(bytes: &[u8]) -> bool
    ensures { result ≡ any over (chars bytes.now) }
{
    let mut found = false;
    for i in 0..bytes.len() / 2 {
        found |= 511 < pair_at(bytes, i);
    }
    found
}

// 2 and 3 of all characters.
pub fn soundness_of(bytes: &[u8]) -> Result<(), Refusal>
    ensures { result ≡ shown (sound (chars bytes.now)) }
{
    let count = bytes.len() / 2;
    let mut flags: u16 = 0;
    for i in 0..count {
        flags |= folded(pair_at(bytes, i));
    }
    told_by(flags)
}

// The first characters, which the back end takes many at a time where their count is that of whole blocks. The characters are summed
// whole, since what stands above a byte changes nothing modulo 256. (Here and below by the place: it is that of two bytes and of one, so an
// iterator over either slice would have to be counted beside it.)
fn gather_blocks(bytes: &[u8], whole: usize, out: &mut [u8]) -> Part
    requires { (whole ≤ length bytes.now / 2) × (whole ≤ length out.old) }
    ensures { Parted (take whole (chars bytes.now)) result.flags result.sum × (out.new
        ≡ copied out.old 0 (map byte_of (take whole (chars bytes.now)))) }
{
    let mut flags: u16 = 0;
    let mut sum: u16 = 0;
    for i in 0..whole {
        let c = pair_at(bytes, i);
        flags |= folded(c);
        sum = sum.wrapping_add(c);
        out[i] = (c % 256) as u8;
    }
    Part { flags, sum }
}

// Few characters from a place on, one by one. (Here and below bytes, count and out stay three parameters with their facts: they are the steps
// of `gather` alone, which makes the count, and a struct of them would be made there just to be taken apart in each step.)
fn gather_few(bytes: &[u8], from: usize, count: usize, out: &mut [u8]) -> Part
    requires { (from ≤ count) × (count ≤ length bytes.now / 2) × (count ≤ length out.old) }
    ensures { Parted (drop from (take count (chars bytes.now))) result.flags result.sum × (out.new
        ≡ copied out.old from (map byte_of (drop from (take count (chars bytes.now))))) }
{
    let mut flags: u16 = 0;
    let mut sum: u16 = 0;
    for i in from..count {
        let c = pair_at(bytes, i);
        flags |= counted(c);
        sum = sum.wrapping_add(c);
        out[i] = (c % 256) as u8;
    }
    Part { flags, sum }
}

// What is behind the whole blocks of sixteen, as the end of a block that reaches to the last character. What of that block lies in a whole
// one is taken as 0 and counts for nothing; its byte is stored again with the others.
fn gather_last(bytes: &[u8], count: usize, out: &mut [u8]) -> Part
    requires { (16 ≤ count) × (count ≤ length bytes.now / 2) × (count ≤ length out.old) }
    ensures { Parted (drop (count / 16 * 16) (take count (chars bytes.now))) result.flags result.sum × (out.new
        ≡ copied out.old (count - 16) (map byte_of (drop (count - 16) (take count (chars bytes.now))))) }
{
    let mut flags: u16 = 0;
    let mut sum: u16 = 0;
    let from = count - 16;
    let left = (count % 16) as u16 + 16;
    for j in 0..16u16 {
        let i = from + j as usize;
        let d = pair_at(bytes, i);
        let c = d * ((left + j) / 32);
        flags |= folded(c);
        sum = sum.wrapping_add(c);
        out[i] = (d % 256) as u8;
    }
    Part { flags, sum }
}

// Fewer than sixteen: eight of them at once, if there are so many.
fn gather_short(bytes: &[u8], count: usize, out: &mut [u8]) -> Gathering
    requires { (count ≤ length bytes.now / 2) × (count ≤ length out.old) }
    ensures { (result ≡ gathered (take count (chars bytes.now))) × (out.new
        ≡ copied out.old 0 (map byte_of (take count (chars bytes.now)))) }
{
    let whole = count / 8 * 8;
    let blocks = gather_blocks(bytes, whole, out);
    let rest = gather_few(bytes, whole, count, out);
    told_of(blocks, rest)
}

// Sixteen or more.
fn gather_long(bytes: &[u8], count: usize, out: &mut [u8]) -> Gathering
    requires { (16 ≤ count) × (count ≤ length bytes.now / 2) × (count ≤ length out.old) }
    ensures { (result ≡ gathered (take count (chars bytes.now))) × (out.new
        ≡ copied out.old 0 (map byte_of (take count (chars bytes.now)))) }
{
    let whole = count / 16 * 16;
    let rest = gather_last(bytes, count, out);
    let blocks = gather_blocks(bytes, whole, out);
    told_of(blocks, rest)
}

// One walk over the characters, as many as there are places, as over characters that come as numbers. Each is looked at for all three,
// and twice where what is behind the whole blocks reaches back into the last of them; both are walked over by loops of their own, so that
// the back end needs none for a remainder.
pub fn gather(bytes: &[u8], out: &mut [u8]) -> Gathering
    ensures { (result ≡ gathered (take (length out.old) (chars bytes.now))) × (out.new
        ≡ copied out.old 0 (map byte_of (take (length out.old) (chars bytes.now)))) }
{
    let count = (bytes.len() / 2).min(out.len());
    if count < 16 {
        return gather_short(bytes, count, out);
    }
    gather_long(bytes, count, out)
}
