// Binary: two's complement, low byte first.
ghost use Rattle.std.specs.Prelude.{◌≡◌, cond, ◌+◌, ◌-◌, ◌^◌, ◌≤◌, min, take};
ghost use Rattle.base_numbers.specs.TwosComplement.{fits_binary};
ghost use Rattle.mbus_fields.specs.Fields.{coded_of};

use crate::digits::mark_of;
use base_numbers::number_at;
use base_numbers::signed::{count_of, is_below_zero, size_of};

// What the bytes hold in binary: the highest bit is set, and the number that they are. (No Option: the number is there in both cases, and the
// bit stands beside it as the sign does in `Signed`.)
#[derive(Clone, Copy)]
pub struct Coded {
    pub falls: bool,
    pub count: i64,
}

// The greatest number that so many bytes, at most eight, hold without a sign: F in their highest place is fifteen sixteenths of all.
fn most_of(width: usize) -> u64
    ensures { result ≡ 256 ^ min width 8 - 1 }
{
    let mark = mark_of(width);
    if mark < 15 {
        return 0;
    }
    (mark / 15 - 1) * 16 + 15
}

// A word of bytes that hold at most so much, as one of eight bytes: where the highest bit is set, so is each above it. (Whether it is set is
// handed in: `coded_of` answers it too, and two functions would each be one arm.)
fn extended(word: u64, most: u64, falls: bool) -> u64
    requires { word ≤ most }
    ensures { result ≡ cond falls (word + (2 ^ 64 - 1 - most)) word }
{
    if falls {
        word + (0xFFFF_FFFF_FFFF_FFFF - most)
    } else {
        word
    }
}

// What the first eight bytes hold in binary.
pub fn coded_of(value: &[u8]) -> Coded
    ensures { result ≡ coded_of (take 8 value.now) }
{
    let word = number_at(value, 0, 8);
    let most = most_of(value.len());
    let falls = most / 2 < word;
    let count = count_of(extended(word, most, falls));
    Coded { falls, count }
}

// The number fits so many bytes, at most eight: half of what they hold is below zero.
pub fn fits_binary(width: usize, count: i64) -> bool
    ensures { result ≡ fits_binary (min width 8) count }
{
    let most = most_of(width);
    let size = size_of(count);
    let below = is_below_zero(count);
    let half = most / 2;
    if below {
        return size <= most - half;
    }
    size <= half
}
