// Packed digits, read from a word of eight bytes and written two in a byte.
#![tactic(auto)]

ghost use Rattle.std.specs.Prelude.{◌≡◌, ◌+◌, ◌*◌, ◌/◌, ◌%◌};
ghost use Rattle.base_rules.specs.Lists.{any};
ghost use Rattle.base_digits.specs.Digits.{over_nine, digits_of, packed_of, packed};
ghost use Rattle.base_numbers.specs.Numbers.{bytes_of};

// What packed digits hold: a digit is over nine, and the number that they are.
// (No Option: `packed_of` tells the number of any digits, and readers ask for it where another rule refuses digits over nine.)
#[derive(Clone, Copy)]
pub struct Packed {
    pub wrong: bool,
    pub count: u64,
}

// The 4 and the 2 of each digit, and its 8.
const SIXES: u64 = 0x6666_6666_6666_6666;

const EIGHTS: u64 = 0x8888_8888_8888_8888;

// The high half of each byte, of every two bytes and of every four.
const TENS: u64 = 0xF0F0_F0F0_F0F0_F0F0;

const HUNDREDS: u64 = 0xFF00_FF00_FF00_FF00;

const TEN_THOUSANDS: u64 = 0xFFFF_0000_FFFF_0000;

// A digit of the eight bytes is over nine: its 8 is set, and its 4 or its 2, to which 6 more make an 8.
fn over_nine(word: u64) -> bool
    ensures { result ≡ any over_nine (bytes_of 8 word) }
{
    0 < word & ((word & SIXES) + SIXES) & EIGHTS
}

// The number whose digits the eight bytes are. Digits are joined by twos, fours and eights in the whole word at once: of each 16 in the
// high half 6 is taken off, which leaves 10, of each 256 156, of each 65536 55536.
fn count_of(word: u64) -> u64
    ensures { result ≡ digits_of (bytes_of 8 word) }
{
    let twos = word - 6 * ((word & TENS) / 16);
    let fours = twos - 156 * ((twos & HUNDREDS) / 256);
    let eights = fours - 55536 * ((fours & TEN_THOUSANDS) / 65536);
    eights % 4294967296 + 100000000 * (eights / 4294967296)
}

// What the eight bytes of a word hold.
pub fn packed_in(word: u64) -> Packed
    ensures { result ≡ packed_of (bytes_of 8 word) }
{
    let wrong = over_nine(word);
    let count = count_of(word);
    Packed { wrong, count }
}

// Two digits in a byte, the units in its low half.
pub fn two_digits(n: u64) -> u8
    ensures { result ≡ 16 * (n / 10 % 10) + n % 10 }
{
    (16 * (n / 10 % 10) + n % 10) as u8
}

// The packed digits of a number in so many bytes, the lowest first.
pub fn packed_digits<const N: usize>(n: u64) -> [u8; N]
    ensures { result ≡ packed N n }
{
    let mut bytes = [0u8; N];
    let mut rest = n;
    for byte in bytes.iter_mut() {
        *byte = two_digits(rest);
        rest /= 100;
    }
    bytes
}
