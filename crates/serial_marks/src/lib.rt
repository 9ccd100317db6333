// From a serial port to characters. With PARENB, INPCK and PARMRK set and IGNPAR and ISTRIP clear (termios(3)) a port marks the bytes that
// came with wrong parity; what it hands over is taken apart again into characters with the parity bit as it was received.
#![tactic(auto)]

ghost use Rattle.std.specs.Prelude.{◌≡◌};
ghost use Rattle.base_characters.specs.Characters.{carrier};
ghost use Rattle.serial_marks.specs.Marks.{wronged};
ghost use Rattle.serial_marks.specs.Unmarking.{first, after_mark, after_zero, Unmarks};

// A whole character that stands first in marked bytes, and how many bytes it is.
#[derive(Clone, Copy)]
pub struct Whole {
    pub size: usize,
    pub character: u16,
}

// How many bytes were used, and how many characters made.
#[derive(Clone, Copy)]
pub struct Unmarked {
    pub used: usize,
    pub made: usize,
}

// The byte by which a mark begins, and a byte of a character too, so no enum.
const MARK: u8 = 0xFF;

// The character of a byte that came with right parity. A count of bits, whose parity the processor has, is the cheapest for one byte.
fn right(byte: u8) -> u16
    ensures { result ≡ carrier byte }
{
    let parity = (u8::count_ones(byte) % 2) as u16;
    256 * parity + byte as u16
}

// The character of a byte that came with wrong parity: the other parity bit.
fn wrong(byte: u8) -> u16
    ensures { result ≡ wronged byte }
{
    right(byte) ^ 256
}

// Behind FF 00: the byte that came with wrong parity.
fn after_zero(bytes: &[u8]) -> Option<Whole>
    ensures { result ≡ after_zero bytes.now }
{
    let (byte, _) = bytes.split_first()?;
    Some(Whole {
        size: 3,
        character: wrong(*byte),
    })
}

// Behind FF.
fn after_mark(bytes: &[u8]) -> Option<Whole>
    ensures { result ≡ after_mark bytes.now }
{
    let (byte, rest) = bytes.split_first()?;
    if *byte == MARK {
        return Some(Whole {
            size: 2,
            character: right(MARK),
        });
    }
    if *byte == 0 {
        return after_zero(rest);
    }
    Some(Whole {
        size: 1,
        character: wrong(MARK),
    })
}

// What stands first in the bytes, if it is whole.
fn first_of(bytes: &[u8]) -> Option<Whole>
    ensures { result ≡ first bytes.now }
{
    let (byte, rest) = bytes.split_first()?;
    if *byte == MARK {
        return after_mark(rest);
    }
    Some(Whole {
        size: 1,
        character: right(*byte),
    })
}

// Makes characters of marked bytes, as many as there are places or whole characters in the bytes. (By number: how many are made is answered
// where the bytes end, and an iterator over the places would be counted beside it.)
pub fn unmark(bytes: &[u8], characters: &mut [u16]) -> Unmarked
    ensures { Unmarks bytes.now characters.old characters.new result }
{
    let mut used = 0;
    for made in 0..characters.len() {
        let Some(next) = first_of(&bytes[used..]) else {
            return Unmarked { used, made };
        };
        characters[made] = next.character;
        used += next.size;
    }
    Unmarked {
        used,
        made: characters.len(),
    }
}
