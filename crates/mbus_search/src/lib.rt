// The search for a line in a capture.
#![tactic(auto)]

ghost use Rattle.std.specs.Prelude.{◌≡◌, map};
ghost use Rattle.base_rules.specs.Shown.{shown};
ghost use Rattle.mbus_search.specs.Searching.{accepts, find_in};
ghost use Rattle.base_characters.specs.Characters.{byte_of};
ghost use Rattle.mbus_rules.specs.Lines.{read_body};
ghost use Rattle.mbus_shape.specs.Shapes.{frame_by};
ghost use Rattle.mbus_search.specs.Ending.{ends_in};

use base_characters::counts_odd;
use base_characters::line::low_at;
use base_rules::Refusal;
use mbus_reading::body::outline_in;
use mbus_reading::taking::MOST;
use mbus_rules::Outline;
use mbus_shape::END;
use mbus_shape::first::left_by;

// Where a line begins in a capture, and its length.
#[derive(Clone, Copy)]
pub struct Spot {
    pub place: usize,
    pub length: usize,
}

// A line of so many characters is there and ends in 16, as far as its form has an end.
fn is_ended(rest: &[u16], length: usize) -> bool
    ensures { result ≡ ends_in length (map byte_of rest.now) }
{
    if rest.len() < length {
        return false;
    }
    if length < 2 {
        return true;
    }
    let end = low_at(rest, length - 1);
    end == END
}

// The rules 4 to 16 accept the bytes of a line, by the sum of all of them.
fn is_accepted(bytes: &[u8], sum: u8) -> bool
    ensures { result ≡ accepts (frame_by sum read_body bytes.now) }
{
    let outline = outline_in(bytes, sum);
    !matches!(outline, Outline::Refused(_))
}

// The lowest place at which an accepted line begins. At each place the one length that can be is walked over, character by character:
// their bytes are stored and summed, and the rules on bytes are asked only if each of them is sound.
pub fn find_line(capture: &[u16]) -> Result<Spot, Refusal>
    ensures { result ≡ shown (find_in capture.now) }
{
    let mut found = Err(Refusal::NO_LINE);
    let mut bytes = [0u8; MOST];
    // (by the place, which is what is answered; an iterator over what is left behind each would be counted beside it)
    'places: for place in 0..capture.len() {
        let rest = &capture[place..];
        let length = left_by(rest);
        // asked by itself, so that the back end leaves a place of noise at its first byte
        if 0 < length {
            let ended = is_ended(rest, length);
            if ended {
                let mut sum: u8 = 0;
                // (counted by hand: with a `for` here each place of noise is dearer)
                let mut i: usize = 0;
                while i != length {
                    let c = rest[i];
                    if (511 < c) | counts_odd(c) {
                        break;
                    }
                    let b = (c % 256) as u8;
                    bytes[i] = b;
                    sum = std::num::wrapping_add_u8(sum, b);
                    i += 1;
                    if i == length {
                        let accepted = is_accepted(&bytes[..length], sum);
                        if accepted {
                            found = Ok(Spot { place, length });
                            break 'places;
                        }
                    }
                }
            }
        }
    }
    found
}
