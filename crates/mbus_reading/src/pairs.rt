// A line whose characters come as bytes, two per character, low byte first.
ghost use Rattle.std.specs.Prelude.{◌≡◌, ◌/◌, ◌≤◌, ◌<◌, length};
ghost use Rattle.base_characters.specs.Characters.{chars};
ghost use Rattle.mbus_rules.specs.Lines.{read_line};
ghost use Rattle.mbus_rules.specs.Outlines.{outlined};
ghost use Rattle.mbus_reading.specs.Taking.{TakenFew};

use crate::body::outline_in;
use crate::taking::{MOST, far_of, write_apart};
use base_characters::counts_odd;
use base_characters::pairs::{any_over, character_at, gather, soundness_of};
use base_rules::Refusal;
use mbus_rules::Outline;
use mbus_shape::brief_shape;

// So many characters at most have an ack and the short form, and no long form has so few. They are walked over one by one, which for few
// of them is cheaper.
const FEW: usize = 5;

// Takes in few characters: their bytes go into the first places, up to the first that is not sound. Behind an odd one only the range is
// still to be told. (By the place, which is that of two bytes and of one.)
fn take_few(bytes: &[u8], out: &mut [u8]) -> Result<(), Refusal>
    requires { (0 < length bytes.now / 2) × (length bytes.now / 2 ≤ length out.old) }
    ensures { TakenFew (chars bytes.now) out.new result }
{
    for i in 0..bytes.len() / 2 {
        let c = character_at(bytes, i);
        if 511 < c {
            return Err(Refusal::WRONG_CHARACTER);
        }
        if counts_odd(c) {
            let over = any_over(&bytes[2 * i..]);
            return Err(if over {
                Refusal::WRONG_CHARACTER
            } else {
                Refusal::ODD_PARITY
            });
        }
        let b = (c % 256) as u8;
        out[i] = b;
    }
    Ok(())
}

// The outline of few characters. They have no header and no entries: their shape is all.
fn outline_few(bytes: &[u8]) -> Outline
    requires { length bytes.now / 2 ≤ 5 }
    ensures { result ≡ outlined (read_line (chars bytes.now)) }
{
    let count = bytes.len() / 2;
    if count == 0 {
        return Outline::Refused(Refusal::EMPTY_LINE.0);
    }
    let mut few = [0u8; FEW];
    match take_few(bytes, &mut few) {
        Ok(()) => brief_shape(&few[..count]),
        Err(refused) => Outline::Refused(refused.0),
    }
}

// The outline of more than MOST characters, which no form has: no byte of them is stored.
fn outline_far(bytes: &[u8]) -> Outline
    requires { 261 < length bytes.now / 2 }
    ensures { result ≡ outlined (read_line (chars bytes.now)) }
{
    let first = character_at(bytes, 0);
    let refused = far_of(soundness_of(bytes), (first % 256) as u8);
    Outline::Refused(refused.0)
}

// The outline of so many characters as a long form can have.
fn outline_many(bytes: &[u8]) -> Outline
    requires { (0 < length bytes.now / 2) × (length bytes.now / 2 ≤ 261) }
    ensures { result ≡ outlined (read_line (chars bytes.now)) }
{
    let mut low = [0u8; MOST];
    write_apart(&mut low);
    let taken = gather(bytes, &mut low);
    match taken.outcome {
        Ok(()) => outline_in(&low[..bytes.len() / 2], taken.sum),
        Err(refused) => Outline::Refused(refused.0),
    }
}

// Kind, address and method of a line, or what it is refused by.
pub fn outline_of(bytes: &[u8]) -> Outline
    ensures { result ≡ outlined (read_line (chars bytes.now)) }
{
    let count = bytes.len() / 2;
    if count <= FEW {
        return outline_few(bytes);
    }
    if MOST < count {
        return outline_far(bytes);
    }
    outline_many(bytes)
}
