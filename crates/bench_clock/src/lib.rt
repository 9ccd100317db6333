// The line clock of document 01, the wake-up that opens an optical interface, and the gap between the two.
#![tactic(auto)]

ghost use Rattle.std.specs.Prelude.{◌≡◌, ◌-◌};
ghost use Rattle.base_rules.specs.Shown.{shown};
ghost use Rattle.base_characters.specs.Characters.{chars};
ghost use Rattle.base_lent.specs.Lent.{stored};
ghost use Rattle.bench_clock.specs.Times.{late, due, earlier};
ghost use Rattle.bench_clock.specs.Gaps.{gap_of};
ghost use Rattle.bench_clock.specs.Wakes.{outside_wake, is_wake, wake_of, wake_line};

use base_characters::pairs::character_at;
use base_rules::Refusal;

// A time on the line clock, counted in bit times of 1/2400 s.
#[derive(Clone, Copy, PartialEq, Eq, PartialOrd, Ord)]
pub struct Clock(pub u64);

impl Clock {
    // The command begins at least 13.75 ms after the wake-up's end.
    pub const GAP_LEAST: u64 = 33;
    // And at most 137.5 ms after it.
    pub const GAP_MOST: u64 = 330;
    // A reply begins at most 187.5 ms after the end of the send.
    pub const REPLY: u64 = 450;
    // A meter leaves verification 30 min after the last instruction.
    pub const RETURN: u64 = 4_320_000;
    // A character takes 11 bit times (02, 2026-04).
    pub const CHARACTER: u64 = 11;

    // How long after this time t is. Before it is 0, so that no two times overflow.
    fn since(self, t: Clock) -> u64
        ensures { result ≡ t.0 - self.0 }
    {
        t.0.saturating_sub(self.0)
    }

    // Whether t is past the window of a send that ended at this time.
    pub fn late(self, t: Clock) -> bool
        ensures { result ≡ late self.0 t.0 }
    {
        Clock::REPLY < self.since(t)
    }

    // Whether at t the return to use is due, after a last instruction at this time.
    pub fn due(self, t: Clock) -> bool
        ensures { result ≡ due self.0 t.0 }
    {
        Clock::RETURN <= self.since(t)
    }

    // Whether t goes back behind this time.
    pub fn earlier(self, t: Clock) -> bool
        ensures { result ≡ earlier self.0 t.0 }
    {
        t < self
    }

    // Whether a command that begins at a time stands in the gap after a wake-up that ended at this time: yes, or refused by 50 or 51.
    pub fn gap(self, begins: Clock) -> Result<(), Refusal>
        ensures { result ≡ shown (gap_of self.0 begins.0) }
    {
        let gap = self.since(begins);
        if gap < Clock::GAP_LEAST {
            return Err(Refusal::GAP_TOO_SHORT);
        }
        if Clock::GAP_MOST < gap {
            return Err(Refusal::GAP_TOO_LONG);
        }
        Ok(())
    }
}

// The fewest and the most characters of a wake-up, and the one character that it repeats: 55, whose parity bit is 0.
pub const WAKE_LEAST: usize = 459;

pub const WAKE_MOST: usize = 502;

pub const WAKE_CHARACTER: u16 = 0x055;

// Whether so many characters are too few or too many for a wake-up.
fn outside_wake(count: usize) -> bool
    ensures { result ≡ outside_wake count }
{
    count < WAKE_LEAST || WAKE_MOST < count
}

// The characters of a body, two bytes each, are a wake-up: so many, and each of them the one.
pub fn is_wake(body: &[u8]) -> bool
    ensures { result ≡ is_wake (chars body.now) }
{
    let size = body.len() / 2;
    if outside_wake(size) {
        return false;
    }
    // No way out between: the back end then takes many characters at a time, which `all` does not let it.
    let mut other = false;
    for i in 0..size {
        other |= character_at(body, i) != WAKE_CHARACTER;
    }
    !other
}

// Writes a wake-up of `count` characters into the first places of `out`: how many were written, or refused by 52 or 21.
pub fn write_wake(count: usize, out: &mut [u16]) -> Result<usize, Refusal>
    ensures { (result ≡ shown (wake_of count out.old)) × (out.new ≡ stored wake_line out.old (wake_of count out.old)) }
{
    if outside_wake(count) {
        return Err(Refusal::WAKE_WRONG_COUNT);
    }
    if out.len() < count {
        return Err(Refusal::TOO_FEW_PLACES);
    }
    out[..count].fill(WAKE_CHARACTER);
    Ok(count)
}
