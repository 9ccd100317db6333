// When a line is whole: how many characters it has, by the first of them.
#![tactic(auto)]

ghost use Rattle.std.specs.Prelude.{◌≡◌};
ghost use Rattle.mbus_length.specs.Lengths.{unsound_in, line_length};

use base_characters::line::{low_at, soundness_of};
use mbus_shape::LONG;
use mbus_shape::first::left_by;

// How many characters the accepted line has that begins so; not yet known; or no accepted line begins so.
#[derive(Clone, Copy)]
pub enum HowLong {
    Known(usize),
    NotYet,
    NoLine,
}

// One of so many first characters is over 511 or odd.
fn unsound_in(first: &[u16], count: usize) -> bool
    ensures { result ≡ unsound_in count first.now }
{
    soundness_of(&first[..count.min(first.len())]).is_err()
}

// How many characters the accepted line has that begins with these. Those behind its end change nothing.
pub fn line_length(first: &[u16]) -> HowLong
    ensures { result ≡ line_length first.now }
{
    if first.is_empty() {
        return HowLong::NotYet;
    }
    let count = left_by(first);
    if count == 0 {
        return HowLong::NoLine;
    }
    if unsound_in(first, count) {
        return HowLong::NoLine;
    }
    let start = low_at(first, 0);
    if start == LONG && first.len() < 2 {
        return HowLong::NotYet;
    }
    HowLong::Known(count)
}
