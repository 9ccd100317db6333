// What a capture has, while it comes in and once it is there, for C: include/skarrowith.h says how.
#![tactic(auto)]

ghost use Rattle.std.specs.Prelude.{◌≡◌, ltb};
ghost use Rattle.std.proofs.Math.ListN;
ghost use Rattle.base_lent.specs.Copying.{copied};
ghost use Rattle.mbus_length.specs.Lengths.{line_length};
ghost use Rattle.host_incoming.specs.Calls.{TellsLength, timed_bytes, FindsAfter};

use base_numbers::put_record;
use base_rules::Refusal;
use mbus_after::{TimedSpot, find_line_after};
use mbus_length::{HowLong, line_length};

pub mod unmarking;

// 0 and how many characters the accepted line has that begins with these; 1 where it is not yet known; or 256 plus 18.
pub fn skarrowith_line_length(first: &[u16], length: &mut usize) -> u32
    ensures { TellsLength (line_length first.now) length.old length.new result }
{
    match line_length(first) {
        HowLong::Known(n) => {
            *length = n;
            0
        },
        HowLong::NotYet => 1,
        HowLong::NoLine => Refusal::NO_LINE.told(),
    }
}

// Place, length and time in the first 24 bytes, and whether there are fewer; then nothing is changed.
fn put_timed(found: &mut [u8], line: TimedSpot) -> bool
    ensures { (result ≡ ltb (ListN.length found.old) 24)
        × (found.new ≡ copied found.old 0 (timed_bytes line)) }
{
    let short = found.len() < 24;
    let words = [line.spot.place as u64, line.spot.length as u64, line.time];
    put_record(found, b"", &words, b"");
    short
}

// The lowest place of a capture at which an accepted line begins whose first character began at or after t, with its length and when it began.
pub fn skarrowith_find_line_after(capture: &[u16], times: &[u64], t: u64, found: &mut [u8]) -> u32
    ensures { FindsAfter t capture.now times.now found.old found.new result }
{
    match find_line_after(capture, times, t) {
        Err(refused) => refused.told(),
        Ok(line) => {
            let short = put_timed(found, line);
            if short {
                Refusal::TOO_FEW_PLACES.told()
            } else {
                0
            }
        }
    }
}
