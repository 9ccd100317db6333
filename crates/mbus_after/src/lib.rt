// The first accepted line of a capture that began at or after a time.
#![tactic(auto)]

ghost use Rattle.std.specs.Prelude.{◌≡◌, ◌+◌, ◌≤◌, length, drop};
ghost use Rattle.base_rules.specs.Shown.{shown};
ghost use Rattle.mbus_after.specs.After.{early_first, began_since, find_from, find_after};

use base_rules::Refusal;
use mbus_search::{Spot, find_line};

// Where a line begins in a capture, its length, and when it began.
#[derive(Clone, Copy)]
pub struct TimedSpot {
    pub spot: Spot,
    pub time: u64,
}

// How many of the first times are before t.
fn early_first(times: &[u64], t: u64) -> usize
    ensures { (result ≤ length times.now) × (result ≡ early_first t times.now) }
{
    for (i, &time) in times.iter().enumerate() {
        if t <= time {
            return i;
        }
    }
    times.len()
}

// The lowest place from one on whose time is not before t.
fn next_since(times: &[u64], from: usize, t: u64) -> usize
    ensures { result ≡ from + early_first t (drop from times.now) }
{
    if times.len() <= from {
        return from;
    }
    from + early_first(&times[from..], t)
}

// The character at a place began at or after t. One without a time began never.
fn began_since(times: &[u64], place: usize, t: u64) -> bool
    ensures { result ≡ began_since t place times.now }
{
    place < times.len() && t <= times[place]
}

// The first accepted line from a place on.
fn find_from(capture: &[u16], place: usize) -> Result<Spot, Refusal>
    ensures { result ≡ shown (find_from place capture.now) }
{
    if capture.len() < place {
        return Err(Refusal::NO_LINE);
    }
    let further = find_line(&capture[place..])?;
    Ok(Spot {
        place: place + further.place,
        length: further.length,
    })
}

// The lowest place at which an accepted line begins whose first character began at or after t. Places whose time is before t are passed
// over unread, and no place is searched twice. (The next place is behind what was found, so no iterator has the steps.)
pub fn find_line_after(capture: &[u16], times: &[u64], t: u64) -> Result<TimedSpot, Refusal>
    ensures { result ≡ shown (find_after t capture.now times.now) }
{
    let mut place = next_since(times, 0, t);
    while place < capture.len() {
        let spot = find_from(capture, place)?;
        let began = began_since(times, spot.place, t);
        if began {
            return Ok(TimedSpot {
                spot,
                time: times[spot.place],
            });
        }
        place = next_since(times, spot.place + 1, t);
    }
    Err(Refusal::NO_LINE)
}
