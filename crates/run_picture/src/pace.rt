// Where times are drawn: a pause in which nothing was sent, heard or waited for is cut short.
ghost use Rattle.std.specs.Prelude.{◌≡◌, ◌+◌, ◌-◌, ◌*◌, ◌≤◌, ◌<◌, length};
ghost use Rattle.bundle_rows.specs.Rows.{unchecked_row};
ghost use Rattle.bundle_check.specs.Records.{records_of};
ghost use Rattle.bundle_check.specs.Walks.{end_of};
ghost use Rattle.run_counting.specs.Ears.{row_in};
ghost use Rattle.run_picture.specs.Timing.{line_time, paced_by, paced, unpaced, Steady, Placed, Reached};

use bench_clock::Clock;
use bundle_check::accepted::Accepted;
use bundle_rows::{MOST_ROWS, unchecked_row};

// What is left out so far; until when something was sent, heard or waited for; and where the last row is drawn. All in bit times.
#[derive(Clone, Copy)]
pub(crate) struct Pace {
    pub(crate) cut: u64,
    pub(crate) busy: u64,
    pub(crate) start: u64,
}

// Before the first row.
pub(crate) fn unpaced() -> Pace
    ensures { result ≡ unpaced }
{
    Pace {
        cut: 0,
        busy: 0,
        start: 0,
    }
}

// The bit times of the line of row i, whose body lies in the bundle. (Of a bundle that is `Accepted` it would ask for `i < count` in place of that.)
pub(crate) fn line_time(bundle: &[u8], i: usize) -> u64
    requires { (unchecked_row bundle.now i).offset + (unchecked_row bundle.now i).length ≤ length bundle.now }
    ensures { (result ≡ line_time (row_in bundle.now i)) × (result ≤ 360437) }
{
    let row = unchecked_row(bundle, i);
    Clock::CHARACTER * (row.length as u64 / 2)
}

// After a row that begins at a time and takes so many bit times.
fn paced_by(pace: Pace, time: u32, width: u64) -> Pace
    requires { (pace.cut ≤ 4294967296 * 512) × (pace.busy ≤ 8589934592) × (width ≤ 360437) }
    ensures { (result ≡ paced_by pace time width) × (result.cut ≤ pace.cut + 4294967296) × (result.busy ≤ 8589934592)
        × (result.start ≤ 4294967296) }
{
    let t = time as u64;
    let pause = t.saturating_sub(pace.busy);
    let rest = pause.saturating_sub(120);
    let cut = pace.cut + rest / 240 * 240;
    let busy = pace.busy.max(t + width + Clock::REPLY);
    let start = t.saturating_sub(cut);
    Pace { cut, busy, start }
}

// After row i of an accepted bundle.
pub(crate) fn paced(pace: Pace, bundle: Accepted, i: usize) -> Pace
    requires { (i < bundle.count) × Steady i pace }
    ensures { (result ≡ paced pace (row_in bundle.entry.bytes.now i)) × Steady (i + 1) result }
{
    let row = bundle.row(i);
    let width = line_time(bundle.bytes, i);
    paced_by(pace, row.time, width)
}

// The one walk that paces the rows of an accepted bundle: where each is drawn goes into its place, and the pace after all is answered. (Answered
// beside it, the places would stand on the stack twice. Over the places it would be `iter_mut().enumerate().take(count)`, and each row is found by its
// number all the same.)
pub(crate) fn paces_of(bundle: Accepted, starts: &mut [u64; MOST_ROWS]) -> Pace
    ensures { (result ≡ end_of paced unpaced (records_of bundle.entry.bytes.now)) × Steady bundle.entry.count result
        × Placed (records_of bundle.entry.bytes.now) starts.new }
{
    let mut pace = unpaced();
    for i in 0..bundle.count {
        let next = paced(pace, bundle, i);
        starts[i] = next.start;
        pace = next;
    }
    pace
}

// The row that a place of the picture stands before, and the pace up to there.
#[derive(Clone, Copy)]
pub(crate) struct Stand {
    pub(crate) row: usize,
    pub(crate) pace: Pace,
}

// On from a row to the one that a place stands before.
pub(crate) fn reach(bundle: Accepted, from: Stand, place: u64) -> Stand
    requires { (from.row ≤ bundle.count) × Steady from.row from.pace }
    ensures { (result.row ≤ bundle.entry.count) × Steady result.row result.pace × Reached (records_of bundle.entry.bytes.now) place from result }
{
    let mut pace = from.pace;
    for row in from.row..bundle.count {
        let next = paced(pace, bundle, row);
        let past = place < next.start;
        if past {
            return Stand { row, pace };
        }
        pace = next;
    }
    Stand {
        row: bundle.count,
        pace,
    }
}
