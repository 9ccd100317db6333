// The sizes of a picture.
ghost use Rattle.std.specs.Prelude.{◌≡◌, List, ◌≤◌, length, count_by};
ghost use Rattle.bundle_check.specs.Records.{Recorded, records_of};
ghost use Rattle.run_picture.specs.Pages.{used_positions, scale_for, fields_for, page_for, Bounded, Used, Planned};

use crate::pace::paces_of;
use bundle_check::accepted::Accepted;
use bundle_rows::MOST_ROWS;

// How many rows and lanes there are; the bit times of a px; how many fields of 240 px, and their bit times; how wide the lanes are, where the numbers
// on their right stand and how wide the whole is; where the lanes end and how high the whole is; and the bit times that the lanes show.
#[derive(Clone, Copy)]
pub(crate) struct Page {
    pub(crate) rows: u64,
    pub(crate) lanes: u64,
    pub(crate) scale: u64,
    pub(crate) fields: u64,
    pub(crate) step: u64,
    pub(crate) wide: u64,
    pub(crate) right: u64,
    pub(crate) width: u64,
    pub(crate) bottom: u64,
    pub(crate) height: u64,
    pub(crate) span: u64,
}

// Whether each position has rows, in its place.
pub(crate) fn used_in(bundle: Accepted) -> [bool; 49]
    ensures { Used (records_of bundle.entry.bytes.now) result }
{
    let mut used = [false; 49];
    for i in 0..bundle.count {
        let row = bundle.row(i);
        let position = row.position as usize;
        used[position] = true;
    }
    used
}

// How many places are marked.
fn marked(used: &[bool]) -> usize
    ensures { result ≡ count_by (λ own. own) used.now }
{
    used.iter().filter(|own| **own).count()
}

// How many positions have rows.
fn used_positions(used: [bool; 49]) -> u64
    ensures { ((ks : List Recorded) → Used ks used → result ≡ length (used_positions ks)) × (result ≤ 48) }
{
    marked(&used[1..]) as u64
}

// The bit times of a px.
fn scale_for(end: u64) -> u64
    ensures { (result ≡ scale_for end) × (20 ≤ result) × (result ≤ 200) }
{
    if end < 600_000 {
        return 20;
    }
    if end < 1_500_000 {
        return 50;
    }
    if end < 3_000_000 {
        return 100;
    }
    200
}

// How many fields there are.
fn fields_for(scale: u64, end: u64) -> u64
    requires { (20 ≤ scale) × (scale ≤ 200) × (end ≤ 8589934592) }
    ensures { (result ≡ fields_for scale end) × (result ≤ 8589934597) }
{
    let step = 240 * scale;
    let whole = end / step;
    (whole + 1).max(5)
}

// The sizes for so many rows and lanes, of what ends at a place.
fn page_for(rows: u64, lanes: u64, end: u64) -> Page
    requires { (lanes ≤ 48) × (end ≤ 8589934592) }
    ensures { (result ≡ page_for rows lanes end) × Bounded result }
{
    let scale = scale_for(end);
    let fields = fields_for(scale, end);
    let step = 240 * scale;
    Page {
        rows,
        lanes,
        scale,
        fields,
        step,
        wide: 240 * fields,
        right: 240 * fields + 70,
        width: 240 * fields + 120,
        bottom: 24 * lanes + 96,
        height: 24 * lanes + 112,
        span: step * fields,
    }
}

// What the rows of an accepted bundle ask for beside where each is drawn: the sizes, and the positions that have rows.
#[derive(Clone, Copy)]
pub(crate) struct Plan {
    pub(crate) page: Page,
    pub(crate) used: [bool; 49],
}

// The plan, and in its place where each row is drawn.
pub(crate) fn plan_of(bundle: Accepted, starts: &mut [u64; MOST_ROWS]) -> Plan
    ensures { Planned (records_of bundle.entry.bytes.now) result starts.new }
{
    let used = used_in(bundle);
    let lanes = used_positions(used);
    let last = paces_of(bundle, starts);
    let end = last.busy.saturating_sub(last.cut);
    let page = page_for(bundle.count as u64, lanes, end);
    Plan { page, used }
}
