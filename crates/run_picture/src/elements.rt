// The elements of a picture: fixed texts with numbers in them.
// (Each function puts at a place of `out` and answers the place behind it, as `PutAt` says: a struct of both would be made for each text and taken
// apart by it.)
ghost use Rattle.std.specs.Prelude.{◌≡◌, ◌-◌, ◌≤◌, length, take, drop};
ghost use Rattle.text_filling.specs.Putting.{PutAt};
ghost use Rattle.bundle_check.specs.Records.{Recorded};
ghost use Rattle.run_picture.specs.Elements.{style_text, legend_text, opens_text, title_text, mark_text};
ghost use Rattle.run_picture.specs.Elements.{pauses_open_text, lane_text, verdict_text, wording_of, window_text, told_text, place_text, box_text};

use crate::page::Page;
use run_verdicts::Verdict;
use text_filling::{fill, put};
use text_stretches::{put_between, put_pair};

// The whole is so wide and so high.
pub(crate) fn put_opens(out: &mut [u8], at: usize, page: Page) -> usize
    ensures { PutAt (opens_text page) out.old at result out.new }
{
    let numbers = [page.width, page.height];
    fill(
        out,
        at,
        b"<svg xmlns='http://www.w3.org/2000/svg' width='%' height='%'>\n",
        &numbers,
    )
}

// The colours.
pub(crate) fn put_style(out: &mut [u8], at: usize) -> usize
    ensures { PutAt style_text out.old at result out.new }
{
    put(
        out,
        at,
        b"<style>\n\
        text{font:12px sans-serif;fill:#222}\n\
        rect{vector-effect:non-scaling-stroke}\n\
        .title{font-size:16px}\n\
        .grid{stroke:#ddd}\n\
        .pause{fill:#e8e8e8}\n\
        .window{fill:#fc3;fill-opacity:.45;pointer-events:none}\n\
        .wake{fill:#999;stroke:#999}\n\
        .first{fill:#0072b2;stroke:#0072b2}\n\
        .resend{fill:#56b4e9;stroke:#56b4e9}\n\
        .refused{fill:#000;stroke:#000}\n\
        .counts{fill:#009e73;stroke:#009e73}\n\
        .left-over{fill:#d42020;stroke:#d42020}\n\
        .late{fill:#e69f00;stroke:#e69f00}\n\
        .second{fill:#f0e442;stroke:#a89c00}\n\
        .damaged{fill:#cc79a7;stroke:#cc79a7}\n\
        .wrong-kind{fill:#6a3d9a;stroke:#6a3d9a}\n\
        .unasked{fill:#fff;stroke:#000}\n\
        </style>\n",
    )
}

// What each colour says.
pub(crate) fn put_legend(out: &mut [u8], at: usize) -> usize
    ensures { PutAt legend_text out.old at result out.new }
{
    put(
        out,
        at,
        b"<text x='60' y='46'>sent</text>\n\
        <rect class='wake' x='110' y='36' width='24' height='10'/><text x='140' y='46'>wake-up</text>\n\
        <rect class='first' x='230' y='36' width='24' height='10'/><text x='260' y='46'>first send</text>\n\
        <rect class='resend' x='350' y='36' width='24' height='10'/><text x='380' y='46'>resend</text>\n\
        <rect class='refused' x='470' y='36' width='24' height='10'/><text x='500' y='46'>refused</text>\n\
        <rect class='window' x='590' y='36' width='24' height='10'/><text x='620' y='46'>reply window</text>\n\
        <rect class='pause' x='710' y='36' width='24' height='10'/><text x='740' y='46'>pause, cut short</text>\n\
        <text x='60' y='64'>heard</text>\n\
        <rect class='counts' x='110' y='54' width='24' height='10'/><text x='140' y='64'>counts</text>\n\
        <rect class='left-over' x='230' y='54' width='24' height='10'/><text x='260' y='64'>left over</text>\n\
        <rect class='late' x='350' y='54' width='24' height='10'/><text x='380' y='64'>late</text>\n\
        <rect class='second' x='470' y='54' width='24' height='10'/><text x='500' y='64'>second</text>\n\
        <rect class='damaged' x='590' y='54' width='24' height='10'/><text x='620' y='64'>damaged</text>\n\
        <rect class='wrong-kind' x='710' y='54' width='24' height='10'/><text x='740' y='64'>wrong kind</text>\n\
        <rect class='unasked' x='830' y='54' width='24' height='10'/><text x='860' y='64'>not asked for</text>\n",
    )
}

// A white ground, and how much there is to see.
pub(crate) fn put_title(out: &mut [u8], at: usize, page: Page) -> usize
    ensures { PutAt (title_text page) out.old at result out.new }
{
    let numbers = [
        page.width,
        page.height,
        page.rows,
        page.lanes,
        page.scale / 10,
        page.scale % 10,
    ];
    fill(
        out,
        at,
        b"<rect width='%' height='%' fill='#fff'/>\n\
        <text class='title' x='60' y='22'>Rows: %, positions: %, a mark every %.% s</text>\n",
        &numbers,
    )
}

// A mark at x px, for a time.
pub(crate) fn put_mark(out: &mut [u8], at: usize, bottom: u64, x: u64, time: u64) -> usize
    ensures { PutAt (mark_text bottom x time) out.old at result out.new }
{
    let numbers = [x, bottom, x, time / 2400, time % 2400 / 240];
    fill(
        out,
        at,
        b"<path class='grid' d='M% 90V%'/><text x='%' y='86' text-anchor='middle'>%.% s</text>\n",
        &numbers,
    )
}

// Behind all lanes, the pauses.
pub(crate) fn put_pauses_open(out: &mut [u8], at: usize, page: Page) -> usize
    ensures { PutAt (pauses_open_text page) out.old at result out.new }
{
    let high = page.bottom.saturating_sub(96);
    let numbers = [page.wide, high, page.span];
    fill(
        out,
        at,
        b"<svg x='60' y='96' width='%' height='%' viewBox='0 0 % 1' preserveAspectRatio='none'>\n",
        &numbers,
    )
}

// A lane at y, before its rows.
pub(crate) fn put_lane_open(out: &mut [u8], at: usize, page: Page, y: u64, position: u8) -> usize
    requires { y ≤ 4096 }
    ensures { PutAt (lane_text page y position) out.old at result out.new }
{
    let named = position as u64;
    let below = y + 16;
    let numbers = [
        below, named, page.right, below, named, y, page.wide, y, page.wide, page.span,
    ];
    fill(
        out,
        at,
        b"<text x='50' y='%' text-anchor='end'>%</text><text x='%' y='%'>%</text><path class='grid' d='M60 %h%'/>\n\
        <svg x='60' y='%' width='%' height='24' viewBox='0 0 % 24' preserveAspectRatio='none'>\n",
        &numbers,
    )
}

// The place of a verdict's words among all of them, and the number that it has.
#[derive(Clone, Copy)]
pub(crate) struct Wording {
    pub(crate) place: usize,
    pub(crate) number: u64,
}

fn wording_of(verdict: Verdict) -> Wording
    ensures { result ≡ wording_of verdict }
{
    match verdict {
        Verdict::Wake => Wording {
            place: 0,
            number: 0,
        },
        Verdict::First => Wording {
            place: 1,
            number: 0,
        },
        Verdict::Resend => Wording {
            place: 2,
            number: 0,
        },
        Verdict::Refused(n) => Wording {
            place: 3,
            number: n as u64,
        },
        Verdict::Counts => Wording {
            place: 4,
            number: 0,
        },
        Verdict::LeftOver => Wording {
            place: 5,
            number: 0,
        },
        Verdict::Late => Wording {
            place: 6,
            number: 0,
        },
        Verdict::Second => Wording {
            place: 7,
            number: 0,
        },
        Verdict::Damaged(n) => Wording {
            place: 8,
            number: n as u64,
        },
        Verdict::WrongKind => Wording {
            place: 9,
            number: 0,
        },
        Verdict::Unasked => Wording {
            place: 10,
            number: 0,
        },
    }
}

// Puts a part of a text.
pub(crate) fn put_part(out: &mut [u8], at: usize, all: &[u8], from: usize, to: usize) -> usize
    requires { (from ≤ to) × (to ≤ length all.now) }
    ensures { PutAt (take (to - from) (drop from all.now)) out.old at result out.new }
{
    put(out, at, &all[from..to])
}

// Before the words of a send, its reply window up to where they go on.
fn put_window(out: &mut [u8], at: usize, place: usize, end: u64) -> usize
    ensures { PutAt (window_text place end) out.old at result out.new }
{
    let sent = (place == 1) | (place == 2);
    if sent {
        return put_between(out, at, b"<rect class='window' x='", end, b"");
    }
    at
}

// Behind the words of a refusal and of damage, the number.
fn put_told(out: &mut [u8], at: usize, place: usize, number: u64) -> usize
    ensures { PutAt (told_text place number) out.old at result out.new }
{
    let numbered = (place == 3) | (place == 8);
    if numbered {
        return put_between(out, at, b"", number, b": ");
    }
    at
}

// The colour of a row and the first words of its hover text, with the reply window of a send that ends at a place.
pub(crate) fn put_verdict(out: &mut [u8], at: usize, verdict: Verdict, end: u64) -> usize
    ensures { PutAt (verdict_text verdict end) out.old at result out.new }
{
    let wording = wording_of(verdict);
    let k = wording.place;
    let edges = [0usize, 32, 102, 169, 206, 239, 278, 307, 340, 375, 416, 457];
    let from = edges[k];
    let to = edges[k + 1];
    let opened = put_window(out, at, k, end);
    let worded = put_part(
        out,
        opened,
        b"<g class='wake'><title>wake-up: \
        ' y='1' width='450' height='22'/>\n<g class='first'><title>first send: \
        ' y='1' width='450' height='22'/>\n<g class='resend'><title>resend: \
        <g class='refused'><title>refused by \
        <g class='counts'><title>counts: \
        <g class='left-over'><title>left over: \
        <g class='late'><title>late: \
        <g class='second'><title>second: \
        <g class='damaged'><title>damaged, \
        <g class='wrong-kind'><title>wrong kind: \
        <g class='unasked'><title>not asked for: ",
        from,
        to,
    );
    put_told(out, worded, k, wording.number)
}

// Where and when it was sent or heard.
pub(crate) fn put_place(out: &mut [u8], at: usize, direction: u8, position: u8, time: u32) -> usize
    ensures { PutAt (place_text direction position time) out.old at result out.new }
{
    let named = position as u64;
    let began = time as u64;
    let sent = direction == 0;
    if sent {
        return put_pair(out, at, b"position ", named, b", sent at ", began, b", ");
    }
    put_pair(out, at, b"position ", named, b", heard at ", began, b", ")
}

// Its box.
pub(crate) fn put_box(out: &mut [u8], at: usize, direction: u8, x: u64, width: u64) -> usize
    ensures { PutAt (box_text direction x width) out.old at result out.new }
{
    let sent = direction == 0;
    if sent {
        return put_pair(
            out,
            at,
            b"</title><rect x='",
            x,
            b"' y='3' width='",
            width,
            b"' height='8'/></g>\n",
        );
    }
    put_pair(
        out,
        at,
        b"</title><rect x='",
        x,
        b"' y='13' width='",
        width,
        b"' height='8'/></g>\n",
    )
}
