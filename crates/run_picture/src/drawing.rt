// The picture put together: head, pauses, marks, and the lanes with their rows.
// (Each function puts at a place of `out` and answers the place behind it, as `PutAt` says: a struct of both would be made for each text and taken
// apart by it.)
ghost use Rattle.std.specs.Prelude.{◌≡◌, get_or, ◌++◌, ◌+◌, ◌≤◌, ◌<◌};
ghost use Rattle.base_characters.specs.Characters.{chars};
ghost use Rattle.text_filling.specs.Putting.{PutAt};
ghost use Rattle.text_filling.specs.Texts.{text};
ghost use Rattle.bundle_check.specs.Records.{records_of};
ghost use Rattle.run_counting.specs.Ears.{row_in};
ghost use Rattle.run_listing.specs.Listings.{word_of};
ghost use Rattle.run_picture.specs.Timing.{unpaced, Placed};
ghost use Rattle.run_picture.specs.Pages.{used_positions, Bounded, Used};
ghost use Rattle.run_picture.specs.Elements.{pause_text, pauses_open_text, lane_text, row_drawn};
ghost use Rattle.run_picture.specs.Shown.{Drawable};
ghost use Rattle.run_verdicts.specs.declared.Verdict.TheVariants.{Unasked};
ghost use Rattle.run_picture.specs.Pictures.{head_text, pauses_drawn, marks_drawn, rows_drawn, lane_drawn, lanes_drawn, picture_with};

use crate::elements::{
    put_box, put_lane_open, put_legend, put_mark, put_opens, put_pauses_open, put_place, put_style,
    put_title, put_verdict,
};
use crate::pace::{Pace, Stand, line_time, paced, reach, unpaced};
use crate::page::Page;
use crate::words::put_numbered;
use bundle_check::accepted::Accepted;
use bundle_rows::MOST_ROWS;
use run_verdicts::Verdict;
use text_filling::{fill, put};

// The head: sizes, colours, title and legend.
fn put_head(out: &mut [u8], at: usize, page: Page) -> usize
    ensures { PutAt (head_text page) out.old at result out.new }
{
    let opened = put_opens(out, at, page);
    let styled = put_style(out, opened);
    let titled = put_title(out, styled, page);
    put_legend(out, titled)
}

// A pause before a row that begins at a time, where it is cut short.
fn put_pause(out: &mut [u8], at: usize, before: Pace, after: Pace, time: u32) -> usize
    ensures { PutAt (pause_text before after time) out.old at result out.new }
{
    let short = before.cut < after.cut;
    if short {
        let x = before.busy.saturating_sub(before.cut);
        let width = after.start.saturating_sub(x);
        let numbers = [x, width, before.busy, time as u64];
        return fill(
            out,
            at,
            b"<rect class='pause' x='%' width='%' height='1'><title>nothing from % to %</title></rect>\n",
            &numbers,
        );
    }
    at
}

// The rows of an accepted bundle and what is known of them before they are drawn: the sizes, which positions have rows, where each row is drawn, the
// number of its word, and its verdict. (Without a heap the last three have a place for each of the most rows, and the bundle says how many count.)
#[derive(Clone, Copy)]
pub(crate) struct Scene<'a> {
    pub(crate) bundle: Accepted<'a>,
    pub(crate) page: Page,
    pub(crate) used: [bool; 49],
    pub(crate) starts: &'a [u64],
    pub(crate) words: &'a [u32],
    pub(crate) verdicts: &'a [Verdict; MOST_ROWS],
    ghost known: { Drawable bundle.bytes.now bundle.count page used starts.now words.now verdicts.now },
}

impl Scene<'_> {
    // The pauses before all rows.
    fn put_pauses(&self, out: &mut [u8], at: usize) -> usize
        ensures { PutAt (pauses_drawn unpaced (records_of self.now.bundle.bytes.now)) out.old at result out.new }
    {
        let bundle = self.bundle;
        let mut pace = unpaced();
        let mut next = at;
        for i in 0..bundle.count {
            let row = bundle.row(i);
            let after = paced(pace, bundle, i);
            next = put_pause(out, next, pace, after, row.time);
            pace = after;
        }
        next
    }

    // The pauses, behind all lanes.
    fn put_behind(&self, out: &mut [u8], at: usize) -> usize
        ensures { PutAt (pauses_open_text self.now.page ++ (pauses_drawn unpaced (records_of self.now.bundle.bytes.now) ++ text "</svg>\n")) out.old at result
            out.new }
    {
        let opened = put_pauses_open(out, at, self.page);
        let drawn = self.put_pauses(out, opened);
        put(out, drawn, b"</svg>\n")
    }

    // A mark at each end of a field; each goes on from the rows of the one before it.
    fn put_marks(&self, out: &mut [u8], at: usize) -> usize
        ensures { PutAt (marks_drawn self.now.page (records_of self.now.bundle.bytes.now) (self.now.page.fields + 1) 60 0) out.old at result out.new }
    {
        let bundle = self.bundle;
        let page = self.page;
        let marks = page.fields + 1;
        let mut next = at;
        let mut x: u64 = 60;
        let mut place: u64 = 0;
        let mut at_row = Stand {
            row: 0,
            pace: unpaced(),
        };
        for _mark in 0..marks {
            let here = reach(bundle, at_row, place);
            let pace = here.pace;
            next = put_mark(out, next, page.bottom, x, place + pace.cut);
            at_row = here;
            x += 240;
            place += page.step;
        }
        next
    }

    // Row i with its verdict and its word, in its place.
    fn put_row(&self, out: &mut [u8], at: usize, i: usize) -> usize
        requires { i < self.now.bundle.count }
        ensures { PutAt (row_drawn (row_in self.now.bundle.bytes.now i) (get_or self.now.verdicts.now i Unasked) (get_or self.now.starts.now i 0)) out.old at
            result out.new }
    {
        let row = self.bundle.row(i);
        let width = line_time(self.bundle.bytes, i);
        let x = self.starts[i];
        let coloured = put_verdict(out, at, self.verdicts[i], x + width);
        let placed = put_place(out, coloured, row.direction, row.position, row.time);
        let named = put_numbered(out, placed, self.words[i]);
        put_box(out, named, row.direction, x, width)
    }

    // The rows of a position.
    fn put_rows(&self, out: &mut [u8], at: usize, position: u8) -> usize
        ensures { PutAt (rows_drawn position self.now.verdicts.now unpaced 0 (records_of self.now.bundle.bytes.now)) out.old at result out.new }
    {
        let mut next = at;
        for i in 0..self.bundle.count {
            let row = self.bundle.row(i);
            let other = row.position != position;
            if other {
                continue;
            }
            next = self.put_row(out, next, i);
        }
        next
    }

    // A lane at y.
    fn put_lane(&self, out: &mut [u8], at: usize, y: u64, position: u8) -> usize
        requires { y ≤ 4096 }
        ensures { PutAt (lane_drawn self.now.page self.now.verdicts.now (records_of self.now.bundle.bytes.now) y position) out.old at result out.new }
    {
        let opened = put_lane_open(out, at, self.page, y, position);
        let drawn = self.put_rows(out, opened, position);
        put(out, drawn, b"</svg>\n")
    }

    // A lane for each position that has rows. (The number of the position is drawn: over `used` it would be `iter().enumerate().skip(1)` and a cast.)
    fn put_lanes(&self, out: &mut [u8], at: usize) -> usize
        ensures { PutAt (lanes_drawn self.now.page self.now.verdicts.now (records_of self.now.bundle.bytes.now) 96 (used_positions (records_of self.now.bundle.bytes.now)))
            out.old at result out.new }
    {
        let mut next = at;
        let mut y: u64 = 96;
        for position in 1..49 {
            let unused = !self.used[position as usize];
            if unused {
                continue;
            }
            next = self.put_lane(out, next, y, position);
            y += 24;
        }
        next
    }

    // The marks, the lanes, and the end.
    fn put_front(&self, out: &mut [u8], at: usize) -> usize
        ensures { PutAt (marks_drawn self.now.page (records_of self.now.bundle.bytes.now) (self.now.page.fields + 1) 60 0
            ++ (lanes_drawn self.now.page self.now.verdicts.now (records_of self.now.bundle.bytes.now) 96 (used_positions (records_of self.now.bundle.bytes.now)) ++ text "</svg>\n"))
            out.old at result out.new }
    {
        let marked = self.put_marks(out, at);
        let drawn = self.put_lanes(out, marked);
        put(out, drawn, b"</svg>\n")
    }

    // The whole picture.
    pub(crate) fn put_picture(&self, out: &mut [u8]) -> usize
        ensures { PutAt (picture_with self.now.page self.now.verdicts.now (records_of self.now.bundle.bytes.now)) out.old 0 result out.new }
    {
        let headed = put_head(out, 0, self.page);
        let behind = self.put_behind(out, headed);
        self.put_front(out, behind)
    }
}
