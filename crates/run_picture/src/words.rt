// The word for each line as a number, so that a line is read once and its word put where the picture is measured and where it is drawn.
ghost use Rattle.std.specs.Prelude.{◌≡◌, ◌<◌};
ghost use Rattle.base_characters.specs.Characters.{chars};
ghost use Rattle.text_filling.specs.Putting.{PutAt};
ghost use Rattle.run_counting.specs.Ears.{row_in};
ghost use Rattle.run_listing.specs.Listings.{word_for, word_of};
ghost use Rattle.run_picture.specs.Words.{numbered_word, Worded};

use crate::elements::put_part;
use bundle_check::accepted::Accepted;
use bundle_rows::MOST_ROWS;
use mbus_rules::{Outline, Request};
use run_listing::line_column::{Column, column_of};
use text_stretches::put_between;

// The number for what reading answers.
fn number_for(outline: Outline) -> u32
    ensures { numbered_word result ≡ word_for outline }
{
    match outline {
        Outline::Refused(n) => n as u32 + 6,
        Outline::Ack => 1,
        Outline::Asks(request) => match request {
            Request::Read(_) => 2,
            Request::Enter(_, _) => 3,
            Request::Leave(_) => 4,
        },
        Outline::Data(_) => 5,
    }
}

// The number for a body.
fn number_of(body: &[u8]) -> u32
    ensures { numbered_word result ≡ word_of (chars body.now) }
{
    match column_of(body) {
        Column::Wake => 0,
        Column::Reads(outline) => number_for(outline),
    }
}

// The number for row i of an accepted bundle.
fn number_in(bundle: Accepted, i: usize) -> u32
    requires { i < bundle.count }
    ensures { numbered_word result ≡ word_of (chars (row_in bundle.entry.bytes.now i).body) }
{
    let row = bundle.row(i);
    let from = row.offset as usize;
    let to = from + row.length as usize;
    number_of(&bundle.bytes[from..to])
}

// The numbers for all rows, each in its place. (Answered, the places would stand on the stack twice. Over them it would be
// `iter_mut().enumerate().take(count)`, and each row is found by its number all the same.)
pub(crate) fn words_of(bundle: Accepted, words: &mut [u32; MOST_ROWS])
    ensures { Worded bundle.entry.bytes.now bundle.entry.count words.new }
{
    for i in 0..bundle.count {
        let word = number_in(bundle, i);
        words[i] = word;
    }
}

// Puts the word of a number at a place, and answers the place behind it, as `PutAt` says and as `elements` does.
pub(crate) fn put_numbered(out: &mut [u8], at: usize, word: u32) -> usize
    ensures { PutAt (numbered_word word) out.old at result out.new }
{
    if 6 <= word {
        return put_between(out, at, b"refused ", (word - 6) as u64, b"");
    }
    let k = word as usize;
    let edges = [0usize, 4, 7, 11, 16, 21, 25];
    let from = edges[k];
    let to = edges[k + 1];
    put_part(out, at, b"wakeackreadenterleavedata", from, to)
}
