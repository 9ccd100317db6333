// The listing of a run bundle: its bytes, as document 01 words them.
#![tactic(auto)]

ghost use Rattle.std.specs.Prelude.{◌≡◌, ◌≤◌, length, take};
ghost use Rattle.base_characters.specs.Characters.{chars};
ghost use Rattle.text_filling.specs.Putting.{PutAt};
ghost use Rattle.run_listing.specs.Listings.{word_of, listing_of};
ghost use Rattle.run_listing.specs.Shown.{Lists};

use base_lent::{lay, store};
use base_rules::Refusal;
use bundle_check::accepted::Accepted;
use bundle_check::check;
use lines::{put_rows, refused, word_of};
use text_filling::put;
use texts::with;

pub mod line_column;
mod lines;
mod texts;

// Puts the word for a body from a place on, as far as there is room, and answers the place behind it. (By two parameters, as `text_filling::put`: PutAt,
// which demands/specs/Settled names, tells them apart.)
pub fn put_word(out: &mut [u8], at: usize, body: &[u8]) -> usize
    ensures { PutAt (word_of (chars body.now)) out.old at result out.new }
{
    let word = word_of(body);
    let size = word.size;
    let bytes = word.bytes;
    put(out, at, &bytes[..size])
}

// The first line and 512 lines of 48 bytes fit; no listing is as long.
const MOST_TEXT: usize = 24_605;

// The listing stands in the first places; the answer is how many bytes it has.
fn write_listing(bundle: &[u8], out: &mut [u8; MOST_TEXT]) -> usize
    ensures { (result ≤ length out.new) × (result ≡ length (listing_of bundle.now))
        × (take result out.new ≡ listing_of bundle.now) }
{
    match check(bundle) {
        Ok(count) => {
            lay(out, 0, b"position,direction,time,line\n");
            let bundle = Accepted {
                bytes: bundle,
                count,
            };
            put_rows(out, 29, bundle)
        },
        Err(refusal) => {
            let line = with(refused(refusal.0), b"\n");
            let size = line.size;
            let bytes = line.bytes;
            lay(out, 0, &bytes[..size]);
            size
        },
    }
}

// Lists a bundle: the text stands in the first places of `out`, and the answer is how many bytes it has. Where it does not fit, `out` stays as it was.
pub fn list(bundle: &[u8], out: &mut [u8]) -> Result<usize, Refusal>
    ensures { Lists bundle.now out.old result out.new }
{
    let mut text = [0u8; MOST_TEXT];
    let size = write_listing(bundle, &mut text);
    if store(&text[..size], out) {
        return Err(Refusal::TOO_FEW_PLACES);
    }
    Ok(size)
}
