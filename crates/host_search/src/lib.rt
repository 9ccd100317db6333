// The search of a capture for C: include/skarrowith.h says how.
#![tactic(auto)]

ghost use Rattle.std.specs.Prelude.{◌≡◌, ltb};
ghost use Rattle.std.proofs.Math.ListN;
ghost use Rattle.base_lent.specs.Copying.{copied};
ghost use Rattle.host_search.specs.Finding.{spot_bytes, Finds};

use base_numbers::put_record;
use base_rules::Refusal;
use mbus_search::{Spot, find_line};

// Place and length in the first 16 bytes, and whether there are fewer; then nothing is changed.
pub fn put_spot(found: &mut [u8], spot: Spot) -> bool
    ensures { (result ≡ ltb (ListN.length found.old) 16)
        × (found.new ≡ copied found.old 0 (spot_bytes spot)) }
{
    let short = found.len() < 16;
    let words = [spot.place as u64, spot.length as u64];
    put_record(found, b"", &words, b"");
    short
}

// The lowest place of a capture at which an accepted line begins, with its length, both in characters.
pub fn skarrowith_find_line(capture: &[u16], found: &mut [u8]) -> u32
    ensures { Finds capture.now found.old found.new result }
{
    match find_line(capture) {
        Err(refused) => refused.told(),
        Ok(spot) => {
            let short = put_spot(found, spot);
            if short {
                Refusal::TOO_FEW_PLACES.told()
            } else {
                0
            }
        }
    }
}
