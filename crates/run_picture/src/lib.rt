// The picture of a run bundle, as SVG text.
#![tactic(auto)]

ghost use Rattle.std.specs.Prelude.{ℕ, ◌≡◌, ◌<◌, leb, length, get_or};
ghost use Rattle.bundle_check.specs.Records.{records_of};
ghost use Rattle.run_verdicts.specs.Shown.{in_places};
ghost use Rattle.run_verdicts.specs.Verdicts.{verdicts_of};
ghost use Rattle.run_picture.specs.Pictures.{picture_of};
ghost use Rattle.run_picture.specs.Shown.{Draws};

use base_rules::Refusal;
use bundle_check::accepted::Accepted;
use bundle_rows::MOST_ROWS;
use drawing::Scene;
use page::plan_of;
use run_verdicts::{Verdict, verdicts_in};
use words::words_of;

mod drawing;
mod elements;
mod pace;
mod page;
mod words;

// So many bytes are enough for every picture.
const PICTURE_MOST: usize = 262_144;

// Whether there is room for the picture. Where there is less than is always enough, the picture is drawn into no memory first, which tells how many bytes
// it has.
fn has_room(room: usize, scene: &Scene) -> bool
    ensures { result ≡ leb (length (picture_of scene.now.bundle.bytes.now)) room }
{
    if PICTURE_MOST <= room {
        return true;
    }
    let size = scene.put_picture(&mut [0u8; 1]);
    size <= room
}

// Draws an accepted bundle with its verdicts.
fn draw_rows<'a>(
    bundle: Accepted<'a>,
    verdicts: &'a [Verdict; MOST_ROWS],
    out: &mut [u8],
) -> Result<usize, Refusal>
    requires { ((i : ℕ) → get_or bundle.bytes.now i 0 < 256) × (verdicts.now ≡ in_places (verdicts_of (records_of bundle.bytes.now))) }
    ensures { Draws bundle.entry.bytes.now out.old result out.new }
{
    let mut starts = [0u64; MOST_ROWS];
    let plan = plan_of(bundle, &mut starts);
    let used = plan.used;
    let mut words = [0u32; MOST_ROWS];
    words_of(bundle, &mut words);
    let scene = Scene {
        bundle,
        page: plan.page,
        used,
        starts: &starts,
        words: &words,
        verdicts,
    };
    if has_room(out.len(), &scene) {
        return Ok(scene.put_picture(out));
    }
    Err(Refusal::TOO_FEW_PLACES)
}

// Draws a bundle, which is checked where it is judged: the picture stands in the first places of `out`, and its bytes are counted. Where it does not
// fit (21) or the bundle is refused (30 to 37), `out` stays as it was.
pub fn draw(bundle: &[u8], out: &mut [u8]) -> Result<usize, Refusal>
    ensures { Draws bundle.now out.old result out.new }
{
    let judged = verdicts_in(bundle)?;
    let verdicts = judged.verdicts;
    let accepted = Accepted {
        bytes: bundle,
        count: judged.count,
    };
    draw_rows(accepted, &verdicts, out)
}
