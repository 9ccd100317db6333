// The verdicts of the rows of a run for the bench host, a C program: include/skarrowith.h says how its functions are called.
#![tactic(auto)]

ghost use Rattle.std.specs.Prelude.{◌≡◌, ◌≤◌, ◌*◌, length};
ghost use Rattle.base_rules.specs.Shown.{shown};
ghost use Rattle.run_verdicts.specs.Answering.{verdicts_in, verdicts_kept};
ghost use Rattle.host_verdicts.specs.Told.{answer_shown, verdict_in, verdicts_into, verdict_into, InFull, PutsVerdicts};
ghost use Rattle.host_verdicts.specs.Told.{GivesVerdicts, GivesVerdict};

use base_lent::{lay, store};
use base_rules::Refusal;
use record::{VERDICT_BYTES, record_of};
use run_verdicts::kept::verdicts_kept;
use run_verdicts::{Verdict, Verdicts, verdicts_in};

mod record;
pub mod repeats;

// The records of the verdicts, one behind the other.
fn put_records(verdicts: &[Verdict], out: &mut [u8])
    requires { 4 * length verdicts.now ≤ length out.old }
    ensures { PutsVerdicts verdicts.now out.old out.new }
{
    for (i, &verdict) in verdicts.iter().enumerate() {
        let bytes = record_of(verdict);
        lay(out, 4 * i, &bytes);
    }
}

// The records of all verdicts in the first places, and how many there are, where there is room for them.
fn give(judged: Result<Verdicts, Refusal>, out: &mut [u8], count: &mut usize) -> u32
    requires { InFull judged }
    ensures { GivesVerdicts (verdicts_into (answer_shown judged) out.old) out.old count.old result out.new
        count.new }
{
    match judged {
        Ok(all) => {
            let rows = all.count;
            let short = out.len() < VERDICT_BYTES * rows;
            if short {
                return Refusal::TOO_FEW_PLACES.told();
            }
            put_records(&all.verdicts[..rows], out);
            *count = rows;
            0
        },
        Err(unjudged) => unjudged.told(),
    }
}

// The verdict at a place, where there is one; else refused by 30 to 37 or 39.
fn found(judged: Result<Verdicts, Refusal>, i: usize) -> Result<Verdict, Refusal>
    requires { InFull judged }
    ensures { result ≡ shown (verdict_in (answer_shown judged) i) }
{
    match judged {
        Ok(all) => {
            let none = all.count <= i;
            if none {
                return Err(Refusal::BUNDLE_NO_SUCH_ROW);
            }
            let verdicts = all.verdicts;
            Ok(verdicts[i])
        },
        Err(unjudged) => Err(unjudged),
    }
}

// 0 and the record of row i's verdict, or 256 plus 21, 30 to 37 or 39.
pub fn skarrowith_verdict(bundle: &[u8], i: usize, verdict: &mut [u8]) -> u32
    ensures { GivesVerdict (verdict_into (verdicts_in bundle.now) i verdict.old) verdict.old result verdict.new }
{
    let short = verdict.len() < VERDICT_BYTES;
    if short {
        return Refusal::TOO_FEW_PLACES.told();
    }
    match found(verdicts_in(bundle), i) {
        Ok(v) => {
            let bytes = record_of(v);
            store(&bytes, verdict);
            0
        },
        Err(refused) => refused.told(),
    }
}

// 0, the records of all verdicts and how many there are, or 256 plus 30 to 37 or 21.
pub fn skarrowith_verdicts(bundle: &[u8], verdicts: &mut [u8], count: &mut usize) -> u32
    ensures { GivesVerdicts (verdicts_into (verdicts_in bundle.now) verdicts.old) verdicts.old count.old result
        verdicts.new count.new }
{
    give(verdicts_in(bundle), verdicts, count)
}

// The same of columns and the bundle that their bodies lie in, or 256 plus 101, 34, 35 or 21.
pub fn skarrowith_contents_verdicts(
    contents: &[u8],
    bundle: &[u8],
    verdicts: &mut [u8],
    count: &mut usize,
) -> u32
    ensures { GivesVerdicts (verdicts_into (verdicts_kept contents.now bundle.now) verdicts.old) verdicts.old
        count.old result verdicts.new count.new }
{
    give(verdicts_kept(contents, bundle), verdicts, count)
}
