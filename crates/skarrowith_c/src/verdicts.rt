// What became of a run: the replay of a position, verdicts, repeated readings and the picture.
ghost use Rattle.std.specs.Prelude.{[], ◌∷◌};
ghost use Rattle.base_lent.specs.Lent.{done, Leaves};
ghost use Rattle.host_replay.specs.Calls.{replay_for};
ghost use Rattle.run_verdicts.specs.Answering.{verdicts_in, verdicts_kept};
ghost use Rattle.host_verdicts.specs.Told.{verdict_into, GivesVerdict, verdicts_into, GivesVerdicts};
ghost use Rattle.host_verdicts.specs.Repeating.{RepeatsIn};
ghost use Rattle.host_picture.specs.Pictured.{DrawsIn};

// The error by C.1 in tenths of a percent.
#[unsafe(no_mangle)]
pub extern "C" fn skarrowith_replay_error(
    bundle: &[u8],
    position: u8,
    s1: u64,
    s2: u64,
    elapsed: u64,
    tenths: &mut [i64],
) -> u32
    ensures { Leaves done (λ e. e ∷ []) (replay_for bundle.now position s1 s2 elapsed tenths.old) tenths.old
        tenths.new result }
{
    host_replay::skarrowith_replay_error(bundle, position, s1, s2, elapsed, tenths)
}

// 0 and the record of row i's verdict, or 256 plus 21, 30 to 37 or 39.
#[unsafe(no_mangle)]
pub extern "C" fn skarrowith_verdict(bundle: &[u8], i: usize, verdict: &mut [u8]) -> u32
    ensures { GivesVerdict (verdict_into (verdicts_in bundle.now) i verdict.old) verdict.old result verdict.new }
{
    host_verdicts::skarrowith_verdict(bundle, i, verdict)
}

// 0, the records of all verdicts and how many there are, or 256 plus 30 to 37 or 21.
#[unsafe(no_mangle)]
pub extern "C" fn skarrowith_verdicts(bundle: &[u8], verdicts: &mut [u8], count: &mut usize) -> u32
    ensures { GivesVerdicts (verdicts_into (verdicts_in bundle.now) verdicts.old) verdicts.old count.old result
        verdicts.new count.new }
{
    host_verdicts::skarrowith_verdicts(bundle, verdicts, count)
}

// The same of columns and the bundle that their bodies lie in, or 256 plus 101, 34, 35 or 21.
#[unsafe(no_mangle)]
pub extern "C" fn skarrowith_contents_verdicts(
    contents: &[u8],
    bundle: &[u8],
    verdicts: &mut [u8],
    count: &mut usize,
) -> u32
    ensures { GivesVerdicts (verdicts_into (verdicts_kept contents.now bundle.now) verdicts.old) verdicts.old
        count.old result verdicts.new count.new }
{
    host_verdicts::skarrowith_contents_verdicts(contents, bundle, verdicts, count)
}

// 0, for each row 0 or 1 + the lowest earlier row with its reading, and the count of rows; or 256 plus 30 to 37 or 21.
#[unsafe(no_mangle)]
pub extern "C" fn skarrowith_repeats(bundle: &[u8], rows: &mut [u16], count: &mut usize) -> u32
    ensures { RepeatsIn bundle.now rows.old count.old result rows.new count.new }
{
    host_verdicts::repeats::skarrowith_repeats(bundle, rows, count)
}

// 0, the picture in the first places and how many bytes it has, or 256 plus 30 to 37 or 21.
#[unsafe(no_mangle)]
pub extern "C" fn skarrowith_picture(bundle: &[u8], out: &mut [u8], written: &mut usize) -> u32
    ensures { DrawsIn bundle.now out.old written.old result out.new written.new }
{
    host_picture::skarrowith_picture(bundle, out, written)
}
