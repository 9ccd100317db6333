// The replay of a run bundle for the bench host, a C program: include/skarrowith.h says how its function is called.
#![tactic(auto)]

ghost use Rattle.std.specs.Prelude.{[], ◌∷◌};
ghost use Rattle.base_lent.specs.Lent.{done, Leaves};
ghost use Rattle.host_replay.specs.Calls.{replay_for};

use base_lent::handing::hand;
use base_rules::Refusal;
use run_replay::replay;

// The error by C.1 in tenths of a percent.
pub fn skarrowith_replay_error(
    bundle: &[u8],
    position: u8,
    s1: u64,
    s2: u64,
    elapsed: u64,
    tenths: &mut [i64],
) -> u32
    ensures { Leaves done (λ e. e ∷ []) (replay_for bundle.now position s1 s2 elapsed tenths.old) tenths.old
        tenths.new result }
{
    if tenths.is_empty() {
        return Refusal::TOO_FEW_PLACES.told();
    }
    let error = replay(bundle, position, s1, s2, elapsed).map(|replayed| replayed.tenths);
    hand(error, &mut tenths[0])
}
