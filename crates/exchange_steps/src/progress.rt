// Whether an exchange is still in progress.
ghost use Rattle.std.specs.Prelude.{◌≡◌};
ghost use Rattle.exchange_steps.specs.Steps.{ended};

use crate::State;

// Whether it has ended, well or by a cause.
pub fn has_ended(state: State) -> bool
    ensures { result ≡ ended state }
{
    matches!(state, State::Well | State::Failed(_))
}
