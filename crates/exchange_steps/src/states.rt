// Which step is called for, and the state that comes next.
ghost use Rattle.std.specs.Prelude.{◌≡◌};
ghost use Rattle.exchange_steps.specs.Steps.{after_line, after_tick, asks_resend, cause_of, failed, waits};

use crate::{Cause, State};
use exchange_replies::fits;
use mbus_rules::{Outline, Request};

// The most sends of one exchange. (A count, of no enum.)
const MOST: u8 = 3;

// What a line that does not fit fails its send as.
fn cause_of(outline: Outline) -> Cause
    ensures { result ≡ cause_of outline }
{
    match outline {
        Outline::Refused(_) => Cause::Damaged,
        Outline::Ack | Outline::Asks(_) | Outline::Data(_) => Cause::WrongKind,
    }
}

// The state after a send that failed: a resend is asked for, or it was the third.
fn failed(sends: u8, cause: Cause) -> State
    ensures { result ≡ failed sends cause }
{
    if sends < MOST {
        return State::Resend(cause);
    }
    State::Failed(cause)
}

// The state after a line heard while waiting.
// (silent is no switch, here and below: it is the time's answer, by which the definitions after_line and after_tick name the state.)
pub fn after_line(request: Request, sends: u8, silent: bool, outline: Outline) -> State
    ensures { result ≡ after_line request sends silent outline }
{
    if silent {
        return failed(sends, Cause::Silent);
    }
    if fits(request, outline) {
        return State::Well;
    }
    failed(sends, cause_of(outline))
}

// The state after a tick while waiting.
pub fn after_tick(sends: u8, silent: bool) -> State
    ensures { result ≡ after_tick sends silent }
{
    if silent {
        return failed(sends, Cause::Silent);
    }
    State::Waiting
}

// Whether a line or a tick is called for.
pub fn waits(state: State) -> bool
    ensures { result ≡ waits state }
{
    matches!(state, State::Waiting)
}

// Whether a send is called for. No history asks for one after three; there it is refused by 41 as elsewhere.
pub fn asks_resend(state: State, sends: u8) -> bool
    ensures { result ≡ asks_resend state sends }
{
    matches!(state, State::Resend(_)) & (sends < MOST)
}
