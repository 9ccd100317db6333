// Which reply fits which request, whatever the state and the time.
#![tactic(auto)]

ghost use Rattle.std.specs.Prelude.{◌≡◌};
ghost use Rattle.exchange_replies.specs.Fits.{ack_fits, data_fits, fits};

use mbus_rules::{Outline, Request};
use mbus_telegrams::BROADCAST;

// Ack fits enter and leave.
fn ack_fits(request: Request) -> bool
    ensures { result ≡ ack_fits request }
{
    !matches!(request, Request::Read(_))
}

// Data fits a read of FE or of the address that answers.
fn data_fits(request: Request, answers: u8) -> bool
    ensures { result ≡ data_fits request answers }
{
    match request {
        Request::Read(asked) => (asked == BROADCAST) | (asked == answers),
        Request::Enter(_, _) | Request::Leave(_) => false,
    }
}

// Whether a line of this outline is a reply to the request.
pub fn fits(request: Request, outline: Outline) -> bool
    ensures { result ≡ fits request outline }
{
    match outline {
        Outline::Refused(_) | Outline::Asks(_) => false,
        Outline::Ack => ack_fits(request),
        Outline::Data(answers) => data_fits(request, answers),
    }
}
