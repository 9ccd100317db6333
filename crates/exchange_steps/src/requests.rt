// Whether a resend is of the request that the exchange was begun with.
ghost use Rattle.std.specs.Prelude.{◌≡◌};
ghost use Rattle.exchange_steps.specs.Steps.{asks_for};

use mbus_rules::{Outline, Request};

// Whether what was sent is the request.
pub fn asks_for(request: Request, outline: Outline) -> bool
    ensures { result ≡ asks_for request outline }
{
    outline == Outline::Asks(request)
}
