// Line checking for the bench host, a C program that calls it on bytes: include/skarrowith.h says how.
#![tactic(auto)]

ghost use Rattle.std.specs.Prelude.{◌≡◌};
ghost use Rattle.mbus_rules.specs.Host.{host_number};
ghost use Rattle.host_check.specs.Numbers.{outline_number};

use base_rules::Refusal;
use mbus_reading::pairs::outline_of;
use mbus_rules::{Outline, Request};

// The host's number of an outline.
fn number_of(outline: Outline) -> u32
    ensures { result ≡ outline_number outline }
{
    match outline {
        Outline::Refused(n) => Refusal(n).told(),
        Outline::Ack => 1,
        Outline::Asks(Request::Read(_)) => 2,
        Outline::Asks(Request::Enter(_, _)) => 3,
        Outline::Asks(Request::Leave(_)) => 4,
        Outline::Data(_) => 5,
    }
}

// 1 ack, 2 read, 3 enter, 4 leave, 5 data, or 256 plus the refusal number.
pub fn skarrowith_check_line(bytes: &[u8]) -> u32
    ensures { result ≡ host_number bytes.now }
{
    if bytes.len() % 2 == 1 {
        return Refusal::ODD_BYTES.told();
    }
    number_of(outline_of(bytes))
}
