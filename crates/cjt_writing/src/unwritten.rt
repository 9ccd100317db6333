// 20: the telegrams that no accepted line reads as.
ghost use Rattle.std.specs.Prelude.{◌≡◌};
ghost use Rattle.cjt_rules.specs.CjtWriting.{unwritten_party, unwritten_counts, unwritten};

use cjt_fields::{is_heat_type, wrong_clock, wrong_units};
use cjt_rules::{CjtAddress, CjtAnswer, CjtRequest, CjtTelegram};

// The first numbers that fourteen digits, eight and six do not hold.
const OVER_FOURTEEN: u64 = 100_000_000_000_000;

const OVER_EIGHT: u32 = 100_000_000;

const OVER_SIX: u32 = 1_000_000;

fn unwritten_party(address: CjtAddress) -> bool
    ensures { result ≡ unwritten_party address }
{
    match address {
        CjtAddress::Meter(n) => !(n < OVER_FOURTEEN),
        CjtAddress::Broadcast => false,
    }
}

fn unwritten_counts(a: CjtAnswer) -> bool
    ensures { result ≡ unwritten_counts a }
{
    !(a.cold.count < OVER_EIGHT)
        | !(a.heat.count < OVER_EIGHT)
        | !(a.power.count < OVER_EIGHT)
        | !(a.flow.count < OVER_EIGHT)
        | !(a.volume.count < OVER_EIGHT)
        | !(a.inlet < OVER_SIX)
        | !(a.outlet < OVER_SIX)
        | !(a.hours < OVER_SIX)
}

// No accepted line reads as this request.
fn unwritten_request(request: CjtRequest) -> bool
    ensures { result ≡ unwritten (CjtTelegram.Request request) }
{
    let address = request.address;
    let known = is_heat_type(request.meter_type);
    let long = unwritten_party(address);
    !known | long
}

// No accepted line reads as this answer.
fn unwritten_answer(answer: CjtAnswer) -> bool
    ensures { result ≡ unwritten (CjtTelegram.Answer answer) }
{
    let clock = answer.clock;
    let known = is_heat_type(answer.meter_type);
    let long = unwritten_counts(answer);
    let no_time = wrong_clock(clock);
    let no_unit = wrong_units(answer);
    !known | !(answer.address < OVER_FOURTEEN) | long | no_time | no_unit
}

// No accepted line reads as this telegram.
pub(crate) fn is_unwritten(telegram: CjtTelegram) -> bool
    ensures { result ≡ unwritten telegram }
{
    match telegram {
        CjtTelegram::Request(request) => unwritten_request(request),
        CjtTelegram::Answer(answer) => unwritten_answer(answer),
    }
}
