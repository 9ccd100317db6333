// The parts of a CJ/T 188 telegram, each with the test of its rule: reader, writer and conversion share them.
#![tactic(auto)]

ghost use Rattle.std.specs.Prelude.{◌≡◌};
ghost use Rattle.cjt_rules.specs.CjtAddresses.{heat_type};
ghost use Rattle.cjt_rules.specs.CjtClocks.{wrong_clock};
ghost use Rattle.cjt_rules.specs.CjtUnits.{energy_code, power_code, flow_code, volume_code, wrong_units};

use base_calendar::days_of;
use cjt_rules::{CjtAnswer, CjtClock};

// The type is one of the seven.
pub fn is_heat_type(sort: u8) -> bool
    ensures { result ≡ heat_type sort }
{
    ((0x20 <= sort) & (sort <= 0x23)) | ((0x25 <= sort) & (sort <= 0x27))
}

// The code is one of the nine for an energy.
pub fn is_energy(code: u8) -> bool
    ensures { result ≡ energy_code code }
{
    ((code == 0x02) | (code == 0x05) | (code == 0x08) | (code == 0x0A))
        | ((code == 0x01) | (code == 0x0B) | (code == 0x0E) | (code == 0x11) | (code == 0x13))
}

fn is_power(code: u8) -> bool
    ensures { result ≡ power_code code }
{
    (code == 0x14) | (code == 0x17) | (code == 0x1A)
}

fn is_flow(code: u8) -> bool
    ensures { result ≡ flow_code code }
{
    (code == 0x32) | (code == 0x35)
}

fn is_volume(code: u8) -> bool
    ensures { result ≡ volume_code code }
{
    (code == 0x29) | (code == 0x2C)
}

// A value of the answer has a unit that its quantity does not take.
pub fn wrong_units(answer: CjtAnswer) -> bool
    ensures { result ≡ wrong_units answer }
{
    let cold = is_energy(answer.cold.code);
    let heat = is_energy(answer.heat.code);
    let power = is_power(answer.power.code);
    let flow = is_flow(answer.flow.code);
    let volume = is_volume(answer.volume.code);
    !cold | !heat | !power | !flow | !volume
}

// The clock shows no date or no time of day.
pub fn wrong_clock(clock: CjtClock) -> bool
    ensures { result ≡ wrong_clock clock }
{
    let days = days_of(clock.year, clock.month);
    let day = (clock.year < 10_000)
        & ((0 < clock.month) & (clock.month < 13))
        & ((0 < clock.day) & (clock.day <= days));
    let hour = (clock.second < 60) & (clock.minute < 60) & (clock.hour < 24);
    !day | !hour
}
