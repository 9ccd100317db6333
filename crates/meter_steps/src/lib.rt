// The simulated meter of document 01: set-up, line heard and measure, each with its whole answer. A meter goes in and comes back
// by value; a refused step hands it back as it stood.
#![tactic(auto)]

ghost use Rattle.std.specs.Prelude.{◌≡◌};
ghost use Rattle.meter_steps.specs.Meters.{refused_step, begun_meter, set_up, heard_at, measured_at, shown_meter_step};
ghost use Rattle.base_rules.specs.Shown.{shown};

use base_rules::Refusal;
use bench_clock::Clock;
use mbus_reading::outline_of;
use mbus_rules::Telegram;
use meter_template::{Pair, is_unfit};

mod instructions;

// In use, or in verification with the method and the time of the last instruction.
// No Option: document 01 names both modes, and the theorems speak of Use and Verifying.
#[derive(Clone, Copy)]
pub enum Mode {
    Use,
    Verifying(u8, Clock),
}

// A meter but for the time of its last step: the own address, the mode, the use pair and the verification pair of totals, and the
// data template, which has the access number.
#[derive(Clone, Copy)]
pub struct Core {
    pub address: u8,
    pub mode: Mode,
    pub used: Pair,
    pub verified: Pair,
    pub template: Telegram,
}

// A simulated meter. The time of its last accepted step is 0 before the first: no time is earlier.
#[derive(Clone, Copy)]
pub struct Meter {
    pub last: Clock,
    pub core: Core,
}

// What a step gives: the meter as it then stands, and its answer, which is silence, a telegram, or the number of a refusal.
// No Result of both: the definition shown_meter_step has a meter beside a refusal too, the one that there was.
#[derive(Clone, Copy)]
pub struct Step {
    pub meter: Meter,
    pub reply: Result<Option<Telegram>, Refusal>,
}

impl Meter {
    // A meter that begins, whatever the template.
    fn begun(address: u8, template: Telegram) -> Meter
        ensures { result ≡ begun_meter address template }
    {
        Meter {
            last: Clock(0),
            core: Core {
                address,
                mode: Mode::Use,
                used: Pair::of(template.entries),
                verified: Pair {
                    volume: 0,
                    energy: 0,
                },
                template,
            },
        }
    }

    // A meter with its own address and its data template.
    pub fn set_up(address: u8, template: Telegram) -> Result<Meter, Refusal>
        ensures { result ≡ shown (set_up address template) }
    {
        if is_unfit(template) {
            return Err(Refusal::METER_WRONG_TEMPLATE);
        }
        Ok(Meter::begun(address, template))
    }

    // A step that is refused.
    fn refused(self, refusal: Refusal) -> Step
        ensures { result ≡ refused_step self refusal.0 }
    {
        Step {
            meter: self,
            reply: Err(refusal),
        }
    }

    // A line heard at t.
    pub fn heard(self, line: &[u16], t: Clock) -> Step
        ensures { result ≡ shown_meter_step self t (heard_at self line.now t) }
    {
        if self.last.earlier(t) {
            return self.refused(Refusal::METER_TIME_BACK);
        }
        let outline = outline_of(line);
        self.core.hears(outline, t)
    }

    // Volume and energy measured at t, as counts of the template's last digits.
    pub fn measure(self, volume: u64, energy: u64, t: Clock) -> Step
        ensures { result ≡ shown_meter_step self t (measured_at self volume energy t) }
    {
        if self.last.earlier(t) {
            return self.refused(Refusal::METER_TIME_BACK);
        }
        let core = self.core.returned(t);
        let pair = core.in_force();
        match pair.plus(volume, energy) {
            Err(refusal) => self.refused(refusal),
            Ok(totals) => core.measured(totals, t),
        }
    }
}
