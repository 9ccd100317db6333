// The simulated meter for C: include/skarrowith.h says how.
#![tactic(auto)]

ghost use Rattle.std.specs.Prelude.{◌≡◌, ◌≤◌, length};
ghost use Rattle.meter_steps.specs.Meters.{heard_at};
ghost use Rattle.host_meter.specs.Calls.{set_up_for, line_heard_for, measure_for, SetsUp, Steps, HearsLine};
ghost use Rattle.host_meter.specs.Kept.{answer_in, number_by, said_by, Kept};

use base_lent::store;
use base_rules::Refusal;
use bench_clock::Clock;
use mbus_records::telegrams::{telegram_bytes, telegram_from};
use mbus_rules::Telegram;
use mbus_telegrams::kinds::kind_number;
use meter_record::{meter_bytes, meter_from};
use meter_steps::{Meter, Step};

// What a step answers: 0 silence, the number of a telegram's kind, or 256 plus a refusal's number.
fn number_by(reply: Result<Option<Telegram>, Refusal>) -> u32
    ensures { result ≡ number_by reply }
{
    match reply {
        Ok(None) => 0,
        Ok(Some(telegram)) => kind_number(telegram.kind) as u32,
        Err(refused) => refused.told(),
    }
}

// Writes the answer's record, if there is an answer.
fn say(reply: Result<Option<Telegram>, Refusal>, answer: &mut [u8])
    requires { 136 ≤ length answer.old }
    ensures { answer.new ≡ said_by reply answer.old }
{
    if let Ok(Some(telegram)) = reply {
        let bytes = telegram_bytes(telegram);
        store(&bytes, answer);
    }
}

// Keeps the meter in its record, unless the step was refused.
// (No reference to 192 bytes: C lends more than those too, and each caller would split them off only for store to copy to a slice.)
fn keep_step(step: Step, kept: &mut [u8]) -> u32
    requires { 192 ≤ length kept.old }
    ensures { Kept step kept.old kept.new result }
{
    if step.reply.is_ok() {
        let bytes = meter_bytes(step.meter);
        store(&bytes, kept);
    }
    number_by(step.reply)
}

// A line heard at t by a meter, which is kept, and its answer written.
fn hear(m: Meter, line: &[u16], t: u64, kept: &mut [u8], answer: &mut [u8]) -> u32
    requires { (192 ≤ length kept.old) × (136 ≤ length answer.old) }
    ensures { HearsLine (heard_at m line.now (record { 0 = t })) (record { 0 = t }) kept.old kept.new
        answer.old answer.new result }
{
    let step = m.heard(line, Clock(t));
    say(step.reply, answer);
    keep_step(step, kept)
}

// Keeps a meter that was set up.
fn begin(setup: Result<Meter, Refusal>, kept: &mut [u8]) -> u32
    requires { 192 ≤ length kept.old }
    ensures { SetsUp (answer_in setup) kept.old kept.new result }
{
    match setup {
        Err(refused) => refused.told(),
        Ok(meter) => {
            let bytes = meter_bytes(meter);
            store(&bytes, kept);
            0
        }
    }
}

// A meter with its own address and its data template.
pub fn skarrowith_meter_set_up(kept: &mut [u8], address: u8, template: &[u8]) -> u32
    ensures { SetsUp (set_up_for kept.old address template.now) kept.old kept.new result }
{
    match telegram_from(template) {
        Err(refused) => refused.told(),
        Ok(telegram) => {
            let short = kept.len() < 192;
            if short {
                return Refusal::TOO_FEW_PLACES.told();
            }
            begin(Meter::set_up(address, telegram), kept)
        }
    }
}

// A line heard at t. The meter's answer, if it has one, is written to the answer's record.
pub fn skarrowith_meter_heard(kept: &mut [u8], line: &[u16], t: u64, answer: &mut [u8]) -> u32
    ensures { HearsLine (line_heard_for kept.old line.now (record { 0 = t }) answer.old) (record { 0 = t })
        kept.old kept.new answer.old answer.new result }
{
    match meter_from(kept) {
        Err(refused) => refused.told(),
        Ok(m) => {
            let short = answer.len() < 136;
            if short {
                return Refusal::TOO_FEW_PLACES.told();
            }
            hear(m, line, t, kept, answer)
        }
    }
}

// Volume and energy measured at t, as counts of the template's last digits.
pub fn skarrowith_meter_measure(kept: &mut [u8], volume: u64, energy: u64, t: u64) -> u32
    ensures { Steps (measure_for kept.old volume energy (record { 0 = t })) (record { 0 = t }) kept.old kept.new result }
{
    match meter_from(kept) {
        Err(refused) => refused.told(),
        Ok(m) => keep_step(m.measure(volume, energy, Clock(t)), kept),
    }
}
