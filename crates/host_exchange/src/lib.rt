// The exchange for C: include/skarrowith.h says how.
#![tactic(auto)]

ghost use Rattle.std.specs.Prelude.{◌≤◌, length};
ghost use Rattle.mbus_rules.specs.Lines.{read_line};
ghost use Rattle.mbus_rules.specs.Telegrams.{telegram_read};
ghost use Rattle.exchange_steps.specs.Histories.{answer, heard};
ghost use Rattle.host_exchange.specs.Calls.{Answers, HearsReply, answer_of, send_ended_for, tick_for, heard_for};

use base_lent::store;
use base_rules::Refusal;
use bench_clock::Clock;
use exchange_record::{exchange_bytes, slot_from};
use exchange_steps::{Exchange, Slot};
use mbus_records::telegrams::telegram_bytes;
use mbus_telegrams::bare;
use mbus_telegrams::kinds::kind_in;

// Keeps the exchange as it then stands in its record, and answers its state, the fourth byte, or 256 plus the number by which the
// step was refused.
fn keep(stepped: Result<Exchange, Refusal>, kept: &mut [u8]) -> u32
    requires { 24 ≤ length kept.old }
    ensures { Answers (answer_of stepped) kept.old kept.new result }
{
    match stepped {
        Err(refused) => refused.told(),
        Ok(x) => {
            let bytes = exchange_bytes(x);
            store(&bytes, kept);
            bytes[3] as u32
        }
    }
}

// A line heard at t: keeps the exchange as it then stands, and the reply too where the line ended it well.
fn hear(slot: Slot, line: &[u16], t: Clock, kept: &mut [u8], reply: &mut [u8]) -> u32
    requires { (24 ≤ length kept.old) × (136 ≤ length reply.old) }
    ensures { HearsReply (answer slot (heard line.now t)) (telegram_read (read_line line.now)) kept.old
        kept.new reply.old reply.new result }
{
    let heard = slot.heard(line, t);
    let answer = keep(heard.stepped, kept);
    let well = answer == 3;
    if well {
        let bytes = telegram_bytes(heard.reply);
        store(&bytes, reply);
    }
    answer
}

// A send has ended at t: 2 a read, 3 an enter with its method, 4 a leave, to the address.
pub fn skarrowith_exchange_send_ended(
    kept: &mut [u8],
    kind: u8,
    address: u8,
    method: u8,
    t: u64,
) -> u32
    ensures { Answers (send_ended_for kept.old kind address method t) kept.old kept.new result }
{
    match slot_from(kept) {
        Err(refused) => refused.told(),
        Ok(slot) => {
            let telegram = bare(kind_in(kind), address, method);
            keep(slot.send_ended(telegram, Clock(t)), kept)
        }
    }
}

// No line has begun up to t.
pub fn skarrowith_exchange_tick(kept: &mut [u8], t: u64) -> u32
    ensures { Answers (tick_for kept.old t) kept.old kept.new result }
{
    match slot_from(kept) {
        Err(refused) => refused.told(),
        Ok(slot) => { keep(slot.tick(Clock(t)), kept) }
    }
}

// A line heard at t, the start of its first character. The telegram of a line that ends the exchange well is written to the reply.
pub fn skarrowith_exchange_heard(kept: &mut [u8], line: &[u16], t: u64, reply: &mut [u8]) -> u32
    ensures { HearsReply (heard_for kept.old line.now t reply.old) (telegram_read (read_line line.now))
        kept.old kept.new reply.old reply.new result }
{
    match slot_from(kept) {
        Err(refused) => refused.told(),
        Ok(slot) => {
            if reply.len() < 136 {
                return Refusal::TOO_FEW_PLACES.told();
            }
            hear(slot, line, Clock(t), kept, reply)
        }
    }
}
