// CJ/T 188 lines and energies for C: include/skarrowith.h says how.
#![tactic(auto)]

ghost use Rattle.std.specs.Prelude.{length};
ghost use Rattle.base_lent.specs.Lent.{done, Leaves};
ghost use Rattle.cjt_rules.specs.CjtWriting.{write_cjt_line};
ghost use Rattle.mbus_records.specs.Telegrams.{entry_bytes};
ghost use Rattle.host_cjt.specs.CjtCalls.{write_cjt_for, entry_cjt_for};

use base_lent::lay;
use base_rules::Refusal;
use cjt_energy::entry_for;
use cjt_records::cjt_from;
use cjt_rules::CjtTelegram;
use cjt_writing::write_line;
use mbus_records::telegrams::entry_bytes;

pub mod reading;

// The bytes of an entry's record.
const ENTRY: usize = 16;

// Writes the line of a telegram, and answers its number of characters.
fn write(telegram: CjtTelegram, out: &mut [u16]) -> u32
    ensures { Leaves length (λ line. line) (write_cjt_line telegram (length out.old)) out.old out.new result }
{
    match write_line(telegram, out) {
        Ok(length) => length as u32,
        Err(refused) => refused.told(),
    }
}

// Writes the line of the telegram whose record this is.
pub fn skarrowith_cjt_write_line(telegram: &[u8], out: &mut [u16]) -> u32
    ensures { Leaves length (λ line. line) (write_cjt_for telegram.now out.old) out.old out.new result }
{
    match cjt_from(telegram) {
        Err(no_record) => no_record.told(),
        Ok(read) => write(read, out),
    }
}

// The record of the M-Bus entry for an energy value, a count of its last digit with its unit code.
pub fn skarrowith_cjt_energy_entry(count: u32, code: u8, place: &mut [u8]) -> u32
    ensures { Leaves done entry_bytes (entry_cjt_for count code place.old) place.old place.new result }
{
    let short = place.len() < ENTRY;
    if short {
        return Refusal::TOO_FEW_PLACES.told();
    }
    match entry_for(count, code) {
        Err(no_entry) => no_entry.told(),
        Ok(entry) => {
            let bytes = entry_bytes(entry);
            lay(place, 0, &bytes);
            0
        }
    }
}
