// Lines for C, read into a telegram's record and written from it: include/skarrowith.h says how.
#![tactic(auto)]

ghost use Rattle.std.specs.Prelude.{length};
ghost use Rattle.mbus_rules.specs.Writing.{write_line};
ghost use Rattle.base_lent.specs.Lent.{Leaves};
ghost use Rattle.mbus_records.specs.Telegrams.{telegram_bytes};
ghost use Rattle.host_lines.specs.Calls.{read_for, kind_of, write_for, request_for};

use base_lent::store;
use base_rules::Refusal;
use mbus_reading::read_line;
use mbus_records::telegrams::{telegram_bytes, telegram_from};
use mbus_rules::Telegram;
use mbus_telegrams::bare;
use mbus_telegrams::kinds::{kind_in, kind_number};
use mbus_writing::write_line;

// Reads a line into a telegram's record, and answers its kind.
pub fn skarrowith_read_line(line: &[u16], telegram: &mut [u8]) -> u32
    ensures { Leaves kind_of telegram_bytes (read_for line.now telegram.old) telegram.old telegram.new result }
{
    match read_line(line) {
        Err(unread) => unread.told(),
        Ok(read) => {
            let bytes = telegram_bytes(read);
            let short = store(&bytes, telegram);
            if short {
                return Refusal::TOO_FEW_PLACES.told();
            }
            kind_number(read.kind) as u32
        }
    }
}

// Writes the line of a telegram, and answers its number of characters.
fn write(telegram: Telegram, out: &mut [u16]) -> u32
    ensures { Leaves length (λ line. line) (write_line telegram (length out.old)) out.old out.new result }
{
    match write_line(telegram, out) {
        Ok(length) => length as u32,
        Err(refused) => refused.told(),
    }
}

// Writes the line of the telegram whose record this is.
pub fn skarrowith_write_line(telegram: &[u8], out: &mut [u16]) -> u32
    ensures { Leaves length (λ line. line) (write_for telegram.now out.old) out.old out.new result }
{
    match telegram_from(telegram) {
        Err(no_record) => no_record.told(),
        Ok(read) => write(read, out),
    }
}

// Writes a request's line: 2 a read, 3 an enter with its method, 4 a leave, to the address.
pub fn skarrowith_write_request(kind: u8, address: u8, method: u8, out: &mut [u16]) -> u32
    ensures { Leaves length (λ line. line) (request_for kind address method out.old) out.old out.new result }
{
    let kind = kind_in(kind);
    let request = bare(kind, address, method);
    write(request, out)
}
