// CJ/T 188 lines that are received, checked and read for C.
ghost use Rattle.std.specs.Prelude.{◌≡◌};
ghost use Rattle.base_lent.specs.Lent.{Leaves};
ghost use Rattle.cjt_rules.specs.CjtHost.{cjt_kind_number, cjt_host_number};
ghost use Rattle.cjt_records.specs.CjtRecords.{cjt_bytes};
ghost use Rattle.host_cjt.specs.CjtCalls.{read_cjt_for};

use base_lent::store;
use base_rules::Refusal;
use cjt_reading::pairs::outline_of;
use cjt_reading::read_line;
use cjt_records::cjt_bytes;
use cjt_rules::{CjtKind, CjtTelegram};

// The host's number of a telegram. (Its cases hold telegrams, so that none is cast to a number.)
fn kind_number(telegram: CjtTelegram) -> u32
    ensures { result ≡ cjt_kind_number telegram }
{
    match telegram {
        CjtTelegram::Request(_) => 1,
        CjtTelegram::Answer(_) => 2,
    }
}

// 1 request, 2 answer, or 256 plus the refusal number.
pub fn skarrowith_cjt_check_line(bytes: &[u8]) -> u32
    ensures { result ≡ cjt_host_number bytes.now }
{
    if bytes.len() % 2 == 1 {
        return Refusal::ODD_BYTES.told();
    }
    match outline_of(bytes) {
        Err(no_line) => no_line.told(),
        Ok(kind) => match kind {
            CjtKind::Request => 1,
            CjtKind::Answer => 2,
        },
    }
}

// Reads a line into a telegram's record, and answers which of the two it is.
pub fn skarrowith_cjt_read_line(line: &[u16], telegram: &mut [u8]) -> u32
    ensures { Leaves cjt_kind_number cjt_bytes (read_cjt_for line.now telegram.old) telegram.old telegram.new result }
{
    match read_line(line) {
        Err(refused) => refused.told(),
        Ok(read) => {
            let bytes = cjt_bytes(read);
            let short = store(&bytes, telegram);
            if short {
                return Refusal::TOO_FEW_PLACES.told();
            }
            kind_number(read)
        }
    }
}
