// Writing of CJ/T 188 lines.
#![tactic(auto)]

ghost use Rattle.std.specs.Prelude.{length};
ghost use Rattle.cjt_rules.specs.CjtWriting.{write_cjt_line};
ghost use Rattle.base_characters.specs.Carrying.{Writes};

use base_characters::carrying::write_bytes;
use base_rules::Refusal;
use bytes::{answer_bytes, request_bytes};
use cjt_rules::CjtTelegram;
use unwritten::is_unwritten;

mod bytes;
mod unwritten;

// Writes the line of a telegram into the first places and nothing beyond, without FE bytes in front. Where no accepted line reads as the
// telegram that is 20, where there are fewer places than characters 21, and all places stay as they were.
pub fn write_line(telegram: CjtTelegram, out: &mut [u16]) -> Result<usize, Refusal>
    ensures { Writes (write_cjt_line telegram (length out.old)) out.old out.new result }
{
    if is_unwritten(telegram) {
        return Err(Refusal::UNWRITABLE);
    }
    match telegram {
        CjtTelegram::Request(request) => write_bytes(&request_bytes(request), out),
        CjtTelegram::Answer(answer) => write_bytes(&answer_bytes(answer), out),
    }
}
