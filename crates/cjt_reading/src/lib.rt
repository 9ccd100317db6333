// CJ/T 188 line reading: the whole answer of 02's rules, and which telegram a line is.
#![tactic(auto)]

ghost use Rattle.std.specs.Prelude.{◌≡◌};
ghost use Rattle.cjt_rules.specs.CjtLines.{read_cjt_line};
ghost use Rattle.base_rules.specs.Shown.{shown};

use base_characters::line::{gather, soundness_of};
use base_rules::Refusal;
use cjt_rules::CjtTelegram;
use frame::read_in;

mod frame;
pub mod pairs;
mod parts;

// No line that 80 leaves has more characters: five FE bytes and an answer.
const MOST: usize = 64;

// The whole answer of reading a line: the telegram, or its refusal.
// (read_pairs does the same with bytes: one function for both would take their count and two closures, to walk a long line and to gather a short
// one, each with its clauses, and have more lines than the two.)
pub fn read_line(line: &[u16]) -> Result<CjtTelegram, Refusal>
    ensures { result ≡ shown (read_cjt_line line.now) }
{
    let count = line.len();
    if count == 0 {
        return Err(Refusal::EMPTY_LINE);
    }
    if MOST < count {
        soundness_of(line)?;
        return Err(Refusal::CJT_WRONG_FRAME);
    }
    let mut bytes = [0u8; MOST];
    let gathering = gather(line, &mut bytes);
    gathering.outcome?;
    read_in(&bytes[..count], gathering.sum)
}
