// A line whose characters come as bytes, two per character, low byte first.
ghost use Rattle.std.specs.Prelude.{◌≡◌};
ghost use Rattle.base_characters.specs.Characters.{chars};
ghost use Rattle.base_rules.specs.Answers.{within};
ghost use Rattle.base_rules.specs.Shown.{shown};
ghost use Rattle.cjt_rules.specs.CjtLines.{read_cjt_line};
ghost use Rattle.cjt_rules.specs.CjtOutlines.{cjt_kind_of};

use crate::MOST;
use crate::frame::read_in;
use base_characters::pairs::{gather, soundness_of};
use base_rules::Refusal;
use cjt_rules::{CjtKind, CjtTelegram};

// The whole answer of reading a line.
fn read_pairs(bytes: &[u8]) -> Result<CjtTelegram, Refusal>
    ensures { result ≡ shown (read_cjt_line (chars bytes.now)) }
{
    let count = bytes.len() / 2;
    if count == 0 {
        return Err(Refusal::EMPTY_LINE);
    }
    if MOST < count {
        soundness_of(bytes)?;
        return Err(Refusal::CJT_WRONG_FRAME);
    }
    let mut low = [0u8; MOST];
    let gathering = gather(bytes, &mut low);
    gathering.outcome?;
    read_in(&low[..count], gathering.sum)
}

// Which of the two telegrams it is.
fn kind_of(telegram: CjtTelegram) -> CjtKind
    ensures { result ≡ cjt_kind_of telegram }
{
    match telegram {
        CjtTelegram::Request(_) => CjtKind::Request,
        CjtTelegram::Answer(_) => CjtKind::Answer,
    }
}

// Which of the two telegrams a line is, or its refusal.
pub fn outline_of(bytes: &[u8]) -> Result<CjtKind, Refusal>
    ensures { result ≡ shown (within cjt_kind_of (read_cjt_line (chars bytes.now))) }
{
    let telegram = read_pairs(bytes)?;
    Ok(kind_of(telegram))
}
