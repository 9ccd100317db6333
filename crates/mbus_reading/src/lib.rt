// Line reading. `outline_of` gives kind, address and method of a line, or its refusal; `read_line` the whole answer of 01's rules.
#![tactic(auto)]

ghost use Rattle.std.specs.Prelude.{◌≡◌, ◌≤◌, length};
ghost use Rattle.mbus_rules.specs.Lines.{read_line};
ghost use Rattle.base_rules.specs.Shown.{shown};
ghost use Rattle.mbus_rules.specs.Outlines.{outlined, outline_in};
ghost use Rattle.mbus_reading.specs.Taking.{TakenBytes};

use base_characters::line::{gather, low_at, soundness_of};
use base_rules::Refusal;
use body::{outline_in, read_in};
use mbus_rules::{Kind, Outline, Request, Telegram};
use taking::{MOST, far_of, write_apart};

pub mod body;
pub mod pairs;
pub mod taking;

// Takes a line in by one walk over its characters, and answers the sum of its bytes. The bytes of a line that has at most MOST of them go
// into the first places.
fn take_in(line: &[u16], out: &mut [u8]) -> Result<u8, Refusal>
    requires { 261 ≤ length out.old }
    ensures { TakenBytes line.now out.new result }
{
    if line.is_empty() {
        return Err(Refusal::EMPTY_LINE);
    }
    if MOST < line.len() {
        return Err(far_of(soundness_of(line), low_at(line, 0)));
    }
    write_apart(out);
    let gathering = gather(line, out);
    gathering.outcome?;
    Ok(gathering.sum)
}

// Kind, address and method of a line, or what it is refused by.
pub fn outline_of(line: &[u16]) -> Outline
    ensures { result ≡ outlined (read_line line.now) }
{
    let mut bytes = [0u8; MOST];
    match take_in(line, &mut bytes) {
        Ok(sum) => outline_in(&bytes[..line.len()], sum),
        Err(refused) => Outline::Refused(refused.0),
    }
}

// The whole answer of reading a line: the number of a refusal, or the telegram.
pub fn read_line(line: &[u16]) -> Result<Telegram, Refusal>
    ensures { result ≡ shown (read_line line.now) }
{
    let mut bytes = [0u8; MOST];
    let sum = take_in(line, &mut bytes)?;
    read_in(&bytes[..line.len()], sum)
}

// The outline of what was read.
pub fn outlined(reading: Result<Telegram, Refusal>) -> Outline
    ensures { result ≡ outline_in reading }
{
    match reading {
        Err(refused) => Outline::Refused(refused.0),
        Ok(telegram) => {
            let address = telegram.address;
            let method = telegram.method;
            match telegram.kind {
                Kind::Ack => Outline::Ack,
                Kind::Read => Outline::Asks(Request::Read(address)),
                Kind::Enter => Outline::Asks(Request::Enter(address, method)),
                Kind::Leave => Outline::Asks(Request::Leave(address)),
                Kind::Data => Outline::Data(address),
            }
        }
    }
}
