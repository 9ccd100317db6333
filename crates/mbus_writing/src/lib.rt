// Line writing.
#![tactic(auto)]

mod bytes;

ghost use Rattle.std.specs.Prelude.{length};
ghost use Rattle.mbus_rules.specs.Writing.{write_line};
ghost use Rattle.base_characters.specs.Carrying.{Writes};

use base_characters::carrying::write_bytes;
use base_rules::Refusal;
use bytes::put_bytes;
use mbus_rules::Telegram;
use mbus_writable::is_unwritable;

// The characters of the longest line.
pub const LONGEST: usize = 89;

// Writes the line of a telegram into the first places and nothing beyond. Where no accepted line reads as the telegram
// that is 20, where there are fewer places than characters 21, and all places stay as they were.
pub fn write_line(telegram: Telegram, out: &mut [u16]) -> Result<usize, Refusal>
    ensures { Writes (write_line telegram (length out.old)) out.old out.new result }
{
    if is_unwritable(telegram) {
        return Err(Refusal::UNWRITABLE);
    }
    let mut bytes = [0u8; LONGEST];
    let count = put_bytes(telegram, &mut bytes);
    write_bytes(&bytes[..count], out)
}
