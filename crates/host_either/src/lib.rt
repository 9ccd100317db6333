// The line of whichever of a position's captures has one, for C: include/skarrowith.h says how.
#![tactic(auto)]

ghost use Rattle.host_either.specs.Finding.{FindsEither};

use base_rules::Refusal;
use host_search::put_spot;
use mbus_either::{Interface, either_at};

// Which capture has an accepted line, M-Bus before optical, with the place and the length of the first one in it.
pub fn skarrowith_find_either<'a>(mbus: &'a [u16], optical: &'a [u16], found: &mut [u8]) -> u32
    ensures { FindsEither mbus.now optical.now found.old found.new result }
{
    match either_at(mbus, optical) {
        Err(refused) => refused.told(),
        Ok(line) => {
            let short = put_spot(found, line.spot);
            if short {
                return Refusal::TOO_FEW_PLACES.told();
            }
            match line.interface {
                Interface::Mbus => 1,
                Interface::Optical => 2,
            }
        }
    }
}
