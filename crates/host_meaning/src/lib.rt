// What a bench host would otherwise look up, for C: the words for a refusal number, the meaning of a unit byte, and the library's version.
// include/skarrowith.h says how.
#![tactic(auto)]

ghost use Rattle.std.specs.Prelude.{◌≡◌, [], ◌∷◌};
ghost use Rattle.std.proofs.Math.IntN.{sub_ℕ};
ghost use Rattle.base_lent.specs.Lent.{done, Leaves};
ghost use Rattle.base_numbers.specs.TwosComplement.{binary_bytes};
ghost use Rattle.mbus_rules.specs.Quantities.{row_of, power_of};
ghost use Rattle.host_meaning.specs.Meanings.{meaning_bytes, meaning_for};

use base_lent::store;
use base_rules::Refusal;
use mbus_rules::UnitRow;
use mbus_telegrams::table::{UNKNOWN, row_of};

pub mod version;
pub mod words;

// A number less another, as a byte in two's complement.
fn less(n: u8, by: u8) -> u8
    ensures { binary_bytes 1 (sub_ℕ n by) ≡ result ∷ [] }
{
    n.wrapping_sub(by)
}

// The power of ten as a byte in two's complement: what the unit byte leaves by the one number of its row, less the other.
fn power_byte(unit: u8, row: UnitRow) -> u8
    requires { row ≡ row_of unit }
    ensures { binary_bytes 1 (power_of unit) ≡ result ∷ [] }
{
    less(unit % row.divisor, row.less)
}

// The record of what a unit byte means: 0, or 256 plus 11 where the table has no such byte, or plus 21.
pub fn skarrowith_entry_meaning(unit: u8, meaning: &mut [u8]) -> u32
    ensures { Leaves done meaning_bytes (meaning_for unit meaning.old) meaning.old meaning.new result }
{
    let row = row_of(unit);
    if row.quantity == UNKNOWN {
        return Refusal::WRONG_ENTRY.told();
    }
    let power = power_byte(unit, row);
    let bytes = [row.quantity, row.unit, power, 0];
    if store(&bytes, meaning) {
        return Refusal::TOO_FEW_PLACES.told();
    }
    0
}
