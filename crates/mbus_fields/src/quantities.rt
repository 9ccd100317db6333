// What is looked up in the tables of quantities and structures.
ghost use Rattle.std.specs.Prelude.{◌≡◌};
ghost use Rattle.mbus_rules.specs.Quantities.{quantity_of, width_of, is_packed, is_binary, paired};
ghost use Rattle.mbus_rules.specs.Entries.{may_fall};
ghost use Rattle.mbus_fields.specs.Fields.{goes_with};

use mbus_telegrams::table::{POINT_IN_TIME, TIME, UNKNOWN, row_of, structure_of};

// The quantity of the unit byte.
#[tactic(auto, unfolding(mbus_rules::specs::Quantities::quantity_of))]
pub fn quantity_of(unit: u8) -> u8
    ensures { result ≡ quantity_of unit }
{
    row_of(unit).quantity
}

// The structure is one of packed digits.
pub fn is_packed(structure: u8) -> bool
    ensures { result ≡ is_packed structure }
{
    structure_of(structure).packed
}

// The structure is one of binary.
pub fn is_binary(structure: u8) -> bool
    ensures { result ≡ is_binary structure }
{
    structure_of(structure).binary
}

// The bytes of a value of the structure, 0 for an unknown structure.
#[tactic(auto, unfolding(mbus_rules::specs::Quantities::width_of))]
pub fn width_of(structure: u8) -> usize
    ensures { result ≡ width_of structure }
{
    structure_of(structure).width
}

// The structure goes with the quantity: a point in time with time, packed digits and binary with each other.
pub fn goes_with(structure: u8, quantity: u8) -> bool
    ensures { result ≡ goes_with structure quantity }
{
    if quantity == TIME {
        return structure == POINT_IN_TIME;
    }
    let row = structure_of(structure);
    (row.packed | row.binary) & (quantity < UNKNOWN)
}

// The structure goes with the unit.
pub fn is_paired(structure: u8, unit: u8) -> bool
    ensures { result ≡ paired structure unit }
{
    goes_with(structure, quantity_of(unit))
}

// A minus is allowed for the quantity of the unit.
#[tactic(auto, unfolding(mbus_rules::specs::Entries::may_fall))]
pub fn may_fall(unit: u8) -> bool
    ensures { result ≡ may_fall unit }
{
    row_of(unit).may_fall
}
