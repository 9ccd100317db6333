// One entry: what 11 to 14 say of it.
ghost use Rattle.std.specs.Prelude.{◌≡◌, not, ◌&&◌, ◌||◌, ◌≤◌, ◌<◌, length};
ghost use Rattle.mbus_rules.specs.Entries.{may_fall};
ghost use Rattle.base_rules.specs.Lists.{at};
ghost use Rattle.base_rules.specs.Shown.{shown};
ghost use Rattle.mbus_entries.specs.Trying.{Long, Led, numbered, low_valued, digits_valued, taken_with, tried, next_of};

use base_rules::Refusal;
use mbus_fields::binary::coded_of;
use mbus_fields::digits::{Signed, digits_at, signed_in};
use mbus_fields::moments::{moment_of, wrong_moment};
use mbus_fields::quantities::{goes_with, may_fall, quantity_of, width_of};
use mbus_rules::{Decimal, Entry, Value, Whole};
use mbus_telegrams::table::{TIME, UNIT_OF_TIME};

// An entry as it is taken off the rest: its quantity, the width of its value, and itself.
#[derive(Clone, Copy)]
pub struct Taken {
    pub quantity: usize,
    pub width: usize,
    pub entry: Entry,
}

// The number that the bytes hold in binary, or what 12 says of it.
fn binary_value(unit: u8, value: &[u8]) -> Result<Value, Refusal>
    requires { length value.now ≤ 8 }
    ensures { result ≡ shown (numbered unit value.now) }
{
    let number = coded_of(value);
    if number.falls & !may_fall(unit) {
        return Err(Refusal::WRONG_VALUE);
    }
    Ok(Value::Binary(Whole {
        count: number.count,
    }))
}

// The digits break the rule, or have a minus where the unit allows none. The unit is asked only where there is one.
fn wrong_number(unit: u8, number: Signed) -> bool
    ensures { result ≡ (number.wrong || number.falls && not (may_fall unit)) }
{
    number.wrong || number.falls && !may_fall(unit)
}

// The value that the bytes hold in a structure below 8, which is binary or a point in time, or what 12 and 13 say of it.
fn low_value(unit: u8, value: &[u8]) -> Result<Value, Refusal>
    requires { Long unit value.now }
    ensures { result ≡ shown (low_valued unit value.now) }
{
    if unit == UNIT_OF_TIME {
        let time = &value[..6];
        if wrong_moment(time) {
            return Err(Refusal::WRONG_TIME);
        }
        return Ok(Value::Time(moment_of(time)));
    }
    binary_value(unit, value)
}

// The number that digits are, or what 12 says of it.
fn digits_value(unit: u8, number: Signed) -> Result<Value, Refusal>
    ensures { result ≡ shown (digits_valued unit number) }
{
    if wrong_number(unit, number) {
        return Err(Refusal::WRONG_VALUE);
    }
    Ok(Value::Number(Decimal {
        count: number.count,
    }))
}

// The entry with its value.
fn taken_with(structure: u8, unit: u8, quantity: u8, width: usize, value: Value) -> Taken
    ensures { result ≡ taken_with structure unit quantity width value }
{
    Taken {
        quantity: quantity as usize,
        width,
        entry: Entry {
            structure,
            unit,
            value,
        },
    }
}

// The entry that the rest begins with, where its structure is below 8.
fn try_low(rest: &[u8], quantity: u8) -> Result<Taken, Refusal>
    requires { Led rest.now quantity × (at rest.now 0 < 8) }
    ensures { result ≡ shown (tried rest.now) }
{
    let structure = rest[0];
    let unit = rest[1];
    let width = width_of(structure);
    if !goes_with(structure, quantity) | (rest.len() < 2 + width) {
        return Err(Refusal::WRONG_ENTRY);
    }
    let value = low_value(unit, &rest[2..2 + width])?;
    Ok(taken_with(structure, unit, quantity, width, value))
}

// The same from 8 on, where a structure is one of digits.
fn try_digits(rest: &[u8], quantity: u8) -> Result<Taken, Refusal>
    requires { Led rest.now quantity × (8 ≤ at rest.now 0) }
    ensures { result ≡ shown (tried rest.now) }
{
    let structure = rest[0];
    let unit = rest[1];
    let Some(wide) = digits_at(structure, rest) else {
        return Err(Refusal::WRONG_ENTRY);
    };
    if TIME <= quantity {
        return Err(Refusal::WRONG_ENTRY);
    }
    let number = signed_in(wide.word, wide.width);
    let value = digits_value(unit, number)?;
    Ok(taken_with(structure, unit, quantity, wide.width, value))
}

// The entry that the rest begins with, or what 11, 12 and 13 say of it.
pub fn try_entry(rest: &[u8]) -> Result<Taken, Refusal>
    ensures { result ≡ shown (tried rest.now) }
{
    if rest.len() < 2 {
        return Err(Refusal::WRONG_ENTRY);
    }
    let structure = rest[0];
    let quantity = quantity_of(rest[1]);
    if structure < 8 {
        return try_low(rest, quantity);
    }
    try_digits(rest, quantity)
}

// The entry that the rest begins with, after entries whose quantities are marked, or what it is refused by.
pub fn next_entry(rest: &[u8], marks: [bool; 8]) -> Result<Taken, Refusal>
    ensures { result ≡ shown (next_of rest.now marks) }
{
    let taken = try_entry(rest)?;
    if marks[taken.quantity] {
        return Err(Refusal::QUANTITY_TWICE);
    }
    Ok(taken)
}
