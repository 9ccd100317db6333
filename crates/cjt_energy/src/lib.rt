// An energy value of a CJ/T 188 meter turned into an M-Bus entry.
#![tactic(auto)]

ghost use Rattle.std.specs.Prelude.{◌≡◌, true, ◌*◌, ◌/◌};
ghost use Rattle.base_rules.specs.Shown.{shown};
ghost use Rattle.cjt_rules.specs.CjtUnits.{energy_code};
ghost use Rattle.cjt_energy.specs.Energies.{unit_for, code_digit, entry_digit, entry_for};

use base_rules::Refusal;
use cjt_fields::is_energy;
use mbus_rules::{Decimal, Entry, Value};
use mbus_telegrams::table::TWELVE_DIGITS;

// The first count that eight digits do not hold.
const COUNT_OVER: u32 = 100_000_000;

// The unit byte for a code. (A table from bytes to bytes: of codes as an enum each caller would first have to make one from the byte.)
fn unit_for(code: u8) -> u8
    requires { energy_code code ≡ true }
    ensures { result ≡ unit_for code }
{
    match code {
        0x01 => 0x08,
        0x02 => 0x01,
        0x05 => 0x04,
        0x08 => 0x07,
        0x0A => 0x07,
        0x0B => 0x09,
        0x0E => 0x0C,
        _ => 0x0F,
    }
}

// The count in that unit: two digits are added or taken away where no unit byte has the power of the last digit.
fn count_for(count: u32, code: u8) -> u64
    requires { energy_code code ≡ true }
    ensures { result ≡ count * code_digit code / entry_digit (unit_for code) }
{
    let count = count as u64;
    let small = code == 0x01;
    if small {
        return count / 100;
    }
    let large = (code == 0x0A) | (code == 0x13);
    if large {
        return 100 * count;
    }
    count
}

// The entry for a count of the last digit and a unit code; refused by 84, 85 or 86.
pub fn entry_for(count: u32, code: u8) -> Result<Entry, Refusal>
    ensures { result ≡ shown (entry_for count code) }
{
    let long = !(count < COUNT_OVER);
    if long {
        return Err(Refusal::CJT_WRONG_DIGITS);
    }
    let known = is_energy(code);
    if !known {
        return Err(Refusal::CJT_WRONG_UNIT);
    }
    let cut = (code == 0x01) & (count % 100 != 0);
    if cut {
        return Err(Refusal::CJT_NOT_EXACT);
    }
    let unit = unit_for(code);
    let number = count_for(count, code) as i64;
    Ok(Entry {
        structure: TWELVE_DIGITS,
        unit,
        value: Value::Number(Decimal { count: number }),
    })
}
