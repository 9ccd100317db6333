// The tables of quantities and structures: their rows, and what is looked up in them. A new unit byte is a row here and one in specs.
ghost use Rattle.std.specs.Prelude.{◌≡◌, get_or, false};
ghost use Rattle.mbus_rules.specs.Quantities.{table, row_of, structures, structure_of};
ghost use Rattle.mbus_rules.specs.Entries.{lacking};

use mbus_rules::{StructureRow, UnitRow};

// The quantities in the table's order, and a number for a unit byte that is in no row. (Numbers and no enum: the definitions look marks up by
// them, and C is told them.)
pub const ENERGY: u8 = 0;

pub const VOLUME: u8 = 1;

pub const POWER: u8 = 2;

pub const FLOW: u8 = 3;

pub const INLET: u8 = 4;

pub const OUTLET: u8 = 5;

pub const TIME: u8 = 6;

pub const UNKNOWN: u8 = 7;

// Their units; a point in time has none. (Numbers too, as C is told them.)
const NO_UNIT: u8 = 0;

const WATT_HOUR: u8 = 1;

const JOULE: u8 = 2;

const CUBIC_METRE: u8 = 3;

const WATT: u8 = 4;

const CUBIC_METRE_AN_HOUR: u8 = 5;

const DEGREE: u8 = 6;

// The low bits that a power of ten is taken from, by what leaves them: three, two or none. They are divisors, so numbers.
const N: u8 = 8;

const M: u8 = 4;

const NONE: u8 = 1;

// The unit byte of a time, and the structure that it goes with alone. (Here and below bytes and no enums: they stand in lines and records, where
// any other byte may stand too, and are compared with what stands there.)
pub const UNIT_OF_TIME: u8 = 0x6D;

pub const POINT_IN_TIME: u8 = 0x06;

// The structures of packed digits.
pub const FOUR_DIGITS: u8 = 0x0A;

pub const SIX_DIGITS: u8 = 0x0B;

pub const EIGHT_DIGITS: u8 = 0x0C;

pub const TWELVE_DIGITS: u8 = 0x0E;

// The structures of binary. Six bytes are the point in time too.
pub const ONE_BYTE: u8 = 0x01;

pub const TWO_BYTES: u8 = 0x02;

pub const THREE_BYTES: u8 = 0x03;

pub const FOUR_BYTES: u8 = 0x04;

pub const SIX_BYTES: u8 = 0x06;

pub const EIGHT_BYTES: u8 = 0x07;

// How many rows the table of quantities has.
const ROWS: usize = 8;

// A row of the table: first and last unit byte, quantity, unit, power of ten, whether it must be there, whether it may be below zero. (A macro:
// by a function the back end makes one number of a row's fields and takes them apart again, which is dearer.)
macro_rules! unit_row {
    ($first:expr, $last:expr, $quantity:expr, $unit:expr, $divisor:expr, $less:expr, $required:expr, $may_fall:expr) => {
        UnitRow {
            first: $first,
            last: $last,
            quantity: $quantity,
            unit: $unit,
            divisor: $divisor,
            less: $less,
            required: $required,
            may_fall: $may_fall,
        }
    };
}

// The table.
fn rows() -> [UnitRow; ROWS]
    ensures { result ≡ table }
{
    [
        unit_row!(0x00, 0x07, ENERGY, WATT_HOUR, N, 3, true, false),
        unit_row!(0x08, 0x0F, ENERGY, JOULE, N, 0, true, false),
        unit_row!(0x10, 0x17, VOLUME, CUBIC_METRE, N, 6, true, false),
        unit_row!(0x28, 0x2F, POWER, WATT, N, 3, false, false),
        unit_row!(0x38, 0x3F, FLOW, CUBIC_METRE_AN_HOUR, N, 6, false, true),
        unit_row!(0x58, 0x5B, INLET, DEGREE, M, 3, true, true),
        unit_row!(0x5C, 0x5F, OUTLET, DEGREE, M, 3, true, true),
        unit_row!(0x6D, 0x6D, TIME, NO_UNIT, NONE, 0, true, false),
    ]
}

// The row that has the unit byte. (Here and below rows are counted: over a `for` the back end keeps the table on the stack, which is dearer.)
pub fn row_of(unit: u8) -> UnitRow
    ensures { result ≡ row_of unit }
{
    let rows = rows();
    let mut i = 0;
    while i < ROWS {
        let row = rows[i];
        let inside = (row.first <= unit) & (unit <= row.last);
        if inside {
            return row;
        }
        i += 1;
    }
    unit_row!(0, 0, UNKNOWN, NO_UNIT, NONE, 0, false, false)
}

// A required quantity is not marked.
pub fn any_missing(marks: [bool; 8]) -> bool
    ensures { result ≡ lacking (λ q. get_or marks q false) }
{
    let rows = rows();
    let mut missing = false;
    let mut i = 0;
    while i < ROWS {
        let row = rows[i];
        let quantity = row.quantity as usize;
        missing = missing | (row.required & !marks[quantity]);
        i += 1;
    }
    missing
}

// How many rows the structures have.
const STRUCTURES: usize = 10;

// A row of the structures: the byte, the bytes of a value, whether they are packed digits, whether binary.
macro_rules! structure_row {
    ($structure:expr, $width:expr, $packed:expr, $binary:expr) => {
        StructureRow {
            structure: $structure,
            width: $width,
            packed: $packed,
            binary: $binary,
        }
    };
}

// The structures.
fn structures() -> [StructureRow; STRUCTURES]
    ensures { result ≡ structures }
{
    [
        structure_row!(FOUR_DIGITS, 2, true, false),
        structure_row!(SIX_DIGITS, 3, true, false),
        structure_row!(EIGHT_DIGITS, 4, true, false),
        structure_row!(TWELVE_DIGITS, 6, true, false),
        structure_row!(ONE_BYTE, 1, false, true),
        structure_row!(TWO_BYTES, 2, false, true),
        structure_row!(THREE_BYTES, 3, false, true),
        structure_row!(FOUR_BYTES, 4, false, true),
        structure_row!(SIX_BYTES, 6, false, true),
        structure_row!(EIGHT_BYTES, 8, false, true),
    ]
}

// The row that has the structure byte.
pub fn structure_of(structure: u8) -> StructureRow
    ensures { result ≡ structure_of structure }
{
    let rows = structures();
    let mut i = 0;
    while i < STRUCTURES {
        let row = rows[i];
        let same = structure == row.structure;
        if same {
            return row;
        }
        i += 1;
    }
    structure_row!(0, 0, false, false)
}
