// 20: the telegrams that no accepted line reads as.
#![tactic(auto)]

ghost use Rattle.std.specs.Prelude.{◌≡◌, ◌^◌, ◌≤◌, not};
ghost use Rattle.base_rules.specs.Lists.{any};
ghost use Rattle.mbus_rules.specs.Quantities.{width_of};
ghost use Rattle.mbus_rules.specs.Signs.{fits_signed};
ghost use Rattle.mbus_rules.specs.Writing.{used_value, used_entry, used_header, used_body, wrong_value, wrong_entry, unwritten_header, wrong_data, unwritable};
ghost use Rattle.mbus_writable.specs.Together.{wrong_together};

use base_numbers::signed::{is_below_zero, size_of};
use mbus_fields::binary::fits_binary;
use mbus_fields::headers::{heat_meter, maker_named};
use mbus_fields::moments::{date_exists, time_exists, weekday_exists};
use mbus_fields::quantities::{is_binary, is_paired, may_fall, quantity_of, width_of};
use mbus_rules::{Entry, Header, Kind, Telegram, Value};
use mbus_telegrams::is_method;
use mbus_telegrams::table::{UNIT_OF_TIME, any_missing};

// A value that is not blank.
fn used_value(value: Value) -> bool
    ensures { result ≡ used_value value }
{
    match value {
        Value::Number(d) => 0 < size_of(d.count),
        Value::Time(_) => true,
        Value::Binary(_) => true,
    }
}

// An entry place that is not blank.
fn used_entry(e: Entry) -> bool
    ensures { result ≡ used_entry e }
{
    (0 < e.structure) | (0 < e.unit) | used_value(e.value)
}

// One of the entry places is not blank.
fn any_used(entries: &[Entry]) -> bool
    ensures { result ≡ any used_entry entries.now }
{
    let mut found = false;
    for entry in entries {
        found |= used_entry(*entry);
    }
    found
}

// A field of the header is not zero. (Field by field, as the definition is: a comparison with a blank header is no plainer.)
fn used_header(h: Header) -> bool
    ensures { result ≡ used_header h }
{
    (0 < h.number)
        | (0 < h.maker)
        | (0 < h.version)
        | (0 < h.meter_type)
        | (0 < h.access)
        | (0 < h.status)
}

// A header or entries where the kind has none.
fn used_body(t: Telegram) -> bool
    ensures { result ≡ used_body t }
{
    used_header(t.header) | (0 < t.count) | any_used(&t.entries)
}

// One more than the greatest number that so many bytes have digits for.
fn limit_of(width: usize) -> u64
    requires { width ≤ 8 }
    ensures { result ≡ 100 ^ width }
{
    100u64.pow(width as u32)
}

// The number has more digits than the structure has places, of which a sign takes one.
fn is_long(structure: u8, count: i64) -> bool
    ensures { result ≡ not (fits_signed (width_of structure) count) }
{
    let limit = limit_of(width_of(structure));
    let size = size_of(count);
    if is_below_zero(count) {
        return (limit - 1) / 10 < size;
    }
    limit <= size
}

// A value of the wrong kind for its unit or its structure, too long for its structure, below zero where none is allowed, or a point in
// time that does not exist.
fn wrong_value(structure: u8, unit: u8, value: Value) -> bool
    ensures { result ≡ wrong_value structure unit value }
{
    let binary = is_binary(structure);
    match value {
        Value::Number(d) => {
            if binary {
                return true;
            }
            (unit == UNIT_OF_TIME)
                | is_long(structure, d.count)
                | (is_below_zero(d.count) & !may_fall(unit))
        }
        Value::Binary(w) => {
            (unit == UNIT_OF_TIME)
                | !binary
                | !fits_binary(width_of(structure), w.count)
                | (is_below_zero(w.count) & !may_fall(unit))
        }
        Value::Time(m) => {
            (unit != UNIT_OF_TIME) | !date_exists(m) | !time_exists(m) | !weekday_exists(m)
        }
    }
}

fn wrong_entry(e: Entry) -> bool
    ensures { result ≡ wrong_entry e }
{
    !is_paired(e.structure, e.unit) | wrong_value(e.structure, e.unit, e.value)
}

fn unwritten_header(h: Header) -> bool
    ensures { result ≡ unwritten_header h }
{
    (100_000_000 <= h.number) | !maker_named(h.maker) | !heat_meter(h.meter_type)
}

// Of the entries: one is wrong, one repeats a quantity, or a required quantity is missing.
fn wrong_entries(entries: &[Entry]) -> bool
    ensures { result ≡ wrong_together entries.now }
{
    let mut seen = [false; 8];
    let mut wrong = false;
    for entry in entries {
        let quantity = quantity_of(entry.unit) as usize;
        wrong = wrong | wrong_entry(*entry) | seen[quantity];
        seen[quantity] = true;
    }
    wrong | any_missing(seen)
}

// A header, a count or entries that no data line has.
fn wrong_data(t: Telegram) -> bool
    ensures { result ≡ wrong_data t }
{
    let count = t.count;
    if 7 < count {
        return true;
    }
    unwritten_header(t.header) | wrong_entries(&t.entries[..count]) | any_used(&t.entries[count..])
}

// No accepted line reads as this telegram.
#[tactic(auto, unfolding(mbus_rules::specs::Writing::unwritable))]
pub fn is_unwritable(t: Telegram) -> bool
    ensures { result ≡ unwritable t }
{
    match t.kind {
        Kind::Ack => (0 < t.address) | (0 < t.method) | used_body(t),
        Kind::Read | Kind::Leave => (0 < t.method) | used_body(t),
        Kind::Enter => !is_method(t.method) | used_body(t),
        Kind::Data => (0 < t.method) | wrong_data(t),
    }
}
