// The data template of a simulated meter, and its pairs of totals.
#![tactic(auto)]

ghost use Rattle.std.specs.Prelude.{◌≡◌};
ghost use Rattle.base_rules.specs.Shown.{shown};
ghost use Rattle.meter_template.specs.Templates.{is_data_kind, holds, unfit_template, value_count, total_in, pair_in, counted, filled_entry, filled};
ghost use Rattle.meter_template.specs.Templates.{lacks, next_access, raised, data_with, passes, sum_of};

use base_numbers::signed::size_of;
use base_rules::Refusal;
use mbus_fields::quantities::quantity_of;
use mbus_rules::{Decimal, Entry, Kind, Telegram, Value};
use mbus_telegrams::table::{EIGHT_DIGITS, ENERGY, VOLUME};
use mbus_writable::is_unwritable;

// A pair of totals, each a count of the last digit that the template gives it.
#[derive(Clone, Copy)]
pub struct Pair {
    pub volume: u64,
    pub energy: u64,
}

// No total passes this.
pub const TOTAL_MOST: u64 = 99_999_999;

// The counts that an entry can have from 0 up, far more than totals.
const COUNTS: u64 = 0x8000_0000_0000_0000;

// Whether the entry has the quantity in eight digits.
fn holds(e: Entry, quantity: u8) -> bool
    ensures { result ≡ holds quantity e }
{
    (e.structure == EIGHT_DIGITS) & (quantity_of(e.unit) == quantity)
}

// Whether no entry has the quantity in eight digits.
fn lacks(entries: [Entry; 7], quantity: u8) -> bool
    ensures { result ≡ lacks quantity entries }
{
    !entries.iter().any(|e| holds(*e, quantity))
}

// Whether a telegram is data.
fn is_data(kind: Kind) -> bool
    ensures { result ≡ is_data_kind kind }
{
    matches!(kind, Kind::Data)
}

// Whether a telegram cannot be a template.
pub fn is_unfit(template: Telegram) -> bool
    ensures { result ≡ unfit_template template }
{
    let entries = template.entries;
    let unwritable = is_unwritable(template);
    let no_energy = lacks(entries, ENERGY);
    let no_volume = lacks(entries, VOLUME);
    !is_data(template.kind) | unwritable | no_energy | no_volume
}

fn count_of(value: Value) -> u64
    ensures { result ≡ value_count value }
{
    match value {
        Value::Number(d) => size_of(d.count),
        Value::Time(_) | Value::Binary(_) => 0,
    }
}

// The total of the quantity.
fn total_in(entries: [Entry; 7], quantity: u8) -> u64
    ensures { result ≡ total_in quantity entries }
{
    for e in entries.iter() {
        if holds(*e, quantity) {
            return count_of(e.value);
        }
    }
    0
}

// The entry with another count.
fn counted(e: Entry, total: u64) -> Entry
    ensures { result ≡ counted total e }
{
    let count = (total % COUNTS) as i64;
    Entry {
        structure: e.structure,
        unit: e.unit,
        value: Value::Number(Decimal { count }),
    }
}

// The entry with its total of the pair, if it has one.
fn filled_entry(e: Entry, pair: Pair) -> Entry
    ensures { result ≡ filled_entry pair e }
{
    if holds(e, VOLUME) {
        return counted(e, pair.volume);
    }
    if holds(e, ENERGY) {
        return counted(e, pair.energy);
    }
    e
}

// The access number after a read.
fn next_access(access: u8) -> u8
    ensures { result ≡ next_access access }
{
    if access == 255 { 0 } else { access + 1 }
}

// The template with the access number put up by one.
pub fn raised(template: Telegram) -> Telegram
    ensures { result ≡ raised template }
{
    let mut next = template;
    next.header.access = next_access(template.header.access);
    next
}

// The template as an answer: with an address and the totals of a pair.
pub fn data_with(address: u8, pair: Pair, template: Telegram) -> Telegram
    ensures { result ≡ data_with address pair template }
{
    Telegram {
        address,
        entries: pair.filled(template.entries),
        ..template
    }
}

// Whether a total and an amount together pass the limit, by a sum that cannot overflow.
fn would_pass(total: u64, amount: u64) -> bool
    ensures { result ≡ passes total amount }
{
    if TOTAL_MOST < total {
        return true;
    }
    TOTAL_MOST - total < amount
}

impl Pair {
    // The totals of a template's entries.
    pub fn of(entries: [Entry; 7]) -> Pair
        ensures { result ≡ pair_in entries }
    {
        Pair {
            volume: total_in(entries, VOLUME),
            energy: total_in(entries, ENERGY),
        }
    }

    // A template's entries with these totals.
    fn filled(self, entries: [Entry; 7]) -> [Entry; 7]
        ensures { result ≡ filled self entries }
    {
        let mut done = entries;
        for e in done.iter_mut() {
            *e = filled_entry(*e, self);
        }
        done
    }

    // The totals with amounts of any size added.
    pub fn plus(self, volume: u64, energy: u64) -> Result<Pair, Refusal>
        ensures { result ≡ shown (sum_of self volume energy) }
    {
        if would_pass(self.volume, volume) | would_pass(self.energy, energy) {
            return Err(Refusal::METER_TOTAL_TOO_LARGE);
        }
        Ok(Pair {
            volume: self.volume + volume,
            energy: self.energy + energy,
        })
    }
}
