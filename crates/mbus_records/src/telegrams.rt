// The record of a telegram.
ghost use Rattle.std.specs.Prelude.{◌≡◌, ◌+◌, ◌≤◌, length};
ghost use Rattle.base_numbers.specs.Numbers.{bytes_of};
ghost use Rattle.base_rules.specs.Lists.{at};
ghost use Rattle.mbus_rules.specs.declared.Value.TheVariants.{Time};
ghost use Rattle.base_rules.specs.Shown.{shown};
ghost use Rattle.mbus_records.specs.Telegrams.{sort_of, value_record, entry_bytes, entries_bytes, telegram_head, telegram_bytes, value_in, entry_in, entry_at, entries_in};
ghost use Rattle.mbus_records.specs.Telegrams.{header_in, telegram_in, telegram_from};

use base_lent::{is_same, lay};
use base_numbers::signed::{count_of, word_of};
use base_numbers::{bytes_of, number_at, put_record};
use base_rules::Refusal;
use mbus_rules::{Decimal, Entry, Header, Kind, Moment, Telegram, Value, Whole};
use mbus_telegrams::kinds::{kind_in, kind_number};

// The bytes of a telegram's record.
pub const SIZE: usize = 136;

// The number of a value's sort. (A match: the cases hold values, so `as` does not tell their number.)
fn sort_of(value: Value) -> u8
    ensures { result ≡ sort_of value }
{
    match value {
        Value::Number(_) => 0,
        Value::Time(_) => 1,
        Value::Binary(_) => 2,
    }
}

// The eight bytes of a point in time as one word.
fn moment_word(m: Moment) -> u64
    ensures { bytes_of 8 result ≡ value_record (Time m) }
{
    let date = m.year as u64 + 256 * m.month as u64 + 65536 * m.day as u64;
    let time = m.hour as u64 + 256 * m.minute as u64 + 65536 * m.second as u64;
    date + 16777216 * time + 281474976710656 * m.weekday as u64
}

// The eight bytes of a value as one word: they are then written at once, whichever sort it is.
fn value_word(value: Value) -> u64
    ensures { bytes_of 8 result ≡ value_record value }
{
    match value {
        Value::Number(d) => word_of(d.count),
        Value::Time(m) => moment_word(m),
        Value::Binary(w) => word_of(w.count),
    }
}

fn value_bytes(value: Value) -> [u8; 8]
    ensures { result ≡ value_record value }
{
    bytes_of(value_word(value))
}

// The record of an entry.
pub fn entry_bytes(e: Entry) -> [u8; 16]
    ensures { result ≡ entry_bytes e }
{
    let mut bytes = [0; 16];
    bytes[0] = e.structure;
    bytes[1] = e.unit;
    bytes[2] = sort_of(e.value);
    bytes[8..].copy_from_slice(&value_bytes(e.value));
    bytes
}

// All that stands before the count.
fn head_bytes(t: Telegram) -> [u8; 16]
    ensures { result ≡ telegram_head t }
{
    let h = t.header;
    let n = bytes_of(h.number as u64);
    let m = bytes_of(h.maker as u64);
    [
        kind_number(t.kind),
        t.address,
        t.method,
        h.version,
        n[0],
        n[1],
        n[2],
        n[3],
        m[0],
        m[1],
        h.meter_type,
        h.access,
        h.status,
        0,
        0,
        0,
    ]
}

fn entries_bytes(entries: [Entry; 7]) -> [u8; 112]
    ensures { result ≡ entries_bytes entries }
{
    let mut bytes = [0u8; 112];
    for (i, entry) in entries.iter().enumerate() {
        lay(&mut bytes, 16 * i, &entry_bytes(*entry));
    }
    bytes
}

// The record of a telegram.
pub fn telegram_bytes(t: Telegram) -> [u8; 136]
    ensures { result ≡ telegram_bytes t }
{
    let mut bytes = [0u8; 136];
    put_record(
        &mut bytes,
        &head_bytes(t),
        &[t.count as u64],
        &entries_bytes(t.entries),
    );
    bytes
}

// The value of an entry, by the sort in its third byte.
fn value_in(b: &[u8]) -> Value
    requires { length b.now ≡ 16 }
    ensures { result ≡ value_in (at b.now 2) b.now }
{
    if b[2] == 1 {
        return Value::Time(Moment {
            year: b[8],
            month: b[9],
            day: b[10],
            hour: b[11],
            minute: b[12],
            second: b[13],
            weekday: b[14],
        });
    }
    let count = count_of(number_at(b, 8, 8));
    if b[2] == 2 {
        return Value::Binary(Whole { count });
    }
    Value::Number(Decimal { count })
}

#[tactic(auto, unfolding(crate::specs::Telegrams::entry_in))]
fn entry_in(b: &[u8]) -> Entry
    requires { length b.now ≡ 16 }
    ensures { result ≡ entry_in b.now }
{
    Entry {
        structure: b[0],
        unit: b[1],
        value: value_in(b),
    }
}

fn header_in(b: &[u8]) -> Header
    requires { length b.now ≡ 136 }
    ensures { result ≡ header_in b.now }
{
    let number = number_at(b, 4, 4) as u32;
    let maker = number_at(b, 8, 2) as u16;
    Header {
        number,
        maker,
        version: b[3],
        meter_type: b[10],
        access: b[11],
        status: b[12],
    }
}

fn entry_at(b: &[u8], at: usize) -> Entry
    requires { at + 16 ≤ length b.now }
    ensures { result ≡ entry_at b.now at }
{
    entry_in(&b[at..at + 16])
}

// (Entry by entry: a loop would have to fill the array with blank entries first.)
fn entries_in(b: &[u8]) -> [Entry; 7]
    requires { length b.now ≡ 112 }
    ensures { result ≡ entries_in 7 b.now }
{
    [
        entry_at(b, 0),
        entry_at(b, 16),
        entry_at(b, 32),
        entry_at(b, 48),
        entry_at(b, 64),
        entry_at(b, 80),
        entry_at(b, 96),
    ]
}

// The telegram that the bytes give, whether they are its record or not.
fn telegram_in(b: &[u8]) -> Telegram
    requires { length b.now ≡ 136 }
    ensures { result ≡ telegram_in b.now }
{
    let kind = kind_in(b[0]);
    let address = b[1];
    let method = b[2];
    let header = header_in(b);
    let count = number_at(b, 16, 8) as usize;
    let entries = entries_in(&b[24..136]);
    Telegram {
        kind,
        address,
        method,
        header,
        count,
        entries,
    }
}

// The telegram whose record the bytes are, or refused by 101.
pub fn telegram_from(b: &[u8]) -> Result<Telegram, Refusal>
    ensures { result ≡ shown (telegram_from b.now) }
{
    if b.len() != SIZE {
        return Err(Refusal::NO_RECORD);
    }
    let telegram = telegram_in(b);
    let again = telegram_bytes(telegram);
    if is_same(b, &again) {
        return Ok(telegram);
    }
    Err(Refusal::NO_RECORD)
}
