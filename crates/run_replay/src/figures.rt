// What an answer tells: its volume in millilitres and its time.
ghost use Rattle.std.specs.Prelude.{◌≡◌, ◌^◌, ◌<◌};
ghost use Rattle.bundle_rows.specs.Rows.{unchecked_characters};
ghost use Rattle.run_replay.specs.Figures.{volume_count, millilitre_power, millilitres, moment_in, entry_with, told_by, line_tells};
ghost use Rattle.run_replay.specs.Shown.{capped_volume, shown_told};

use base_numbers::signed::size_of;
use bundle_rows::unchecked_characters;
use mbus_fields::moments::moment_of;
use mbus_fields::quantities::quantity_of;
use mbus_reading::read_line;
use mbus_rules::{Entry, Kind, Moment, Telegram, Value};
use mbus_telegrams::table::{TIME, VOLUME, row_of};
use mbus_telegrams::{bare, blank_entry};

// A volume in millilitres, 10^9 + 1 standing for every larger one, and a time.
#[derive(Clone, Copy)]
pub(crate) struct Figures {
    pub(crate) volume: u64,
    pub(crate) time: Moment,
}

// The largest volume in millilitres.
pub(crate) const VOLUME_MOST: u64 = 1_000_000_000;

// The most characters of a row.
const MOST: usize = 502;

fn volume_count(value: Value) -> u64
    ensures { result ≡ volume_count value }
{
    match value {
        Value::Number(d) => size_of(d.count),
        Value::Time(_) => 0,
        Value::Binary(w) => size_of(w.count),
    }
}

// 10^n.
fn ten_to(n: u8) -> u64
    requires { n < 8 }
    ensures { result ≡ 10 ^ n }
{
    10u64.pow(n as u32)
}

// One of the last digit of a volume, in millilitres.
fn digit_of(unit: u8) -> u64
    ensures { result ≡ 10 ^ millilitre_power unit }
{
    let row = row_of(unit);
    ten_to(unit % row.divisor) * ten_to(6 - row.less)
}

// The volume in millilitres of an entry. Whether it is over 10^9 is told without computing it, so that no value overflows.
fn volume_of(e: Entry) -> u64
    ensures { result ≡ capped_volume (millilitres e) }
{
    let count = volume_count(e.value);
    let unit = digit_of(e.unit);
    if VOLUME_MOST / unit < count {
        return VOLUME_MOST + 1;
    }
    count * unit
}

// The point in time of a value.
fn moment_in(value: Value) -> Moment
    ensures { result ≡ moment_in value }
{
    match value {
        Value::Time(m) => m,
        Value::Number(_) | Value::Binary(_) => moment_of(b""),
    }
}

// The entry that has the quantity.
fn entry_with(entries: &[Entry], quantity: u8) -> Entry
    ensures { result ≡ entry_with quantity entries.now }
{
    match entries.iter().find(|e| quantity_of(e.unit) == quantity) {
        Some(e) => *e,
        None => blank_entry(),
    }
}

// What a telegram tells.
fn told_by(telegram: Telegram) -> Figures
    ensures { result ≡ shown_told (told_by telegram) }
{
    let volume = volume_of(entry_with(&telegram.entries, VOLUME));
    let time = moment_in(entry_with(&telegram.entries, TIME).value);
    Figures { volume, time }
}

// What the line of row i tells.
pub(crate) fn figures_at(bundle: &[u8], i: usize) -> Figures
    ensures { result ≡ shown_told (line_tells (unchecked_characters bundle.now i 502)) }
{
    let mut line = [0u16; MOST];
    let count = unchecked_characters(bundle, i, &mut line);
    let read = read_line(&line[..count]);
    told_by(read.unwrap_or(bare(Kind::Ack, 0, 0)))
}
