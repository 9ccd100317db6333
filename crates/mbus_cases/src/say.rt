// Answers, written to standard output word by word.
use base_rules::Refusal;
use mbus_rules::{Entry, Header, Kind, Moment, Telegram, Value};
use std::io;
use std::prelude::Print;

pub(crate) fn say(to: io::Stdout, text: &[u8]) -> io::Result<()> {
    to.write_all(text)
}

pub(crate) fn say_one(to: io::Stdout, b: u8) -> io::Result<()> {
    let text = [b];
    say(to, &text)
}

// A hexadecimal digit, of a number's last four bits.
fn digit(n: u8) -> u8 {
    let d = n % 16;
    if d < 10 { b'0' + d } else { b'A' - 10 + d }
}

// Two hexadecimal digits behind a space.
fn say_byte(to: io::Stdout, b: u8) -> io::Result<()> {
    let text = [b' ', digit(b / 16), digit(b)];
    say(to, &text)
}

fn say_maker(to: io::Stdout, n: u16) -> io::Result<()> {
    let [low, high] = n.to_le_bytes();
    say_byte(to, high)?;
    let text = [digit(low / 16), digit(low)];
    say(to, &text)
}

// A decimal number with its sign, behind a space.
fn say_decimal(to: io::Stdout, n: u64) -> io::Result<()> {
    say(to, b" +")?;
    to.print(n)
}

// The same for a number that may be below zero.
fn say_signed(to: io::Stdout, n: i64) -> io::Result<()> {
    if n < 0 {
        say(to, b" -")?;
    } else {
        say(to, b" +")?;
    }
    to.print(n.unsigned_abs())
}

fn say_refusal(to: io::Stdout, refused: Refusal) -> io::Result<()> {
    say(to, b"refused ")?;
    to.print(refused.0)
}

pub(crate) fn say_reading(to: io::Stdout, reading: Result<Telegram, Refusal>) -> io::Result<()> {
    match reading {
        Err(refused) => say_refusal(to, refused),
        Ok(telegram) => say_telegram(to, telegram),
    }
}

// The kind, and then what a telegram of this kind carries.
fn say_telegram(to: io::Stdout, t: Telegram) -> io::Result<()> {
    match t.kind {
        Kind::Ack => say(to, b"ack"),
        Kind::Read => say_addressed(to, b"read", t.address),
        Kind::Leave => say_addressed(to, b"leave", t.address),
        Kind::Enter => {
            say_addressed(to, b"enter", t.address)?;
            say_byte(to, t.method)
        }
        Kind::Data => say_data(to, t),
    }
}

fn say_addressed(to: io::Stdout, kind: &[u8], address: u8) -> io::Result<()> {
    say(to, kind)?;
    say_byte(to, address)
}

fn say_data(to: io::Stdout, t: Telegram) -> io::Result<()> {
    say_addressed(to, b"data", t.address)?;
    say_byte(to, t.method)?;
    say_header(to, t.header)?;
    say_entries(to, t.count, t.entries)
}

fn say_header(to: io::Stdout, h: Header) -> io::Result<()> {
    say_decimal(to, h.number as u64)?;
    say_maker(to, h.maker)?;
    say_byte(to, h.version)?;
    say_byte(to, h.meter_type)?;
    say_byte(to, h.access)?;
    say_byte(to, h.status)
}

fn say_entries(to: io::Stdout, count: usize, entries: [Entry; 7]) -> io::Result<()> {
    say_decimal(to, count as u64)?;
    for entry in entries.iter().take(count) {
        say_entry(to, *entry)?;
    }
    Ok(())
}

fn say_entry(to: io::Stdout, e: Entry) -> io::Result<()> {
    say_byte(to, e.structure)?;
    say_byte(to, e.unit)?;
    match e.value {
        Value::Number(d) => {
            say(to, b" number")?;
            say_signed(to, d.count)
        }
        Value::Time(m) => say_moment(to, m),
        Value::Binary(w) => {
            say(to, b" binary")?;
            say_signed(to, w.count)
        }
    }
}

fn say_moment(to: io::Stdout, m: Moment) -> io::Result<()> {
    say(to, b" time")?;
    say_three(to, m.year, m.month, m.day)?;
    say_three(to, m.hour, m.minute, m.second)?;
    say_decimal(to, m.weekday as u64)
}

fn say_three(to: io::Stdout, a: u8, b: u8, c: u8) -> io::Result<()> {
    say_decimal(to, a as u64)?;
    say_decimal(to, b as u64)?;
    say_decimal(to, c as u64)
}
