// The bytes of a telegram, without parity.
ghost use Rattle.std.specs.Prelude.{◌≡◌, true, false, [], ◌∷◌, ◌++◌, ◌+◌, ◌*◌, ◌/◌, ◌%◌, ◌≤◌, length, take};
ghost use Rattle.mbus_rules.specs.Signs.{fits_signed};
ghost use Rattle.base_numbers.specs.TwosComplement.{binary_bytes};
ghost use Rattle.mbus_rules.specs.Quantities.{width_of};
ghost use Rattle.mbus_rules.specs.Moments.{date_exists, time_exists, weekday_exists};
ghost use Rattle.mbus_rules.specs.Writing.{moment_bytes, bytes_of_header, short_frame, long_frame, bytes_of_kind, longest, unwritable};
ghost use Rattle.mbus_writing.specs.Laying.{signed_six, eight_bytes, exists, EntryFits, EntryLaid, EntriesFit, EntriesLaid};
ghost use Rattle.mbus_writing.specs.Laying.{FrameClosed, BytesLaid, DataFits};

use base_characters::sum_of;
use base_digits::packed_digits;
use base_lent::lay;
use base_numbers::bytes_of;
use base_numbers::signed::{is_below_zero, size_of, word_of};
use mbus_fields::quantities::width_of;
use mbus_rules::{Entry, Header, Kind, Moment, Telegram, Value};

fn moment_bytes(m: Moment) -> [u8; 6]
    requires { (date_exists m ≡ true) × (time_exists m ≡ true) × (weekday_exists m ≡ true) }
    ensures { result ≡ moment_bytes m }
{
    let hour = 32 * m.weekday + m.hour;
    let day = 32 * (m.year % 8) + m.day;
    let month = 16 * (m.year / 8) + m.month;
    [m.second, m.minute, hour, day, month, 0]
}

// The number in six bytes, of which the width says how many count: F stands in their highest place where it is below zero.
fn signed_six(width: usize, count: i64) -> [u8; 6]
    requires { (fits_signed width count ≡ true) × (width ≤ 6) }
    ensures { result ≡ signed_six width count }
{
    let mut b = packed_digits(size_of(count));
    if is_below_zero(count) {
        b[width - 1] = 0xF0 + b[width - 1] % 16;
    }
    b
}

// Six bytes, and two more that do not count.
fn widened(b: [u8; 6]) -> [u8; 8]
    ensures { result ≡ b ++ (0 ∷ 0 ∷ []) }
{
    let mut eight = [0; 8];
    eight[..6].copy_from_slice(&b);
    eight
}

// The number in eight bytes of binary: the lowest of them are the number in so many.
fn binary_eight(count: i64) -> [u8; 8]
    ensures { result ≡ binary_bytes 8 count }
{
    bytes_of(word_of(count))
}

// The value in eight bytes, of which the width says how many count.
fn value_bytes(width: usize, value: Value) -> [u8; 8]
    requires { exists width value ≡ true }
    ensures { result ≡ eight_bytes width value }
{
    match value {
        Value::Number(d) => widened(signed_six(width, d.count)),
        Value::Time(m) => widened(moment_bytes(m)),
        Value::Binary(w) => binary_eight(w.count),
    }
}

fn entry_bytes(e: Entry) -> [u8; 10]
    requires { exists (width_of e.structure) e.value ≡ true }
    ensures { result ≡ e.structure ∷ e.unit ∷ eight_bytes (width_of e.structure) e.value }
{
    let mut bytes = [0; 10];
    bytes[0] = e.structure;
    bytes[1] = e.unit;
    bytes[2..].copy_from_slice(&value_bytes(width_of(e.structure), e.value));
    bytes
}

// The start of a data line, up to its entries.
fn head_bytes(l: u8, address: u8, h: Header) -> [u8; 19]
    ensures { result ≡ 0x68 ∷ l ∷ l ∷ 0x68 ∷ 0x08 ∷ address ∷ 0x72 ∷ bytes_of_header h }
{
    let [first, second, third, fourth] = packed_digits::<4>(h.number as u64);
    let low = (h.maker % 256) as u8;
    let high = (h.maker / 256) as u8;
    [
        0x68,
        l,
        l,
        0x68,
        0x08,
        address,
        0x72,
        first,
        second,
        third,
        fourth,
        low,
        high,
        h.version,
        h.meter_type,
        h.access,
        h.status,
        0,
        0,
    ]
}

// Puts an entry from a place on, and answers the place after it.
fn put_entry(bytes: &mut [u8], at: usize, e: Entry) -> usize
    requires { EntryFits e bytes.old at }
    ensures { EntryLaid e bytes.old bytes.new at result }
{
    let b = entry_bytes(e);
    let width = 2 + width_of(e.structure);
    lay(bytes, at, &b[..width]);
    at + width
}

// Puts the entries within the count from place 19 on, and answers the place after them.
fn put_entries(entries: [Entry; 7], count: usize, bytes: &mut [u8]) -> usize
    requires { EntriesFit entries count bytes.old }
    ensures { EntriesLaid (take count entries) bytes.old bytes.new result }
{
    let mut at = 19;
    for entry in &entries[..count] {
        at = put_entry(bytes, at, *entry);
    }
    at
}

// Closes a frame: the sum of the bytes from a place up to the end, then 16. Answers the place after them. (That the places are those of the
// longest line is asked here and below: EntryFits, EntriesFit and DataFits say it of a list beside what else they ask, so an array in the type
// would only say it a second time.)
fn close(bytes: &mut [u8], from: usize, end: usize) -> usize
    requires { (from ≤ end) × (end + 2 ≤ longest) × (length bytes.old ≡ longest) }
    ensures { FrameClosed bytes.old bytes.new from end result }
{
    let sum = sum_of(&bytes[from..end]);
    lay(bytes, end, &[sum, 0x16]);
    end + 2
}

fn put_read(address: u8, bytes: &mut [u8]) -> usize
    requires { length bytes.old ≡ longest }
    ensures { BytesLaid (short_frame (0x5B ∷ address ∷ [])) bytes.new result }
{
    lay(bytes, 0, &[0x10, 0x5B, address]);
    close(bytes, 1, 3)
}

fn put_command(address: u8, method: u8, bytes: &mut [u8]) -> usize
    requires { length bytes.old ≡ longest }
    ensures { BytesLaid (long_frame (0x53 ∷ address ∷ 0x50 ∷ method ∷ [])) bytes.new result }
{
    lay(bytes, 0, &[0x68, 4, 4, 0x68, 0x53, address, 0x50, method]);
    close(bytes, 4, 8)
}

fn put_data(t: Telegram, bytes: &mut [u8]) -> usize
    requires { DataFits t bytes.old }
    ensures { BytesLaid (bytes_of_kind Kind.Data t) bytes.new result }
{
    let end = put_entries(t.entries, t.count, bytes);
    lay(bytes, 0, &head_bytes((end - 4) as u8, t.address, t.header));
    close(bytes, 4, end)
}

// Puts the bytes of a telegram in the first places, and answers how many they are.
pub(crate) fn put_bytes(t: Telegram, bytes: &mut [u8]) -> usize
    requires { (unwritable t ≡ false) × (length bytes.old ≡ longest) }
    ensures { BytesLaid (bytes_of_kind t.kind t) bytes.new result }
{
    match t.kind {
        Kind::Ack => {
            lay(bytes, 0, &[0xE5]);
            1
        }
        Kind::Read => put_read(t.address, bytes),
        Kind::Enter => put_command(t.address, t.method, bytes),
        Kind::Leave => put_command(t.address, 0, bytes),
        Kind::Data => put_data(t, bytes),
    }
}
