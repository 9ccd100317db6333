// The record of a CJ/T 188 telegram.
#![tactic(auto)]

ghost use Rattle.std.specs.Prelude.{◌≡◌, ◌++◌, ◌+◌, ◌≤◌, length};
ghost use Rattle.base_lent.specs.Pieces.{pieces};
ghost use Rattle.base_numbers.specs.Numbers.{bytes_of};
ghost use Rattle.base_numbers.specs.Records.{words_of};
ghost use Rattle.base_rules.specs.Shown.{shown};
ghost use Rattle.cjt_records.specs.CjtRecords.{broadcast_byte, address_number, head_bytes, quantity_bytes, quantities_of, clock_bytes, tail_bytes, cjt_bytes};
ghost use Rattle.cjt_records.specs.CjtRecords.{number_in, quantity_in, clock_in, address_in, tells_in_record, cjt_in, cjt_from};

use base_lent::{is_same, lay};
use base_numbers::{bytes_of, number_at, put_record};
use base_rules::Refusal;
use cjt_rules::{CjtAddress, CjtAnswer, CjtClock, CjtQuantity, CjtRequest, CjtTelegram};

// The bytes of a telegram's record.
pub const SIZE: usize = 80;

fn broadcast_byte(address: CjtAddress) -> u8
    ensures { result ≡ broadcast_byte address }
{
    matches!(address, CjtAddress::Broadcast) as u8
}

fn address_number(address: CjtAddress) -> u64
    ensures { result ≡ address_number address }
{
    match address {
        CjtAddress::Meter(n) => n,
        CjtAddress::Broadcast => 0,
    }
}

// All that stands before the values.
fn head_bytes(
    kind: u8,
    sort: u8,
    serial: u8,
    broadcast: u8,
    first: u8,
    second: u8,
    address: u64,
) -> [u8; 16]
    ensures { result ≡ head_bytes kind sort serial broadcast first second address }
{
    let n = bytes_of(address);
    [
        kind, sort, serial, broadcast, first, second, 0, 0, n[0], n[1], n[2], n[3], n[4], n[5],
        n[6], n[7],
    ]
}

fn clock_bytes(c: CjtClock) -> [u8; 8]
    ensures { result ≡ clock_bytes c }
{
    let y = bytes_of(c.year as u64);
    [y[0], y[1], c.month, c.day, c.hour, c.minute, c.second, 0]
}

// Two numbers of four bytes each as one of eight.
fn two_fours(low: u32, high: u32) -> u64
    ensures { bytes_of 8 result ≡ bytes_of 4 low ++ bytes_of 4 high }
{
    low as u64 + 4294967296 * high as u64
}

// What stands between the head and the clock: the values, the temperatures and the hours.
fn answer_words(a: CjtAnswer) -> [u64; 7]
    ensures { words_of result ++ clock_bytes a.clock ≡ pieces quantity_bytes (quantities_of a) ++ tail_bytes a }
{
    let cold = a.cold;
    let heat = a.heat;
    let power = a.power;
    let flow = a.flow;
    let volume = a.volume;
    let c = two_fours(cold.count, cold.code as u32);
    let h = two_fours(heat.count, heat.code as u32);
    let p = two_fours(power.count, power.code as u32);
    let f = two_fours(flow.count, flow.code as u32);
    let v = two_fours(volume.count, volume.code as u32);
    let temperatures = two_fours(a.inlet, a.outlet);
    let hours = two_fours(a.hours, 0);
    [c, h, p, f, v, temperatures, hours]
}

fn request_bytes(q: CjtRequest) -> [u8; 80]
    ensures { result ≡ cjt_bytes (CjtTelegram.Request q) }
{
    let address = q.address;
    let broadcast = broadcast_byte(address);
    let n = address_number(address);
    let head = head_bytes(1, q.meter_type, q.serial, broadcast, 0, 0, n);
    let mut bytes = [0u8; 80];
    lay(&mut bytes, 0, &head);
    bytes
}

fn answer_bytes(a: CjtAnswer) -> [u8; 80]
    ensures { result ≡ cjt_bytes (CjtTelegram.Answer a) }
{
    let clock = a.clock;
    let head = head_bytes(
        2,
        a.meter_type,
        a.serial,
        0,
        a.first_state,
        a.second_state,
        a.address,
    );
    let words = answer_words(a);
    let tail = clock_bytes(clock);
    let mut bytes = [0u8; 80];
    put_record(&mut bytes, &head, &words, &tail);
    bytes
}

// The record of a telegram.
pub fn cjt_bytes(telegram: CjtTelegram) -> [u8; 80]
    ensures { result ≡ cjt_bytes telegram }
{
    match telegram {
        CjtTelegram::Request(request) => request_bytes(request),
        CjtTelegram::Answer(answer) => answer_bytes(answer),
    }
}

fn quantity_in(b: &[u8], place: usize) -> CjtQuantity
    requires { place + 8 ≤ length b.now }
    ensures { result ≡ quantity_in b.now place }
{
    let count = number_at(b, place, 4) as u32;
    CjtQuantity {
        count,
        code: b[place + 4],
    }
}

fn clock_in(b: &[u8; 80]) -> CjtClock
    ensures { result ≡ clock_in b.now }
{
    let year = number_at(b, 72, 2) as u16;
    CjtClock {
        year,
        month: b[74],
        day: b[75],
        hour: b[76],
        minute: b[77],
        second: b[78],
    }
}

fn address_in(b: &[u8; 80]) -> CjtAddress
    ensures { result ≡ address_in b.now }
{
    let broadcast = b[3] == 1;
    if broadcast {
        return CjtAddress::Broadcast;
    }
    CjtAddress::Meter(number_at(b, 8, 8))
}

// A number of four bytes.
fn four_in(b: &[u8], place: usize) -> u32
    ensures { result ≡ number_in b.now place 4 }
{
    number_at(b, place, 4) as u32
}

fn answer_in(b: &[u8; 80]) -> CjtAnswer
    ensures { result ≡ tells_in_record b.now }
{
    let address = number_at(b, 8, 8);
    let cold = quantity_in(b, 16);
    let heat = quantity_in(b, 24);
    let power = quantity_in(b, 32);
    let flow = quantity_in(b, 40);
    let volume = quantity_in(b, 48);
    let inlet = four_in(b, 56);
    let outlet = four_in(b, 60);
    let hours = four_in(b, 64);
    let clock = clock_in(b);
    CjtAnswer {
        meter_type: b[1],
        address,
        serial: b[2],
        cold,
        heat,
        power,
        flow,
        volume,
        inlet,
        outlet,
        hours,
        clock,
        first_state: b[4],
        second_state: b[5],
    }
}

// The telegram that the bytes give, whether they are its record or not.
fn cjt_in(b: &[u8; 80]) -> CjtTelegram
    ensures { result ≡ cjt_in b.now }
{
    let tells = b[0] == 2;
    if tells {
        return CjtTelegram::Answer(answer_in(b));
    }
    let address = address_in(b);
    CjtTelegram::Request(CjtRequest {
        meter_type: b[1],
        address,
        serial: b[2],
    })
}

// The telegram whose record the bytes are, or refused by 101.
pub fn cjt_from(b: &[u8]) -> Result<CjtTelegram, Refusal>
    ensures { result ≡ shown (cjt_from b.now) }
{
    let Some(b) = b.as_array::<SIZE>() else {
        return Err(Refusal::NO_RECORD);
    };
    let telegram = cjt_in(b);
    let again = cjt_bytes(telegram);
    let same = is_same(b, &again);
    if same {
        return Ok(telegram);
    }
    Err(Refusal::NO_RECORD)
}
