// The record of a simulated meter: bytes of a fixed size, numbers low byte first.
#![tactic(auto)]

ghost use Rattle.std.specs.Prelude.{◌≡◌, drop};
ghost use Rattle.base_rules.specs.Shown.{shown};
ghost use Rattle.mbus_rules.specs.Lines.{is_method};
ghost use Rattle.mbus_records.specs.Telegrams.{telegram_bytes};
ghost use Rattle.meter_record.specs.MeterRecords.{mode_number, method_of, since_of, meter_head, meter_front, meter_bytes, mode_in, meter_in};
ghost use Rattle.meter_record.specs.MeterRecords.{wrong_mode, wrong_pair, unreached, recalled, meter_from};

use base_lent::{is_same, lay};
use base_numbers::{bytes_of, number_at, put_record};
use base_rules::Refusal;
use bench_clock::Clock;
use mbus_records::telegrams::{telegram_bytes, telegram_from};
use mbus_rules::Telegram;
use mbus_telegrams::is_method;
use meter_steps::{Core, Meter, Mode};
use meter_template::{Pair, TOTAL_MOST, is_unfit};

// The bytes of a meter's record.
pub const SIZE: usize = 192;

fn mode_number(mode: Mode) -> u8
    ensures { result ≡ mode_number mode }
{
    matches!(mode, Mode::Verifying(_, _)) as u8
}

fn method_of(mode: Mode) -> u8
    ensures { result ≡ method_of mode }
{
    match mode {
        Mode::Use => 0,
        Mode::Verifying(method, _) => method,
    }
}

fn since_of(mode: Mode) -> u64
    ensures { result ≡ since_of mode }
{
    match mode {
        Mode::Use => 0,
        Mode::Verifying(_, since) => since.0,
    }
}

// The part of the record before the numbers.
fn head_bytes(last: u64, own: u8, mode: Mode) -> [u8; 16]
    ensures { result ≡ meter_head last own mode }
{
    let number = mode_number(mode);
    let method = method_of(mode);
    let step = bytes_of(last);
    [
        step[0], step[1], step[2], step[3], step[4], step[5], step[6], step[7], own, number,
        method, 0, 0, 0, 0, 0,
    ]
}

// The mode alone, so that the caller holds no second core.
fn mode_of(core: Core) -> Mode
    ensures { result ≡ core.mode }
{
    core.mode
}

// All of the record but the template.
fn front_bytes(m: Meter) -> [u8; 56]
    ensures { result ≡ meter_front m }
{
    let mode = mode_of(m.core);
    let head = head_bytes(m.last.0, m.core.address, mode);
    let words = [
        since_of(mode),
        m.core.used.volume,
        m.core.used.energy,
        m.core.verified.volume,
        m.core.verified.energy,
    ];
    let mut bytes = [0u8; 56];
    put_record(&mut bytes, &head, &words, b"");
    bytes
}

// The record of a meter.
pub fn meter_bytes(m: Meter) -> [u8; 192]
    ensures { result ≡ meter_bytes m }
{
    let front = front_bytes(m);
    let template = telegram_bytes(m.core.template);
    let mut bytes = [0u8; 192];
    lay(&mut bytes, 0, &front);
    lay(&mut bytes, 56, &template);
    bytes
}

fn mode_in(b: &[u8; 192]) -> Mode
    ensures { result ≡ mode_in b.now }
{
    let verifies = b[9] == 1;
    if verifies {
        let since = number_at(b, 16, 8);
        return Mode::Verifying(b[10], Clock(since));
    }
    Mode::Use
}

// The meter that the bytes and a template give, whether they are its record or not.
fn meter_in(b: &[u8; 192], template: Telegram) -> Meter
    ensures { result ≡ meter_in b.now template }
{
    let last = number_at(b, 0, 8);
    let mode = mode_in(b);
    let used = Pair {
        volume: number_at(b, 24, 8),
        energy: number_at(b, 32, 8),
    };
    let verified = Pair {
        volume: number_at(b, 40, 8),
        energy: number_at(b, 48, 8),
    };
    Meter {
        last: Clock(last),
        core: Core {
            address: b[8],
            mode,
            used,
            verified,
            template,
        },
    }
}

fn wrong_mode(last: Clock, mode: Mode) -> bool
    ensures { result ≡ wrong_mode last.0 mode }
{
    match mode {
        Mode::Use => false,
        Mode::Verifying(method, since) => {
            let known = is_method(method);
            let after = since.earlier(last);
            let due = since.due(last);
            !known | after | due
        }
    }
}

fn wrong_pair(least: Pair, p: Pair) -> bool
    ensures { result ≡ wrong_pair least p }
{
    let volume = (p.volume < least.volume) | (TOTAL_MOST < p.volume);
    let energy = (p.energy < least.energy) | (TOTAL_MOST < p.energy);
    volume | energy
}

// No history leads to the meter.
fn is_unreached(m: Meter) -> bool
    ensures { result ≡ unreached m }
{
    let mode = mode_of(m.core);
    let entries = m.core.template.entries;
    let least = Pair::of(entries);
    let zeros = Pair {
        volume: 0,
        energy: 0,
    };
    let unfit = is_unfit(m.core.template);
    let stuck = wrong_mode(m.last, mode);
    let low = wrong_pair(least, m.core.used);
    let high = wrong_pair(zeros, m.core.verified);
    unfit | stuck | low | high
}

// The meter that the bytes and a template give, if they are its record and some history leads to it. The template's own bytes were held
// against it when it was taken, and are not again.
fn recalled(b: &[u8; 192], template: Telegram) -> Result<Meter, Refusal>
    requires { telegram_bytes template ≡ drop 56 b.now }
    ensures { result ≡ shown (recalled b.now (meter_in b.now template)) }
{
    let meter = meter_in(b, template);
    let again = front_bytes(meter);
    let same = is_same(&b[..56], &again);
    let other = !same;
    if other {
        return Err(Refusal::NO_RECORD);
    }
    if is_unreached(meter) {
        return Err(Refusal::NO_RECORD);
    }
    Ok(meter)
}

// The meter whose record the bytes are, or refused by 101.
pub fn meter_from(b: &[u8]) -> Result<Meter, Refusal>
    ensures { result ≡ shown (meter_from b.now) }
{
    let Some(b) = b.as_array::<SIZE>() else {
        return Err(Refusal::NO_RECORD);
    };
    let template = telegram_from(&b[56..192])?;
    recalled(b, template)
}
