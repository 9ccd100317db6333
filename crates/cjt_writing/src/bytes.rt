// The bytes of a telegram, without parity.
ghost use Rattle.std.specs.Prelude.{◌≡◌, [], ◌∷◌, ◌++◌, ◌+◌, length};
ghost use Rattle.base_lent.specs.Pieces.{pieces};
ghost use Rattle.base_digits.specs.Digits.{packed};
ghost use Rattle.base_characters.specs.Closing.{closed};
ghost use Rattle.cjt_rules.specs.CjtWriting.{bytes_of_party, bytes_of_quantity, bytes_of_clock, bytes_listed, bytes_of_telegram};

use base_characters::sum_of;
use base_digits::{packed_digits, two_digits};
use base_lent::lay;
use cjt_rules::{CjtAddress, CjtAnswer, CjtClock, CjtQuantity, CjtRequest, CjtTelegram};

fn party_bytes(address: CjtAddress) -> [u8; 7]
    ensures { result ≡ bytes_of_party address }
{
    match address {
        CjtAddress::Meter(n) => packed_digits(n),
        CjtAddress::Broadcast => [0xAA; 7],
    }
}

fn quantity_bytes(q: CjtQuantity) -> [u8; 5]
    ensures { result ≡ bytes_of_quantity q }
{
    let [first, second, third, fourth] = packed_digits::<4>(q.count as u64);
    [first, second, third, fourth, q.code]
}

fn quantities_bytes(values: [CjtQuantity; 5]) -> [u8; 25]
    ensures { result ≡ pieces bytes_of_quantity values }
{
    let mut bytes = [0u8; 25];
    for (i, &value) in values.iter().enumerate() {
        lay(&mut bytes, 5 * i, &quantity_bytes(value));
    }
    bytes
}

fn clock_bytes(c: CjtClock) -> [u8; 7]
    ensures { result ≡ bytes_of_clock c }
{
    let second = two_digits(c.second as u64);
    let minute = two_digits(c.minute as u64);
    let hour = two_digits(c.hour as u64);
    let day = two_digits(c.day as u64);
    let month = two_digits(c.month as u64);
    let [year, century] = packed_digits::<2>(c.year as u64);
    [second, minute, hour, day, month, year, century]
}

// Temperatures and hours.
fn sixes_bytes(inlet: u32, outlet: u32, hours: u32) -> [u8; 9]
    ensures { result ≡ packed 3 inlet ++ (packed 3 outlet ++ packed 3 hours) }
{
    let i = packed_digits::<3>(inlet as u64);
    let o = packed_digits::<3>(outlet as u64);
    let h = packed_digits::<3>(hours as u64);
    [i[0], i[1], i[2], o[0], o[1], o[2], h[0], h[1], h[2]]
}

// Temperatures, hours, clock and state.
fn rest_bytes(a: CjtAnswer) -> [u8; 18]
    ensures { result ≡ packed 3 a.inlet ++ (packed 3 a.outlet ++ (packed 3 a.hours
        ++ (bytes_of_clock a.clock ++ (a.first_state ∷ a.second_state ∷ [])))) }
{
    let clock = a.clock;
    let s = sixes_bytes(a.inlet, a.outlet, a.hours);
    let c = clock_bytes(clock);
    [
        s[0],
        s[1],
        s[2],
        s[3],
        s[4],
        s[5],
        s[6],
        s[7],
        s[8],
        c[0],
        c[1],
        c[2],
        c[3],
        c[4],
        c[5],
        c[6],
        a.first_state,
        a.second_state,
    ]
}

// Closes a frame of N bytes: the sum of all of them, then 16.
fn close<const N: usize, const M: usize>(frame: &[u8; N]) -> [u8; M]
    requires { M ≡ N + 2 }
    ensures { result ≡ closed frame.now }
{
    let sum = sum_of(frame);
    let mut bytes = [0u8; M];
    lay(&mut bytes, 0, frame);
    lay(&mut bytes, N, &[sum, 0x16]);
    bytes
}

fn request_frame(q: CjtRequest) -> [u8; 14]
    ensures { result ≡ 0x68 ∷ q.meter_type ∷ (bytes_of_party q.address ++ (0x01 ∷ 0x03 ∷ 0x1F ∷ 0x90 ∷ q.serial ∷ [])) }
{
    let address = q.address;
    let a = party_bytes(address);
    [
        0x68,
        q.meter_type,
        a[0],
        a[1],
        a[2],
        a[3],
        a[4],
        a[5],
        a[6],
        0x01,
        0x03,
        0x1F,
        0x90,
        q.serial,
    ]
}

// The bytes of a request.
pub(crate) fn request_bytes(q: CjtRequest) -> [u8; 16]
    ensures { result ≡ bytes_of_telegram (CjtTelegram.Request q) }
{
    close(&request_frame(q))
}

// The start of an answer, up to its values.
fn answer_head(a: CjtAnswer) -> [u8; 14]
    ensures { result ≡ 0x68 ∷ a.meter_type ∷ (packed 7 a.address ++ (0x81 ∷ 0x2E ∷ 0x1F ∷ 0x90 ∷ a.serial ∷ [])) }
{
    let b = packed_digits::<7>(a.address);
    [
        0x68,
        a.meter_type,
        b[0],
        b[1],
        b[2],
        b[3],
        b[4],
        b[5],
        b[6],
        0x81,
        0x2E,
        0x1F,
        0x90,
        a.serial,
    ]
}

fn answer_frame(a: CjtAnswer) -> [u8; 57]
    ensures { result ≡ 0x68 ∷ a.meter_type ∷ (packed 7 a.address ++ (0x81 ∷ 0x2E ∷ 0x1F ∷ 0x90 ∷ a.serial ∷ bytes_listed a)) }
{
    let cold = a.cold;
    let heat = a.heat;
    let power = a.power;
    let flow = a.flow;
    let volume = a.volume;
    let head = answer_head(a);
    let values = quantities_bytes([cold, heat, power, flow, volume]);
    let rest = rest_bytes(a);
    let mut bytes = [0u8; 57];
    lay(&mut bytes, 0, &head);
    lay(&mut bytes, 14, &values);
    lay(&mut bytes, 39, &rest);
    bytes
}

// The bytes of an answer.
pub(crate) fn answer_bytes(a: CjtAnswer) -> [u8; 59]
    ensures { result ≡ bytes_of_telegram (CjtTelegram.Answer a) }
{
    close(&answer_frame(a))
}
