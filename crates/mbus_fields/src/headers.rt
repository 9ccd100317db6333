// The header.
ghost use Rattle.std.specs.Prelude.{◌≡◌, take};
ghost use Rattle.mbus_rules.specs.Headers.{header_of, maker_named, maker_of, heat_meter, wrong_header};
ghost use Rattle.base_digits.specs.Digits.{packed_of};

use base_digits::{Packed, packed_in};
use base_numbers::{byte_at, number_at};
use mbus_rules::Header;

// The meter number, the first four bytes.
fn number_of(part: &[u8]) -> Packed
    ensures { result ≡ packed_of (take 4 part.now) }
{
    packed_in(number_at(part, 0, 4))
}

// The maker's number, two bytes low first.
fn maker_of(part: &[u8]) -> u16
    ensures { result ≡ maker_of part.now }
{
    let low = byte_at(part, 4);
    let high = byte_at(part, 5);
    256 * high as u16 + low as u16
}

// The fields that the twelve bytes hold.
pub fn header_of(part: &[u8]) -> Header
    ensures { result ≡ header_of part.now }
{
    let digits = number_of(part);
    let number = digits.count as u32;
    let maker = maker_of(part);
    let version = byte_at(part, 6);
    let meter_type = byte_at(part, 7);
    let access = byte_at(part, 8);
    let status = byte_at(part, 9);
    Header {
        number,
        maker,
        version,
        meter_type,
        access,
        status,
    }
}

// The maker's top bit is 0 and its three groups are letters.
pub fn maker_named(maker: u16) -> bool
    ensures { result ≡ maker_named maker }
{
    let first = maker / 1024;
    let second = maker / 32 % 32;
    let third = maker % 32;
    (maker < 32768)
        & ((0 < first) & (first <= 26))
        & ((0 < second) & (second <= 26))
        & ((0 < third) & (third <= 26))
}

// Meter type 04, 0B, 0C or 0D.
pub fn heat_meter(meter_type: u8) -> bool
    ensures { result ≡ heat_meter meter_type }
{
    matches!(meter_type, 0x04 | 0x0B | 0x0C | 0x0D)
}

// The header rule is broken.
#[tactic(auto, unfolding(mbus_rules::specs::Headers::wrong_header))]
pub fn wrong_header(part: &[u8]) -> bool
    ensures { result ≡ wrong_header part.now }
{
    let digits = number_of(part);
    let maker = maker_named(maker_of(part));
    let meter_type = heat_meter(byte_at(part, 7));
    let low = byte_at(part, 10);
    let high = byte_at(part, 11);
    digits.wrong | !maker | !meter_type | (0 < low) | (0 < high)
}
