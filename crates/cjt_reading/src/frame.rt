// The rules 80 to 85, on the bytes of a line.
ghost use Rattle.std.specs.Prelude.{◌≡◌, ◌%◌, ◌≤◌, false, length};
ghost use Rattle.base_rules.specs.Answers.{reads, refuse};
ghost use Rattle.base_rules.specs.Lists.{total};
ghost use Rattle.cjt_rules.specs.declared.CjtTelegram.TheVariants as telegrams;
ghost use Rattle.cjt_rules.specs.CjtFrames.{past_fe, wrong_frame, wrong_frame_sum};
ghost use Rattle.cjt_rules.specs.CjtAddresses.{party_bytes, party_of, wrong_party};
ghost use Rattle.cjt_rules.specs.CjtLines.{asks_with, listed_bytes, tells_with, wrong_mark, wrong_listed, read_cjt_frame};
ghost use Rattle.cjt_rules.specs.CjtUnits.{wrong_units};
ghost use Rattle.base_rules.specs.Shown.{shown};
ghost use Rattle.cjt_reading.specs.CjtParts.{Skips};

use crate::parts::{tells_in, wrong_listed};
use base_digits::packed_in;
use base_numbers::{byte_at, number_at};
use base_rules::Refusal;
use cjt_fields::{is_heat_type, wrong_units};
use cjt_rules::{CjtAddress, CjtRequest, CjtTelegram};

// A request's length byte. (Of no enum: it and TELLS are counts of data bytes, which wrong_frame adds to the length of the rest.)
const ASKS: u8 = 0x03;

// An answer's.
const TELLS: u8 = 0x2E;

// Seven address bytes AA as a number.
const ALL: u64 = 0xAA_AAAA_AAAA_AAAA;

// No more FE bytes than these are skipped.
const MOST_FE: usize = 5;

// How many FE bytes are skipped.
fn skips(bytes: &[u8]) -> usize
    ensures { Skips bytes.now result }
{
    for n in 0..MOST_FE {
        let first = byte_at(bytes, n);
        if first != 0xFE {
            return n;
        }
    }
    MOST_FE
}

// 80, first byte, length byte, count and last byte.
fn wrong_frame(b: &[u8]) -> bool
    ensures { result ≡ wrong_frame b.now }
{
    let size = byte_at(b, 10);
    let known = (size == ASKS) | (size == TELLS);
    if !known {
        return true;
    }
    let count = b.len();
    if count != size as usize + 13 {
        return true;
    }
    (b[0] != 0x68) | (b[count - 1] != 0x16)
}

// 81, by the sum of all bytes: without the sum's own byte and the last, 16, it is that byte.
fn wrong_sum(b: &[u8], sum: u8) -> bool
    requires { (sum ≡ total b.now % 256) × (wrong_frame b.now ≡ false) }
    ensures { result ≡ wrong_frame_sum b.now }
{
    let own = b[b.len() - 2];
    let twice = std::num::wrapping_add_u8(own, own);
    let whole = std::num::wrapping_add_u8(twice, 0x16);
    sum != whole
}

// 82, type and address.
// (That nine bytes are there is no struct: read_frame would make it around the slice for these three to take the slice out again.)
fn wrong_party(b: &[u8]) -> bool
    requires { 9 ≤ length b.now }
    ensures { result ≡ wrong_party b.now }
{
    let sort = is_heat_type(byte_at(b, 1));
    let word = number_at(b, 2, 7);
    let digits = packed_in(word);
    let size = byte_at(b, 10);
    !sort | (digits.wrong & !((size == ASKS) & (word == ALL)))
}

// 83, data mark and control.
fn wrong_mark(b: &[u8]) -> bool
    ensures { result ≡ wrong_mark b.now }
{
    let low = byte_at(b, 11);
    let high = byte_at(b, 12);
    let control = byte_at(b, 9);
    let asks = byte_at(b, 10) == ASKS;
    if asks {
        return (low != 0x1F) | (high != 0x90) | (control != 0x01);
    }
    (low != 0x1F) | (high != 0x90) | (control != 0x81)
}

// The address of a request.
fn party_of(b: &[u8]) -> CjtAddress
    requires { 9 ≤ length b.now }
    ensures { result ≡ party_of (party_bytes b.now) }
{
    let word = number_at(b, 2, 7);
    let all = word == ALL;
    if all {
        return CjtAddress::Broadcast;
    }
    let digits = packed_in(word);
    CjtAddress::Meter(digits.count)
}

// The request that the bytes hold.
fn request_of(b: &[u8]) -> CjtRequest
    requires { 9 ≤ length b.now }
    ensures { result ≡ asks_with b.now }
{
    let meter_type = byte_at(b, 1);
    let address = party_of(b);
    let serial = byte_at(b, 13);
    CjtRequest {
        meter_type,
        address,
        serial,
    }
}

// 84, 85 and the answer that the bytes hold.
fn read_listed(b: &[u8]) -> Result<CjtTelegram, Refusal>
    requires { 14 ≤ length b.now }
    ensures { result ≡ shown (refuse 84 (wrong_listed (listed_bytes b.now))
        (refuse 85 (wrong_units (tells_with b.now)) (reads (telegrams.Answer (tells_with b.now))))) }
{
    let wrong = wrong_listed(&b[14..]);
    if wrong {
        return Err(Refusal::CJT_WRONG_DIGITS);
    }
    let meter_type = byte_at(b, 1);
    let digits = packed_in(number_at(b, 2, 7));
    let serial = byte_at(b, 13);
    let answer = tells_in(meter_type, digits.count, serial, &b[14..]);
    let units = wrong_units(answer);
    if units {
        return Err(Refusal::CJT_WRONG_UNIT);
    }
    Ok(CjtTelegram::Answer(answer))
}

// The rules 80 to 85, on the bytes behind the FE bytes and their sum.
fn read_frame(b: &[u8], sum: u8) -> Result<CjtTelegram, Refusal>
    requires { sum ≡ total b.now % 256 }
    ensures { result ≡ shown (read_cjt_frame b.now) }
{
    let frame = wrong_frame(b);
    if frame {
        return Err(Refusal::CJT_WRONG_FRAME);
    }
    let total = wrong_sum(b, sum);
    if total {
        return Err(Refusal::CJT_WRONG_SUM);
    }
    let party = wrong_party(b);
    if party {
        return Err(Refusal::CJT_WRONG_ADDRESS);
    }
    let mark = wrong_mark(b);
    if mark {
        return Err(Refusal::CJT_WRONG_MARK);
    }
    let asks = byte_at(b, 10) == ASKS;
    if asks {
        let request = request_of(b);
        return Ok(CjtTelegram::Request(request));
    }
    read_listed(b)
}

// The rules 80 to 85, on all bytes of a line and their sum. An FE byte takes 2 from the sum, modulo 256.
pub(crate) fn read_in(bytes: &[u8], sum: u8) -> Result<CjtTelegram, Refusal>
    requires { sum ≡ total bytes.now % 256 }
    ensures { result ≡ shown (read_cjt_frame (past_fe 5 bytes.now)) }
{
    let n = skips(bytes);
    let more = (2 * n) as u8;
    let own = std::num::wrapping_add_u8(sum, more);
    read_frame(&bytes[n..], own)
}
