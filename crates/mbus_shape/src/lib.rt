// The shape of a line, on its bytes: the rules 4 to 9.
#![tactic(auto)]

ghost use Rattle.std.specs.Prelude.{◌≡◌, ◌+◌, ◌≤◌, [], ◌∷◌, length};
ghost use Rattle.base_rules.specs.Answers.{refuse};
ghost use Rattle.base_rules.specs.Lists.{at};
ghost use Rattle.mbus_rules.specs.Lines.{is_long, is_command, is_data, wrong_start, wrong_count, read_short, read_frame};
ghost use Rattle.mbus_rules.specs.Outlines.{outlined};
ghost use Rattle.mbus_shape.specs.Shapes.{shape_long, shape_body, end_wrong, sum_wrong, whole_wrong, frame_by};
ghost use Rattle.mbus_shape.specs.Counts.{ShortCount, LongCount};

use base_numbers::byte_at;
use base_rules::Refusal;
use mbus_rules::{Outline, Request};
use mbus_telegrams::{NO_METHOD, is_method};

pub mod first;

// The first bytes of an ack, of the short form and of the long form, and the last byte of both forms: bytes of a line and no enum, since
// they are compared with whatever byte stands there.
pub const ACK: u8 = 0xE5;

pub const SHORT: u8 = 0x10;

pub const LONG: u8 = 0x68;

pub const END: u8 = 0x16;

// What 68, 68 and 16 of the long form add to the sum of all bytes: a number.
const FRAME: u8 = 0xE6;

// 4: the first byte is not E5, 10 or 68.
pub fn wrong_start(first: u8) -> bool
    ensures { result ≡ wrong_start (first ∷ []) }
{
    !matches!(first, ACK | SHORT | LONG)
}

// 5 after 68: the count is under 6 or not the second byte and 6.
fn wrong_length(bytes: &[u8]) -> bool
    requires { at bytes.now 0 ≡ 0x68 }
    ensures { result ≡ wrong_count bytes.now }
{
    let count = bytes.len();
    let second = byte_at(bytes, 1);
    (count < 6) | (count != second as usize + 6)
}

// 7: the last byte is not 16.
fn wrong_end(bytes: &[u8]) -> bool
    requires { 5 ≤ length bytes.now }
    ensures { result ≡ end_wrong bytes.now }
{
    byte_at(bytes, bytes.len() - 1) != END
}

// 8 of the short form: the byte before the last is not the sum of those from C up to before it.
fn wrong_sum(bytes: &[u8], sum: u8) -> bool
    requires { 5 ≤ length bytes.now }
    ensures { result ≡ sum_wrong sum bytes.now }
{
    byte_at(bytes, bytes.len() - 2) != sum
}

// 8 of the long form, by the sum of all bytes: 68, L twice, 68, the bytes that CS is the sum of, CS and 16.
fn wrong_whole(bytes: &[u8], sum: u8) -> bool
    requires { 6 ≤ length bytes.now }
    ensures { result ≡ whole_wrong sum bytes.now }
{
    let second = byte_at(bytes, 1);
    let checksum = byte_at(bytes, bytes.len() - 2);
    let both = second.wrapping_add(checksum);
    sum != both.wrapping_add(both).wrapping_add(FRAME)
}

// L = 4 with C 53, CI 50 and an S of enter or leave.
fn is_command(field: &[u8]) -> bool
    ensures { result ≡ is_command field.now }
{
    if field.len() != 4 {
        return false;
    }
    let control = byte_at(field, 0);
    let information = byte_at(field, 2);
    let s = byte_at(field, 3);
    (control == 0x53) & (information == 0x50) & (is_method(s) | (s == NO_METHOD))
}

// L of 15 and more with C 08 and CI 72.
fn is_data(field: &[u8]) -> bool
    ensures { result ≡ is_data field.now }
{
    let control = byte_at(field, 0);
    let information = byte_at(field, 2);
    (15 <= field.len()) & (control == 0x08) & (information == 0x72)
}

// 9 of the short form: C and A.
fn short_shape(control: u8, address: u8) -> Outline
    ensures { result ≡ outlined (read_short (control ∷ address ∷ [])) }
{
    if control == 0x5B {
        return Outline::Asks(Request::Read(address));
    }
    Outline::Refused(Refusal::WRONG_FORM.0)
}

// 9 of the long form: C, A, CI and S or what follows.
fn long_shape(field: &[u8]) -> Outline
    ensures { result ≡ outlined (shape_long field.now) }
{
    let address = byte_at(field, 1);
    if is_command(field) {
        let s = byte_at(field, 3);
        if s == NO_METHOD {
            return Outline::Asks(Request::Leave(address));
        }
        return Outline::Asks(Request::Enter(address, s));
    }
    if is_data(field) {
        return Outline::Data(address);
    }
    Outline::Refused(Refusal::WRONG_FORM.0)
}

// After 10, with the right count: 7 to 9.
fn short_form(bytes: &[u8]) -> Outline
    requires { ShortCount bytes.now }
    ensures { result ≡ outlined (read_frame shape_body bytes.now) }
{
    if wrong_end(bytes) {
        return Outline::Refused(Refusal::WRONG_END.0);
    }
    let control = byte_at(bytes, 1);
    let address = byte_at(bytes, 2);
    if wrong_sum(bytes, control.wrapping_add(address)) {
        return Outline::Refused(Refusal::WRONG_CHECKSUM.0);
    }
    short_shape(control, address)
}

// After 68, with the right count: 6 to 9.
fn long_form(bytes: &[u8], sum: u8) -> Outline
    requires { LongCount bytes.now }
    ensures { result ≡ outlined (frame_by sum shape_body bytes.now) }
{
    let second = byte_at(bytes, 1);
    let third = byte_at(bytes, 2);
    let fourth = byte_at(bytes, 3);
    if (second != third) | (fourth != LONG) {
        return Outline::Refused(Refusal::WRONG_LENGTHS.0);
    }
    if wrong_end(bytes) {
        return Outline::Refused(Refusal::WRONG_END.0);
    }
    if wrong_whole(bytes, sum) {
        return Outline::Refused(Refusal::WRONG_CHECKSUM.0);
    }
    let last = bytes.len() - 2;
    long_shape(&bytes[4..last])
}

// The rules 4 to 9 of what is too short for the long form, which is then 5.
pub fn brief_shape(bytes: &[u8]) -> Outline
    ensures { result ≡ outlined (refuse 5 (is_long bytes.now) (read_frame shape_body bytes.now)) }
{
    let count = bytes.len();
    let first = byte_at(bytes, 0);
    if first == LONG {
        return Outline::Refused(Refusal::WRONG_COUNT.0);
    }
    if first == ACK {
        return if count == 1 {
            Outline::Ack
        } else {
            Outline::Refused(Refusal::WRONG_COUNT.0)
        };
    }
    if first != SHORT {
        return Outline::Refused(Refusal::WRONG_FIRST_BYTE.0);
    }
    if count != 5 {
        return Outline::Refused(Refusal::WRONG_COUNT.0);
    }
    short_form(bytes)
}

// The rules 4 to 9, in this order, by the bytes and the sum of all of them. Header and entries of a data shape are not looked at.
pub fn shape_of(bytes: &[u8], sum: u8) -> Outline
    ensures { result ≡ outlined (frame_by sum shape_body bytes.now) }
{
    let first = byte_at(bytes, 0);
    if first != LONG {
        return brief_shape(bytes);
    }
    if wrong_length(bytes) {
        return Outline::Refused(Refusal::WRONG_COUNT.0);
    }
    long_form(bytes, sum)
}
