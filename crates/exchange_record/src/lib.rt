// The record of an exchange, or of none: bytes of a fixed size, numbers low byte first.
#![tactic(auto)]

ghost use Rattle.std.specs.Prelude.{◌≡◌};
ghost use Rattle.base_rules.specs.Shown.{shown};
ghost use Rattle.exchange_record.specs.Exchanges.{request_bytes, cause_number, state_number, cause_in, exchange_head, exchange_bytes, request_of};
ghost use Rattle.exchange_record.specs.Exchanges.{cause_of_number, state_of, exchange_in, fails_by, stands_at, reached, exchange_from, slot_from};

use base_lent::is_same;
use base_numbers::{number_at, put_record};
use base_rules::Refusal;
use bench_clock::Clock;
use exchange_steps::{Cause, Exchange, Slot, State};
use mbus_rules::Request;

// The bytes of an exchange's record.
pub const SIZE: usize = 24;

// Requests and states hold fields, so that none is cast to its number; a cause is.
fn request_bytes(request: Request) -> [u8; 3]
    ensures { result ≡ request_bytes request }
{
    match request {
        Request::Read(address) => [2, address, 0],
        Request::Enter(address, method) => [3, address, method],
        Request::Leave(address) => [4, address, 0],
    }
}

fn cause_number(cause: Cause) -> u8
    ensures { result ≡ cause_number cause }
{
    cause as u8
}

fn state_number(state: State) -> u8
    ensures { result ≡ state_number state }
{
    match state {
        State::Waiting => 1,
        State::Resend(_) => 2,
        State::Well => 3,
        State::Failed(_) => 4,
    }
}

fn cause_in(state: State) -> u8
    ensures { result ≡ cause_in state }
{
    match state {
        State::Waiting | State::Well => 0,
        State::Resend(cause) | State::Failed(cause) => cause_number(cause),
    }
}

// The part of the record before the times.
fn head_bytes(request: Request, state: State, sends: u8) -> [u8; 8]
    ensures { result ≡ exchange_head request state sends }
{
    let asked = request_bytes(request);
    let number = state_number(state);
    let cause = cause_in(state);
    [asked[0], asked[1], asked[2], number, cause, sends, 0, 0]
}

// The record of an exchange.
pub fn exchange_bytes(x: Exchange) -> [u8; 24]
    ensures { result ≡ exchange_bytes x }
{
    let head = head_bytes(x.request, x.state, x.sends);
    let times = [x.began.0, x.last.0];
    let mut bytes = [0u8; 24];
    put_record(&mut bytes, &head, &times, b"");
    bytes
}

// (Kind, address and method are bytes of the record here, and arguments of C in two functions of host_*: a struct would be made only to be
// taken apart again.)
fn request_of(kind: u8, address: u8, method: u8) -> Request
    ensures { result ≡ request_of kind address method }
{
    match kind {
        2 => Request::Read(address),
        3 => Request::Enter(address, method),
        _ => Request::Leave(address),
    }
}

fn cause_of(n: u8) -> Cause
    ensures { result ≡ cause_of_number n }
{
    match n {
        1 => Cause::Silent,
        2 => Cause::Damaged,
        _ => Cause::WrongKind,
    }
}

fn state_of(n: u8, cause: u8) -> State
    ensures { result ≡ state_of n cause }
{
    match n {
        1 => State::Waiting,
        2 => State::Resend(cause_of(cause)),
        3 => State::Well,
        _ => State::Failed(cause_of(cause)),
    }
}

// The exchange that the bytes give, whether they are its record or not.
fn exchange_in(b: &[u8; 24]) -> Exchange
    ensures { result ≡ exchange_in b.now }
{
    Exchange {
        request: request_of(b[0], b[1], b[2]),
        state: state_of(b[3], b[4]),
        sends: b[5],
        began: Clock(number_at(b, 8, 8)),
        last: Clock(number_at(b, 16, 8)),
    }
}

// (late is no switch, here and below: that the last step came past the window is what both rules ask of a cause or a state.)
fn fails_by(cause: Cause, late: bool) -> bool
    ensures { result ≡ fails_by cause late }
{
    match cause {
        Cause::Silent => late,
        Cause::Damaged | Cause::WrongKind => !late,
    }
}

fn stands_at(state: State, sends: u8, late: bool) -> bool
    ensures { result ≡ stands_at state sends late }
{
    match state {
        State::Waiting | State::Well => !late,
        State::Resend(cause) => (sends < 3) & fails_by(cause, late),
        State::Failed(cause) => (sends == 3) & fails_by(cause, late),
    }
}

// Whether some run reaches the exchange.
fn is_reached(x: Exchange) -> bool
    ensures { result ≡ reached x }
{
    let sends = x.sends;
    let late = x.began.late(x.last);
    (0 < sends) & (sends <= 3) & (x.began.0 <= x.last.0) & stands_at(x.state, sends, late)
}

// The exchange whose record the bytes are, or refused by 101.
fn exchange_from(b: &[u8]) -> Result<Exchange, Refusal>
    ensures { result ≡ shown (exchange_from b.now) }
{
    let Some(b) = b.as_array::<SIZE>() else {
        return Err(Refusal::NO_RECORD);
    };
    let x = exchange_in(b);
    let again = exchange_bytes(x);
    let same = is_same(b, &again);
    let some = is_reached(x);
    if same & some {
        return Ok(x);
    }
    Err(Refusal::NO_RECORD)
}

// None, where the bytes are zeros, or the exchange whose record they are, or refused by 101.
pub fn slot_from(b: &[u8]) -> Result<Slot, Refusal>
    ensures { result ≡ shown (slot_from b.now) }
{
    let none = [0u8; 24];
    if is_same(b, &none) {
        return Ok(Slot::Idle);
    }
    exchange_from(b).map(|x| Slot::Busy(x))
}
