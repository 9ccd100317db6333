// The exchange of document 01: a request, at most three sends of it, and how it ends; and one after another, as 2026-09 of document 02 has it.
#![tactic(auto)]

ghost use Rattle.std.specs.Prelude.{cond, ◌≡◌};
ghost use Rattle.std.specs.Result.{result_unwrap_or};
ghost use Rattle.base_rules.specs.Answers.{reads};
ghost use Rattle.base_rules.specs.Shown.{shown};
ghost use Rattle.mbus_rules.specs.Lines.{read_line};
ghost use Rattle.mbus_rules.specs.Telegrams.{blank};
ghost use Rattle.mbus_rules.specs.Outlines.{outlined};
ghost use Rattle.exchange_steps.specs.Steps.{ends_well, heard_in, heard_of, heard_on, in_progress, moved, resent_in, send_ended_on, sending, sent_in};
ghost use Rattle.exchange_steps.specs.Steps.{start_with, step, tick_in, tick_on};

use base_rules::Refusal;
use bench_clock::Clock;
use mbus_reading::{outlined, read_line};
use mbus_rules::{Kind, Outline, Request, Telegram};
use mbus_telegrams::bare;
use progress::has_ended;
use requests::asks_for;
use states::{after_line, after_tick, asks_resend, waits};

mod progress;
mod requests;
mod states;

// Why a send failed: no line in time, a refused line, or an accepted line that does not fit; with the numbers of a record.
#[derive(Clone, Copy)]
pub enum Cause {
    Silent = 1,
    Damaged = 2,
    WrongKind = 3,
}

// What an exchange waits for, or how it ended.
#[derive(Clone, Copy)]
pub enum State {
    // for the reply to its last send
    Waiting,
    // for a resend, its last send having failed by the cause
    Resend(Cause),
    // ended by a line that fits
    Well,
    // ended by its third failed send
    Failed(Cause),
}

#[derive(Clone, Copy)]
pub struct Exchange {
    pub request: Request,
    pub state: State,
    // the sends made
    pub sends: u8,
    // when the wait for a reply began: the end of the last send
    pub began: Clock,
    // the time of the last step
    pub last: Clock,
}

// Whether there is an exchange, in progress or ended: at first there is none.
// No Option: its steps are methods on self by value, and the theorems on histories speak of Idle and Busy.
#[derive(Clone, Copy)]
pub enum Slot {
    Idle,
    Busy(Exchange),
}

// What a line heard answers: the exchange as it then stands, or the number by which the step is refused; what there was is then as it was. The
// reply is the line's telegram where the line ended the exchange well, and blank in every other case.
// No Result of both and no Option: the definition heard_of has the blank reply beside a refused step, and beside one that goes on.
#[derive(Clone, Copy)]
pub struct Heard {
    pub stepped: Result<Exchange, Refusal>,
    pub reply: Telegram,
}

// A send of the request has ended at t, and it was so many sends with this one.
fn sending(request: Request, sends: u8, t: Clock) -> Exchange
    ensures { result ≡ sending request sends t }
{
    Exchange {
        request,
        state: State::Waiting,
        sends,
        began: t,
        last: t,
    }
}

// Whether the step ended the exchange well.
fn ends_well(stepped: Result<Exchange, Refusal>) -> bool
    ensures { result ≡ ends_well stepped }
{
    match stepped {
        Ok(x) => matches!(x.state, State::Well),
        Err(_) => false,
    }
}

// The reply of a reading: its telegram where its step ended the exchange well, and the blank one where it did not.
fn reply_of(reading: Result<Telegram, Refusal>, stepped: Result<Exchange, Refusal>) -> Telegram
    ensures { result ≡ cond (ends_well stepped) (result_unwrap_or reading blank) blank }
{
    let blank = bare(Kind::Ack, 0, 0);
    if ends_well(stepped) {
        return reading.unwrap_or(blank);
    }
    blank
}

// A new exchange, by what was sent.
fn start_with(outline: Outline, t: Clock) -> Result<Exchange, Refusal>
    ensures { result ≡ shown (start_with outline t) }
{
    match outline {
        Outline::Asks(request) => Ok(sending(request, 1, t)),
        Outline::Refused(_) | Outline::Ack | Outline::Data(_) => Err(Refusal::EXCHANGE_NO_REQUEST),
    }
}

impl Exchange {
    // The exchange after a line or a tick at t.
    fn moved(self, state: State, t: Clock) -> Exchange
        ensures { result ≡ moved self state t }
    {
        Exchange {
            state,
            last: t,
            ..self
        }
    }

    // The step to the next exchange, if its time and the state allow it.
    // (called is no switch: it is the second question, which the definition step asks, and the callers answer it by different states.)
    fn step(self, t: Clock, called: bool, next: Exchange) -> Result<Exchange, Refusal>
        ensures { result ≡ shown (step self t called next) }
    {
        if self.last.earlier(t) {
            return Err(Refusal::EXCHANGE_TIME_BACK);
        }
        if called {
            return Ok(next);
        }
        Err(Refusal::EXCHANGE_NOT_CALLED_FOR)
    }

    // A line of this outline heard at t.
    fn seen(self, outline: Outline, t: Clock) -> Result<Exchange, Refusal>
        ensures { result ≡ shown (heard_in self outline t) }
    {
        let called = waits(self.state);
        let silent = self.began.late(t);
        let state = after_line(self.request, self.sends, silent, outline);
        self.step(t, called, self.moved(state, t))
    }

    // No line has begun up to t.
    fn tick(self, t: Clock) -> Result<Exchange, Refusal>
        ensures { result ≡ shown (tick_in self t) }
    {
        let called = waits(self.state);
        let silent = self.began.late(t);
        let state = after_tick(self.sends, silent);
        self.step(t, called, self.moved(state, t))
    }

    // A resend of the request has ended at t.
    fn sent(self, t: Clock) -> Result<Exchange, Refusal>
        ensures { result ≡ shown (sent_in self t) }
    {
        let called = asks_resend(self.state, self.sends);
        if called {
            return self.step(t, true, sending(self.request, self.sends + 1, t));
        }
        self.step(t, false, self)
    }

    // A resend of what the outline is has ended at t; a different request is 43.
    pub fn resent(self, outline: Outline, t: Clock) -> Result<Exchange, Refusal>
        ensures { result ≡ shown (resent_in self outline t) }
    {
        let next = self.sent(t)?;
        if asks_for(self.request, outline) {
            return Ok(next);
        }
        Err(Refusal::EXCHANGE_OTHER_REQUEST)
    }
}

impl Slot {
    // An exchange that has ended counts as none.
    fn in_progress(self) -> Slot
        ensures { result ≡ in_progress self }
    {
        match self {
            Slot::Idle => Slot::Idle,
            Slot::Busy(x) => if has_ended(x.state) { Slot::Idle } else { self },
        }
    }

    // A send has ended at t: it begins an exchange where none is in progress, and is the next send of one that asks for a resend. Only the
    // telegram's kind, address and method are looked at: whether it can be written is the writer's to say.
    pub fn send_ended(self, telegram: Telegram, t: Clock) -> Result<Exchange, Refusal>
        ensures { result ≡ shown (send_ended_on self (outlined (reads telegram)) t) }
    {
        let outline = outlined(Ok(telegram));
        match self.in_progress() {
            Slot::Idle => start_with(outline, t),
            Slot::Busy(x) => x.resent(outline, t),
        }
    }

    // A line of this outline heard at t.
    pub fn seen(self, outline: Outline, t: Clock) -> Result<Exchange, Refusal>
        ensures { result ≡ shown (heard_on self outline t) }
    {
        match self {
            Slot::Idle => Err(Refusal::EXCHANGE_NOT_CALLED_FOR),
            Slot::Busy(x) => x.seen(outline, t),
        }
    }

    // A line heard at t, the start of its first character. That time becomes the last one, so a host must not tick past the
    // window while a line that began inside it is still coming in.
    pub fn heard(self, line: &[u16], t: Clock) -> Heard
        ensures { result ≡ heard_of self (read_line line.now) t }
    {
        let reading = read_line(line);
        let outline = outlined(reading);
        let stepped = self.seen(outline, t);
        let reply = reply_of(reading, stepped);
        Heard { stepped, reply }
    }

    // No line has begun up to t.
    pub fn tick(self, t: Clock) -> Result<Exchange, Refusal>
        ensures { result ≡ shown (tick_on self t) }
    {
        match self {
            Slot::Idle => Err(Refusal::EXCHANGE_NOT_CALLED_FOR),
            Slot::Busy(x) => x.tick(t),
        }
    }
}
