// What a row is by the exchange of its position, and how that exchange then stands.
ghost use Rattle.std.specs.Prelude.{◌≡◌, ◌≤◌, length};
ghost use Rattle.run_counting.specs.Ears.{row_with};
ghost use Rattle.mbus_rules.specs.declared.Outline.TheVariants.{Asks};
ghost use Rattle.run_verdicts.specs.Verdicts.{unfitting, decided_by, heard_verdict, after_heard, waited};
ghost use Rattle.run_verdicts.specs.Judging.{judged_of, unsent_as, first_as, sent_by};

use crate::Verdict;
use bench_clock::{Clock, is_wake};
use bundle_rows::Row;
use exchange_replies::fits;
use exchange_steps::{Exchange, Slot, State};
use mbus_reading::pairs::outline_of;
use mbus_rules::{Outline, Request};

// The verdict of a row, and the exchange of its position behind it.
#[derive(Clone, Copy)]
pub(crate) struct Judged {
    pub(crate) verdict: Verdict,
    pub(crate) slot: Slot,
}

// What a line is that does not fit.
fn unfitting(outline: Outline) -> Verdict
    ensures { result ≡ unfitting outline }
{
    match outline {
        Outline::Refused(n) => Verdict::Damaged(n),
        _ => Verdict::WrongKind,
    }
}

// What the line is that decides a send. (That it came too late is what the exchange answers: an enum would be made of it at the one call, to be told apart
// here.)
fn decided_by(request: Request, silent: bool, outline: Outline) -> Verdict
    ensures { result ≡ decided_by request silent outline }
{
    if silent {
        return Verdict::Late;
    }
    if fits(request, outline) {
        return Verdict::Counts;
    }
    unfitting(outline)
}

// What a line heard is.
fn heard_verdict(slot: Slot, outline: Outline, t: Clock) -> Verdict
    ensures { result ≡ heard_verdict slot outline t }
{
    match slot {
        Slot::Idle => Verdict::Unasked,
        Slot::Busy(x) => {
            if x.began.earlier(t) {
                return Verdict::LeftOver;
            }
            match x.state {
                State::Waiting => decided_by(x.request, x.began.late(t), outline),
                _ => Verdict::Second,
            }
        },
    }
}

// The exchange behind a line heard.
fn after_heard(slot: Slot, outline: Outline, t: Clock) -> Slot
    ensures { result ≡ after_heard slot outline t }
{
    match slot.seen(outline, t) {
        Ok(x) => Slot::Busy(x),
        Err(_) => slot,
    }
}

// The exchange at the start of a send.
fn waited(slot: Slot, t: Clock) -> Slot
    ensures { result ≡ waited slot t }
{
    match slot.tick(t) {
        Ok(x) => Slot::Busy(x),
        Err(_) => slot,
    }
}

// A line that cannot be sent: nothing is asked behind it.
fn unsent(n: u16) -> Judged
    ensures { result ≡ unsent_as n }
{
    Judged {
        verdict: Verdict::Refused(n),
        slot: Slot::Idle,
    }
}

// A request that begins an exchange.
fn first(request: Request, end: Clock) -> Judged
    ensures { result ≡ first_as request end }
{
    let begun = Exchange {
        request,
        state: State::Waiting,
        sends: 1,
        began: end,
        last: end,
    };
    Judged {
        verdict: Verdict::First,
        slot: Slot::Busy(begun),
    }
}

// A request, which is a resend where the exchange takes it as one.
fn asked(slot: Slot, request: Request, end: Clock) -> Judged
    ensures { result ≡ sent_by slot (Asks request) end }
{
    match slot {
        Slot::Idle => first(request, end),
        Slot::Busy(x) => match x.resent(Outline::Asks(request), end) {
            Ok(y) => Judged {
                verdict: Verdict::Resend,
                slot: Slot::Busy(y),
            },
            Err(_) => first(request, end),
        },
    }
}

// What a line sent is.
fn sent(slot: Slot, outline: Outline, end: Clock) -> Judged
    ensures { result ≡ sent_by slot outline end }
{
    match outline {
        Outline::Refused(n) => unsent(n),
        Outline::Ack => unsent(42),
        Outline::Asks(request) => asked(slot, request, end),
        Outline::Data(_) => unsent(42),
    }
}

// Any row with its body.
pub(crate) fn judge(slot: Slot, row: Row, body: &[u8]) -> Judged
    requires { length body.now ≤ 65535 }
    ensures { result ≡ judged_of slot (row_with row body.now) }
{
    if is_wake(body) {
        return Judged {
            verdict: Verdict::Wake,
            slot,
        };
    }
    let t = Clock(row.time as u64);
    let outline = outline_of(body);
    if row.direction == 0 {
        let end = Clock(row.time as u64 + Clock::CHARACTER * (body.len() / 2) as u64);
        return sent(waited(slot, t), outline, end);
    }
    Judged {
        verdict: heard_verdict(slot, outline, t),
        slot: after_heard(slot, outline, t),
    }
}
