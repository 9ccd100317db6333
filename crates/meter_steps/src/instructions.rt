// What the return and each instruction make of a meter.
ghost use Rattle.std.specs.Prelude.{◌≡◌, Ok};
ghost use Rattle.mbus_rules.specs.Telegrams.{ack};
ghost use Rattle.meter_steps.specs.Meters.{mode_at, force_of, cleared_from, instructed_at, returned, in_force, with_force, with_mode, entered, read};
ghost use Rattle.meter_steps.specs.Meters.{data_answer, address_of, instructed, asked, hears, quiet, answers, taken_at};

use crate::{Core, Meter, Mode, Step};
use bench_clock::Clock;
use mbus_rules::{Kind, Outline, Request, Telegram};
use mbus_telegrams::{BROADCAST, bare};
use meter_template::{Pair, data_with, raised};

// The telegram ack.
fn acknowledgement() -> Telegram
    ensures { result ≡ ack }
{
    bare(Kind::Ack, 0, 0)
}

// The address that a request is sent to.
fn address_of(request: Request) -> u8
    ensures { result ≡ address_of request }
{
    match request {
        Request::Read(address) | Request::Enter(address, _) | Request::Leave(address) => address,
    }
}

impl Mode {
    // The mode at t: 30 minutes after the last instruction the meter is in use again.
    fn at(self, t: Clock) -> Mode
        ensures { result ≡ mode_at t self }
    {
        match self {
            Mode::Use => Mode::Use,
            Mode::Verifying(_, since) => if since.due(t) { Mode::Use } else { self },
        }
    }

    // Of two pairs, the one in force: in use the first, in verification the second.
    fn force(self, used: Pair, verified: Pair) -> Pair
        ensures { result ≡ force_of self used verified }
    {
        match self {
            Mode::Use => used,
            Mode::Verifying(_, _) => verified,
        }
    }

    // The verification pair of a meter that enters from this mode.
    fn cleared(self, pair: Pair) -> Pair
        ensures { result ≡ cleared_from self pair }
    {
        match self {
            Mode::Use => Pair {
                volume: 0,
                energy: 0,
            },
            Mode::Verifying(_, _) => pair,
        }
    }

    // The same mode, where an instruction was given at t.
    fn instructed(self, t: Clock) -> Mode
        ensures { result ≡ instructed_at t self }
    {
        match self {
            Mode::Use => Mode::Use,
            Mode::Verifying(method, _) => Mode::Verifying(method, t),
        }
    }
}

impl Core {
    // A step at t that leaves this meter and says this much.
    fn says(self, t: Clock, said: Option<Telegram>) -> Step
        ensures { result ≡ record { meter = record { last = t; core = self }; reply = Ok said } }
    {
        Step {
            meter: Meter {
                last: t,
                core: self,
            },
            reply: Ok(said),
        }
    }

    // The pair that is read and measured.
    pub(crate) fn in_force(self) -> Pair
        ensures { result ≡ in_force self }
    {
        self.mode.force(self.used, self.verified)
    }

    // A measure at t that gave these totals: they stand in the pair in force.
    pub(crate) fn measured(self, totals: Pair, t: Clock) -> Step
        ensures { result ≡ taken_at t (quiet (with_force self totals)) }
    {
        let mut core = self;
        core.used = self.mode.force(totals, self.used);
        core.verified = self.mode.force(self.verified, totals);
        core.says(t, None)
    }

    // The same meter in another mode.
    fn with_mode(self, mode: Mode) -> Core
        ensures { result ≡ with_mode self mode }
    {
        Core { mode, ..self }
    }

    // The return to use, where it is due at t.
    pub(crate) fn returned(self, t: Clock) -> Core
        ensures { result ≡ returned t self }
    {
        self.with_mode(self.mode.at(t))
    }

    // The meter after an enter at t.
    fn entered(self, method: u8, t: Clock) -> Core
        ensures { result ≡ entered t method self }
    {
        let mut core = self.with_mode(Mode::Verifying(method, t));
        core.verified = self.mode.cleared(self.verified);
        core
    }

    // The meter after a read at t.
    fn read(self, t: Clock) -> Core
        ensures { result ≡ read t self }
    {
        let mut core = self.with_mode(self.mode.instructed(t));
        core.template = raised(self.template);
        core
    }

    // The data that a read is answered with.
    fn answer(self) -> Telegram
        ensures { result ≡ data_answer self }
    {
        data_with(self.address, self.in_force(), self.template)
    }

    // A read at t.
    fn answered(self, t: Clock) -> Step
        ensures { result ≡ taken_at t (answers (read t self) (data_answer (read t self))) }
    {
        let core = self.read(t);
        core.says(t, Some(core.answer()))
    }

    // An instruction at t.
    fn instructed(self, request: Request, t: Clock) -> Step
        ensures { result ≡ taken_at t (instructed t self request) }
    {
        match request {
            Request::Enter(_, method) => self.entered(method, t).says(t, Some(acknowledgement())),
            Request::Leave(_) => self.with_mode(Mode::Use).says(t, Some(acknowledgement())),
            Request::Read(_) => self.answered(t),
        }
    }

    // A request at t: an instruction if it is addressed to FE or the own address, else silence.
    fn asked(self, request: Request, t: Clock) -> Step
        ensures { result ≡ taken_at t (asked t self request) }
    {
        let address = address_of(request);
        let own = (address == BROADCAST) | (address == self.address);
        if own {
            return self.instructed(request, t);
        }
        self.says(t, None)
    }

    // A line at t, by its outline, after the return.
    pub(crate) fn hears(self, outline: Outline, t: Clock) -> Step
        ensures { result ≡ taken_at t (hears t (returned t self) outline) }
    {
        let now = self.returned(t);
        match outline {
            Outline::Asks(request) => now.asked(request, t),
            Outline::Refused(_) | Outline::Ack | Outline::Data(_) => now.says(t, None),
        }
    }
}
