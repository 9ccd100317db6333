// The five telegrams: those without header and entries, their methods and the address of all, the host's numbers of their kinds, and the
// numbers of quantities and structures.
#![tactic(auto)]

ghost use Rattle.std.specs.Prelude.{◌≡◌};
ghost use Rattle.mbus_rules.specs.Lines.{is_method};
ghost use Rattle.mbus_rules.specs.Telegrams.{bare, blank_entry};

use mbus_rules::{Decimal, Entry, Header, Kind, Telegram, Value};

pub mod kinds;
pub mod table;

// The address that asks every meter: a byte, as each other address.
pub const BROADCAST: u8 = 0xFE;

// The three methods of an enter, and what stands in their place in a leave. (Bytes and no enum: a telegram keeps the byte that came, and C is
// told it.)
pub const START_STOP: u8 = 0x90;

pub const SIMULATED_FLOW: u8 = 0x91;

pub const REAL_TIME: u8 = 0x92;

pub const NO_METHOD: u8 = 0x00;

// S is that of an enter.
pub fn is_method(s: u8) -> bool
    ensures { result ≡ is_method s }
{
    matches!(s, START_STOP | SIMULATED_FLOW | REAL_TIME)
}

// An entry place past the count.
pub fn blank_entry() -> Entry
    ensures { result ≡ blank_entry }
{
    Entry {
        structure: 0,
        unit: 0,
        value: Value::Number(Decimal { count: 0 }),
    }
}

// A telegram without header and entries.
pub fn bare(kind: Kind, address: u8, method: u8) -> Telegram
    ensures { result ≡ bare kind address method }
{
    let blank = blank_entry();
    Telegram {
        kind,
        address,
        method,
        header: Header {
            number: 0,
            maker: 0,
            version: 0,
            meter_type: 0,
            access: 0,
            status: 0,
        },
        count: 0,
        entries: [blank; 7],
    }
}
