// What document 01 says of a line: here the types, in specs/ the definitions and the laws about them.
#![tactic(auto)]

// The five telegrams, with the host's numbers.
#[derive(Clone, Copy, Debug, PartialEq, Eq)]
pub enum Kind {
    Ack = 1,
    Read = 2,
    Enter = 3,
    Leave = 4,
    Data = 5,
}

// A decimal number: the digits of an entry as a count of its last digit, below zero where they have a minus.
#[derive(Clone, Copy)]
pub struct Decimal {
    pub count: i64,
}

// A number in binary.
#[derive(Clone, Copy)]
pub struct Whole {
    pub count: i64,
}

// A point in time. Year 0 to 99 means 2000 to 2099; weekday 1 is Monday and 7 Sunday, 0 is not said.
#[derive(Clone, Copy)]
pub struct Moment {
    pub year: u8,
    pub month: u8,
    pub day: u8,
    pub hour: u8,
    pub minute: u8,
    pub second: u8,
    pub weekday: u8,
}

// An entry's value: a number keeps whether it came as digits or as binary.
#[derive(Clone, Copy)]
pub enum Value {
    Number(Decimal),
    Time(Moment),
    Binary(Whole),
}

#[derive(Clone, Copy)]
pub struct Entry {
    pub structure: u8,
    pub unit: u8,
    pub value: Value,
}

#[derive(Clone, Copy)]
pub struct Header {
    pub number: u32,
    pub maker: u16,
    pub version: u8,
    pub meter_type: u8,
    pub access: u8,
    pub status: u8,
}

// A row of the table of quantities: its first and last unit byte; the quantity and its unit; the power of ten, which is what the unit byte
// leaves by the divisor, less the other number; whether a telegram must have the quantity, and whether it may be below zero: two columns of
// the table that do not depend on each other, and so two flags.
#[derive(Clone, Copy)]
pub struct UnitRow {
    pub first: u8,
    pub last: u8,
    pub quantity: u8,
    pub unit: u8,
    pub divisor: u8,
    pub less: u8,
    pub required: bool,
    pub may_fall: bool,
}

// A row of the structures: the structure byte, the bytes of a value, and whether they are packed digits or binary. (Two flags and no enum: an
// unknown structure is neither, and `is_packed` and `is_binary` read one each.)
#[derive(Clone, Copy)]
pub struct StructureRow {
    pub structure: u8,
    pub width: usize,
    pub packed: bool,
    pub binary: bool,
}

// A telegram. What its kind does not use is zero, and so are the entry places past the count. (There is no heap, and a line has seven entries
// at most.)
#[derive(Clone, Copy)]
pub struct Telegram {
    pub kind: Kind,
    pub address: u8,
    pub method: u8,
    pub header: Header,
    pub count: usize,
    pub entries: [Entry; 7],
}

// What a bench sends: a read, an enter with its method, or a leave, each to an address.
#[derive(Clone, Copy, PartialEq, Eq)]
pub enum Request {
    Read(u8),
    Enter(u8, u8),
    Leave(u8),
}

// A reading as the two ends of an exchange look at it: a refused line, an ack, a request, or data from an address.
// (No Result: a refused line is one of the things that an exchange hears, and the rules of both ends and their theorems go by the four cases.)
#[derive(Clone, Copy, PartialEq, Eq)]
pub enum Outline {
    Refused(u16),
    Ack,
    Asks(Request),
    Data(u8),
}
