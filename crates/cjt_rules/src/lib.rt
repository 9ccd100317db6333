// What 02, 2026-08, with documents 001 and 002, says of a CJ/T 188 line: here the types, in specs/ the definitions.
#![tactic(auto)]

// The address that a request names: one meter, fourteen digits as a number, or every meter.
// No Option: 02 names both, and None would read as no meter where all are asked.
#[derive(Clone, Copy)]
pub enum CjtAddress {
    Meter(u64),
    Broadcast,
}

// A read request.
#[derive(Clone, Copy)]
pub struct CjtRequest {
    pub meter_type: u8,
    pub address: CjtAddress,
    pub serial: u8,
}

// A value of eight digits, as a count of its last one, and the code of its unit.
#[derive(Clone, Copy)]
pub struct CjtQuantity {
    pub count: u32,
    pub code: u8,
}

// The meter's clock, years 0 to 9999.
#[derive(Clone, Copy)]
pub struct CjtClock {
    pub year: u16,
    pub month: u8,
    pub day: u8,
    pub hour: u8,
    pub minute: u8,
    pub second: u8,
}

// An answer. Temperatures are counts of hundredths of a degree; the two state bytes are kept as sent.
#[derive(Clone, Copy)]
pub struct CjtAnswer {
    pub meter_type: u8,
    pub address: u64,
    pub serial: u8,
    pub cold: CjtQuantity,
    pub heat: CjtQuantity,
    pub power: CjtQuantity,
    pub flow: CjtQuantity,
    pub volume: CjtQuantity,
    pub inlet: u32,
    pub outlet: u32,
    pub hours: u32,
    pub clock: CjtClock,
    pub first_state: u8,
    pub second_state: u8,
}

// The two telegrams.
#[derive(Clone, Copy)]
pub enum CjtTelegram {
    Request(CjtRequest),
    Answer(CjtAnswer),
}

// Which of the two a telegram is.
#[derive(Clone, Copy)]
pub enum CjtKind {
    Request,
    Answer,
}
