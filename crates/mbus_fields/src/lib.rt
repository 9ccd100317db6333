// The fields of a data telegram: packed digits, binary, the table of quantities and structures, the point in time, the header.
#![tactic(auto)]

pub mod binary;
pub mod digits;
pub mod headers;
pub mod moments;
pub mod quantities;
