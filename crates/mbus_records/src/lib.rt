// Values as records for C: bytes of a fixed size, numbers low byte first.
#![tactic(auto)]

pub mod telegrams;
