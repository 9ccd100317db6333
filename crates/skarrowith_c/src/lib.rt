// The functions for C under the names that they have in the library: include/skarrowith.h says how. Each calls the function of a crate
// host_* that has its name, and states its clauses again.
#![tactic(auto)]

pub mod bench;
pub mod bundle;
pub mod cjt;
pub mod contents;
pub mod exchange;
pub mod incoming;
pub mod lines;
pub mod meaning;
pub mod meter;
pub mod search;
pub mod verdicts;
