// What all rules are written with: in specs/ lists, answers and refusals, and bytes; here the error of a program's answers.
#![tactic(auto)]

mod refusals;

pub use refusals::Refusal;
