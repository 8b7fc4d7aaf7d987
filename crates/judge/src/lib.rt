// Judges documents: accepts those whose every branch has one instance that decides it.
#![tactic(auto)]

pub mod accepted;
mod judging;
mod leading;
mod look;
mod marking;
pub mod numbers;
pub mod refusal;
pub mod results;
mod trial;
