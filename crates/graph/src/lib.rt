// Reads the graph of a document: its start list and its label lines.
#![tactic(auto)]

pub mod grammar;
pub mod line;
pub mod lines;
pub mod mention;
pub mod mentions;
pub mod resolve;
