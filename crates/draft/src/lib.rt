// A draft: what has been read of a text ahead of its graph.
#![tactic(auto)]

pub mod counts;
pub mod draft;
