// Writing: the shortest text of a document.
#![tactic(auto)]

mod charts;
mod graph;
mod lines;
mod names;
mod pen;
pub mod writer;
