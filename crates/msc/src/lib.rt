// Documents: procedures drawn as message sequence charts joined in a graph.
#![tactic(auto)]

pub mod built_in;
pub mod chart;
pub mod copies;
pub mod document;
pub mod event;
pub mod label;
pub mod list;
pub mod look;
pub mod name;
pub mod search;
pub mod short;
pub mod symbol;
pub mod table;
pub mod tables;
pub mod words;
