// Reads a text's instances and charts into a draft.
#![tactic(auto)]

mod blocks;
pub mod charts;
pub mod instances;
