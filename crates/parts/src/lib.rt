// Reads the events of a part of a chart, and names among rows.
#![tactic(auto)]

pub mod events;
pub mod names;
pub mod reading;
