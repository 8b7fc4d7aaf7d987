// The order of a chart's events: whether its messages match, whether its events can be listed, and who begins it.
#![tactic(auto)]

pub mod drawing;
pub mod leaders;
pub mod listing;
pub mod matching;
mod messages;
pub mod starting;
