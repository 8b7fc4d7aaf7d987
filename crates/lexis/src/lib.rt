// Words: cuts a text into tokens.
#![tactic(auto)]

pub mod bytes;
pub mod class;
pub mod expect;
pub mod keywords;
pub mod reader;
pub mod refusal;
pub mod refusals;
pub mod token;
