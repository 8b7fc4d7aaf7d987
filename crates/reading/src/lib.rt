// Reads a text into a document, or refuses it by number and spot.
#![tactic(auto)]

pub mod read;
