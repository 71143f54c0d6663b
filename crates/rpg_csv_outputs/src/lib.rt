//! The lines of an output file as rows of comma-separated values, by the O cards of a deck.
#![tactic(auto)]

mod field;
mod lines;

pub use lines::written_fields;
