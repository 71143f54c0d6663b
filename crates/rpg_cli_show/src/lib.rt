//! An object program as text for people.
#![tactic(auto)]

mod fields;
mod program;
mod rows;
mod shown;

pub use program::{program_overview, program_text};
