//! The rules that an object program must obey before it runs.
#![tactic(auto)]

mod indicators;
pub mod laws;
pub mod lines;
pub mod matches;
pub mod places;
mod rule;
pub mod subroutines;
pub mod types;
mod words;

pub use rule::{BrokenRule, LineRule, PlaceRule, Rule, SubroutineRule, TypeRule};
