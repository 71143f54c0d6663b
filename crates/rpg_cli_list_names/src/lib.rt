//! The names in a source: its fields, constants, labels and indicators, each with the cards that have
//! it.
#![tactic(auto)]

mod indicators;
mod mentions;
mod names;

pub use indicators::{Indicators, overflow_of};
pub use mentions::{By, Done, Mentions};
pub use names::{Labels, Names, write_constants};
