//! The object program that a source compiles to: definitions (in specs/), and laws about them. Its fields, from cards: numbers and forms of
//! names and constants, and their values before the first cycle.
#![tactic(auto)]

mod constants;
mod fields;
mod formed;
pub mod laws;
mod loaded;
mod names;
pub mod ranges;
mod table;
mod tables;
mod values;

pub use fields::{Fields, fields_of};
pub use table::FieldTable;
