//! Packed and binary fields of output files: the deck that writes their digits, and the records that its lines become.
#![tactic(auto)]

mod array;
mod back;
mod changes;
mod field;
mod file;
mod line;
mod name;

pub use back::{BackLayout, back_layout, input_layout, rows_layout};
pub use changes::deck_changes;
