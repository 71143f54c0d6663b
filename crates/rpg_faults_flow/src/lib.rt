//! Rules on calculations: their columns and their rounding, and a law of their sections.
#![tactic(auto)]

mod columns;
mod laws;
mod rounding;

pub use columns::{ColumnCause, OpenGroup, on_calculation};
pub use laws::faultless_sections_are_plain;
pub use rounding::{RoundingCause, rounding_cause};
