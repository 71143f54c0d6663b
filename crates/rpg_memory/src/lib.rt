//! The memory of a running program: the values of its fields, the indicators, the remainder, and where the form is.
#![tactic(auto)]

pub mod condition;
pub mod entry;
pub mod indicators;
mod laws;
pub mod memory;
pub mod numbers;
mod paper;
pub mod position;
pub mod resolved;
pub mod showing;

pub use laws::{first_values_fit, forms_are_valid};
