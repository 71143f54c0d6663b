//! Input of an object program over any store: columns of a record are moved to input fields.
#![tactic(auto)]

mod digits;
pub mod fixed_inputs;
pub mod inputs;
