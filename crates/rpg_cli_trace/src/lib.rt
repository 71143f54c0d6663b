//! Reports what a job does, cycle by cycle, and counts over all its cycles, as text for people.
#![tactic(auto)]

mod changes;
mod counts;
mod looking;
mod told;
mod tracing;

pub use looking::{HaltedFile, Looking};
pub use told::JobNames;
