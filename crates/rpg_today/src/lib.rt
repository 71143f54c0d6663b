//! The day on which a job runs.
#![tactic(auto)]

mod clock;

pub use clock::today;
