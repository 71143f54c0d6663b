//! Describes what in a row of an object program breaks a rule of the verifier.
#![tactic(auto)]

mod cause;
mod joined;
pub mod laws;
mod lines;
mod places;
mod refusals;
mod searches;
mod subroutines;
mod types;

pub use cause::{Column, Refusal, RefusalCause};
pub use places::placed_at;
pub use refusals::refusal;
