//! F16: columns of records and of lines.
#![tactic(auto)]

mod columns;
mod joins;
mod lengths;
mod matches;
mod outside;
mod state;

pub use joins::{JoinCause, join_cause};
pub use outside::{PlaceCause, outside_cause};
pub use state::Places;
