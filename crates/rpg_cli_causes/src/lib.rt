//! Explains why a card has a fault of F1 to F18: the name, the other card, the limit and the number.
#![tactic(auto)]

mod cause;
mod fields;
mod files;
mod names;
mod near;
mod spot;

pub use cause::{Root, root_of, write_cause};
pub use near::NearNames;
pub use spot::{CardLines, SourceCards, definer};
