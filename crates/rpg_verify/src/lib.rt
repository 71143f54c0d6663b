//! Object programs that may run: they obey all rules, and one cycle takes a bounded number of steps.
#![tactic(auto)]

mod bound;
mod costs;
mod least;
mod places;
mod tables;
mod verified;
mod weights;

pub use least::{RULES, first_broken};
pub use places::{Placed, at_place};
pub use rpg_verify_rules::{BrokenRule, LineRule, PlaceRule, Rule, SubroutineRule, TypeRule};
pub use verified::{Verified, VerifyFault, verify};
