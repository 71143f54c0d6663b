//! Record types and output lines of a program, from their cards.
#![tactic(auto)]

mod alternatives;
mod codes;
mod files;
mod levels;
mod lines;
mod output_fields;
mod spacing;
mod types;

pub use lines::lines_of;
pub use types::types_of;
