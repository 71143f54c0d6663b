//! Rules that rewrite output lines.
#![tactic(auto)]

mod dollar;
mod field;
mod or_space;
mod place;
mod whole_output;
mod word;

pub use dollar::dollars;
pub use or_space::or_spaces;
pub use place::places;
pub use whole_output::whole_outputs;
pub use word::words;
