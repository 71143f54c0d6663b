//! The compiler: translates the text of a source to an object program, the instructions of its calculations and the rows of its other
//! cards. Laws of sources without faults: their programs keep the limits of the object format, their first values fit their fields, the
//! verifier accepts them, and their subroutines have the levels of the longest chains.
#![tactic(auto)]

mod acceptance;
mod action;
mod calls;
mod code;
mod first_values;
mod group;
mod instruction;
mod limits;
mod numbers;
mod part;
mod program;
mod rows;
mod section;
mod source;
mod tests;

pub use acceptance::{faultless_sources_are_accepted, levels_are_longest_chains};
pub use first_values::faultless_sources_fill_their_fields;
pub use limits::faultless_sources_keep_limits;
pub use program::translate;
pub use rows::{SectionRows, section_rows};
pub use rpg_faults::{SourceCode, SourceFault};
pub use source::{Compiled, compile, compile_with_cards};
