//! Edit words of RPG II, and the width of an edited number.
#![tactic(auto)]

mod code;
mod how;
mod mark;
mod suppression;
mod word;

pub use how::{How, width, word_width};
pub use suppression::Suppression;
pub use word::{EditFault, EditWord};
