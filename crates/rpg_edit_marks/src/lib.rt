//! The marks of edited numbers, edit codes, and how a number is edited: the types that definitions name, and (in specs/) the
//! definitions of the texts.
#![tactic(auto)]

mod code;
mod how;
mod mark;

pub use code::{EditCode, Ending, Fill};
pub use how::How;
pub use mark::Mark;
