//! Output of an object program over any store. Output lines are assembled in one buffer, edited, and placed on the form or
//! written as records.
#![tactic(auto)]

mod assembly;
pub mod bytes;
mod entries;
mod field;
mod line;
pub mod outputs;
mod pass;
mod pass_lines;
mod passage;
mod plan;
mod printer;
pub mod weights;
mod words;

pub use bytes::Output;
pub use entries::Entries;
pub use outputs::{put_details, put_exceptions, put_overflow, put_totals};
pub use plan::Plan;
