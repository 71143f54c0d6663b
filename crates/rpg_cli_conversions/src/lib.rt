//! The command that converts the records of other machines, rows of comma-separated values and lines, with its diagnostics.
#![tactic(auto)]

mod law;
mod merging;
mod records;
mod refused;

pub use law::cards_say_the_output;
pub use records::records_file;
