//! F18: the data of tables, after the sheets of a source, and its faults.
#![tactic(auto)]

mod cause;
mod data;
mod decks;
mod layout;
mod number;
mod wrong_entry;

pub use cause::{DataCause, Need, data_cause};
pub use data::data_columns;
pub use decks::{Decks, after_next};
pub use number::number_in;
pub use wrong_entry::{EntryCause, EntryFault};
