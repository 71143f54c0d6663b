//! Rows of comma-separated values: strict RFC 4180, over any reader, and the same way back.
#![tactic(auto)]

mod cells;
mod input;
mod quoting;

pub use cells::{CellFault, CellPlace, RowFault, SplitFault, add_undoubled, split_row};
pub use input::{RowInput, RowInputFault, WholeRow, whole_row};
pub use quoting::{Quoting, add_cell, cells_are_read_back};
