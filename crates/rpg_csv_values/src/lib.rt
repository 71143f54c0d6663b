//! The cells of a row as characters of a line's columns, and such columns as cells.
#![tactic(auto)]

mod cell;
mod column;
mod number;
mod printed;

pub use cell::{CellFault, CellKind, write_cell};
pub use column::{add_content_of, contents_are_read_back};
pub use number::{NumberFormat, without_blanks};
pub use printed::{Printed, Printing};
