//! Rows of comma-separated values in `rpg2 records`: `--csv` and `--to-csv`, with their diagnostics.
#![tactic(auto)]

mod messages;
mod rows;
mod shown;

pub use rows::{FileRows, convert_rows, file_rows};
