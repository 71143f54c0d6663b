//! Rows of comma-separated values as lines of fixed columns, and lines as rows, over any reader and writer.
#![tactic(auto)]

mod input;
mod line;
mod lines;
mod row;
mod rows;
mod stop;
mod texts;

pub use lines::rows_to_lines;
pub use rows::lines_to_rows;
pub use stop::Stop;
pub use texts::{Format, Header, Setting};
