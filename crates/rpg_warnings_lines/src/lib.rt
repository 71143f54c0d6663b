//! Warnings about printed lines, and the results that they print or don't.
#![tactic(auto)]

mod alternatives;
mod lines;
mod marks;
mod overlaps;
mod pages;
mod printer;
mod sums;
mod totals;
mod unheld;
mod unused;
mod uses;
mod warning;

pub use lines::put_line_warnings;
pub use printer::is_printer;
pub use warning::{Warning, WarningKind, put_warning};
