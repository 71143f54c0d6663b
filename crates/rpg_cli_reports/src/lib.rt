//! What the program prints about the answer of a command: its line, why a file failed, and the pages of its codes.
#![tactic(auto)]

mod explaining;
mod reporting;
mod saying;
mod streams;

pub use explaining::explain;
pub use reporting::{report_source_fault, report_unwritten};
pub use saying::{Outlet, conclude, refuse};
pub use streams::{StandardError, StandardStreams};
