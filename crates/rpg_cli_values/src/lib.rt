//! Values of command-line arguments: dates of six digits, codes of warnings, a byte, and switches.
#![tactic(auto)]

mod calendar;
mod code;
mod codes;
mod date;
mod day;

pub use calendar::{are_no_date, are_switches, byte_of};
pub use code::WarningCode;
pub use codes::WarningCodes;
pub use date::DateArgument;
pub use day::{DateOrder, Day};
