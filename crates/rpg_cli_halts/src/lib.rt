//! The diagnostic for a job that halted.
#![tactic(auto)]

mod halts;
mod held;
mod source;
mod types;

pub use halts::{HaltedCycle, InputNames, halt_diagnostic};
pub use held::{HaltedRecord, LastRead};
pub use source::HaltedSource;
