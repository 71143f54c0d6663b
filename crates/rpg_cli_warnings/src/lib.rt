//! The warnings of a source without faults: those of rpg_warnings_lines, and indicators that are tested but never turned on, or turned on
//! but never tested, results that are shorter than their operands, devices, files that end the job, L cards, and halts.
#![tactic(auto)]

mod devices;
mod digits;
mod files;
mod halts;
mod indicators;
mod levels;
mod marks;
mod messages;
mod testing;
mod turning;
mod warned;
mod warnings;

pub use messages::warning_diagnostics;
pub use rpg_warnings_lines::{Warning, WarningKind};
pub use warned::{deny_warnings, judge_warnings};
pub use warnings::{source_warnings, wanted_warnings};
