//! The written machine: steps and sections of an accepted program, its outputs, and the input fields of a record.
#![tactic(auto)]

mod accepted;
mod cells;
pub mod control;
mod idle;
pub mod laws;
mod machine;
mod output;
mod precomputed_run;
mod precomputed_steps;
mod section;
mod state;
pub mod time;
mod transfer;

pub use machine::Machine;
pub use rpg_machine_lines::Output;
