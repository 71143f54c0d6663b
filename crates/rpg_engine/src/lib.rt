//! The engine: verifies the bytes of an object program, and runs it over input bytes to a report and output bytes, a record
//! at a time.
#![tactic(auto)]

mod cycle;
mod engine;
mod fault;
mod files;
mod object;
mod report;
mod run;
mod sending;
mod watching;

pub use engine::{execute, execute_program, watch_program};
pub use fault::RunFault;
pub use files::{OutputFile, Readers, Writers};
pub use object::{
    ObjectFault, accept, decode_object, has_disk_file, has_secondary_file, verify_bytes,
};
pub use report::Report;
pub use rpg_cycle::{
    Halt, Job, JobEnd, Need, run_records, runs_are_one, runs_are_short, runs_stand_right,
    unneeded_records_are_ignored,
};
pub use rpg_files::ReadFault;
pub use rpg_object::Code;
pub use rpg_program::Program;
pub use rpg_program::input::InputFile;
pub use rpg_program::section::{Place, Section};
pub use rpg_verify::{BrokenRule, Rule, Verified};
pub use watching::{Unwatched, Watcher};
