//! The fixed program cycle: jobs, which do a cycle for each record, and whole runs.
#![tactic(auto)]

mod cycle;
mod date;
mod ends;
mod indicators;
mod jobs;
mod laws;
mod phases;
mod program;
mod runs;
mod seen;
mod selection;

pub use ends::{CycleEnd, JobEnd, StartFault};
pub use jobs::{Job, Need};
pub use laws::{
    cycles_keep_order, runs_are_one, runs_are_short, runs_go_by_their_count, runs_stand_right,
    unneeded_records_are_ignored,
};
pub use rpg_machine::Output;
pub use rpg_program::halt::Halt;
pub use runs::{Run, run_records};
pub use seen::Seen;
