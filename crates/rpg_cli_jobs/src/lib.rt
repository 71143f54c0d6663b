//! What a job has from the arguments: its date, its limit and its files, and the run over them.
#![tactic(auto)]

mod dating;
mod devices;
mod keeping;
mod limits;
mod running;

pub use dating::settle_date;
pub use devices::{Devices, RunFiles, devices_of, empty_files, open_files};
pub use keeping::Kept;
pub use limits::{WantedFiles, program_of, report_wanted, source_files};
pub use running::{Running, run_counted};
