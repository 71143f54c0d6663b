//! The commands that run a program over its files: an object program, or a source.
#![tactic(auto)]

mod jobs;

pub use jobs::{go_files, run_files};
