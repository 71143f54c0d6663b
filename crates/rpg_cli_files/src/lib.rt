//! Whole files by path, lines to a writer, and the listener for everything else that is
//! printed.
#![tactic(auto)]

mod files;
mod listener;
mod pending;
mod replacing;
mod sending;
mod streams;

pub use files::{
    FileFault, FileIdentity, Patient, Reason, begins_with, file_bytes, flush_device, identity,
    identity_at, input_file, output_file,
};
pub use listener::{Listener, remark_made, tell_all, tell_made};
pub use pending::{KeptFile, Pending, kept_file};
pub use replacing::{InPlace, Replaces, write_bytes};
pub use sending::{send_line, send_text};
pub use streams::{LineTarget, Opened, RecordSource, lines, records};
