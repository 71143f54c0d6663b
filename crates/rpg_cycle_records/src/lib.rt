//! A record of a program: its text, its type and its control levels, and what a job keeps of earlier records.
#![tactic(auto)]

mod files;
mod identification;
mod kept;
pub mod laws;
mod levels;
mod matching;
mod program;
mod record;

pub use files::KeptFile;
pub use identification::{Found, identify};
pub use kept::Kept;
pub use levels::{LastBytes, compare};
pub use matching::{LastValues, MatchValue};
pub use program::{
    control_fields, file_of, input_length, match_fields, rows_of, type_at, types_of,
};
pub use record::{fill, is_valid};
