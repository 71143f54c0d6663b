//! Rules for old decks about their files: printers, where a job ends, and records that are written back.
#![tactic(auto)]

mod end_of_file;
mod joined_line;
mod merged;
mod other_printer;
mod printer;
mod record_text;
mod updated;
mod updated_line;

pub use end_of_file::end_of_files;
pub use merged::{merged_files, secondary_files};
pub use printer::printers;
pub use updated::updated_files;
