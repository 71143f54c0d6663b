//! How the commands of `rpg2` end, with the line and exit status of each end, and what else they print: text, or JSON objects.
#![tactic(auto)]

mod answer;
mod sharing;
mod stop;
mod text;

pub use answer::{Answer, Line, RefusedRow, named};
pub use rpg_cli_files::{Listener, remark_made, tell_all, tell_made};
pub use sharing::{
    NamedFile, file_at, file_of, refuse_replacing, refuse_same_file, report_in_place,
    report_placed, source_bytes, system_path,
};
pub use stop::{CommandStop, Reasons, source_object};
pub use text::{json_line, line};
