//! Rules on limits and files.
#![tactic(auto)]

mod calculations;
mod files;
mod filled;
mod items;
mod limits;
mod lines;
mod measures;
mod sheets;
mod state;
mod storage;
mod types;

pub use files::{
    FileCause, FileOnCard, FileUser, file_at, file_cause, file_of_line, lacks_input, moved_disk,
    movement_range,
};
pub use limits::limit_cause;
pub use measures::{Limit, LimitCause};
pub use sheets::{Groups, Sheets, file_or};
pub use state::Limits;
