//! Characters, blanks and lines: the parts of sources, object programs and inputs.
#![tactic(auto)]

mod blank;
mod character;
mod line;

pub use blank::{is_blank, trimmed};
pub use character::{has_only_characters, is_character, shown};
pub use line::{first_line, lines_end_at_line_feeds};
