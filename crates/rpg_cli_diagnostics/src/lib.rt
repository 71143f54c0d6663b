//! Diagnostics: what they say and where they point, written as text or as JSON objects.
#![tactic(auto)]

mod draft;
mod object;
mod picture;
mod text;
mod value;

pub use draft::{Diagnostics, Draft};
pub use object::{begin_object, end_object, line_of, write_note_object};
pub use picture::{write_card, write_times};
pub use text::{write_line_text, write_note_text, write_text};
pub use value::{At, Child, Columns, Diagnostic, FileName, Level, Line, Made, Place};
