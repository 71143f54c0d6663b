//! The record types and output lines of an object program, each with its encoding, and tables of rows.
#![tactic(auto)]

mod conditions;
mod instructions;
mod letter;
mod line_field;
mod output_line;
mod record_type;
pub mod row_laws;
mod table;

pub use instructions::{instructions_at, put_instructions};
pub use output_line::{line_at, lines_at, put_line, put_lines};
pub use record_type::{put_record_type, put_record_types, record_type_at, record_types_at};
