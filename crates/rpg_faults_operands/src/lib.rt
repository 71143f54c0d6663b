//! Fields and constants on cards: whether they are defined, of the right kind and validly indexed, and how they are edited.
#![tactic(auto)]

mod editing;
mod forms;
mod indexes;
mod kinds;
mod marks;
mod mismatch;
mod names;
mod operands;
mod valid;

pub use editing::{fill_in, width};
pub use marks::{editing_columns, unknown_name, wrong_index};
pub use mismatch::{EditingCause, Mismatch, editing_cause};
pub use operands::{
    Operand, entry_form, factor_form, field_content, form_in, operands_ending, output_operand,
    result_form,
};
pub use valid::has_valid_operands;
