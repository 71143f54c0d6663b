//! What commands print about object programs: the words for fields, values, indicators and lines, the cards that the rows of an object
//! program come from, and whether a program uses the date.
#![tactic(auto)]

mod date_use;
mod operands;
mod source_rows;
mod words;

pub use date_use::uses_date;
pub use operands::{constant_of, write_card_operand};
pub use source_rows::SourceRows;
pub use words::{
    Indicator, is_empty, name_text, time_word, write_card, write_code, write_condition, write_form,
    write_named, write_quoted, write_shows, write_spacing, write_value, write_when,
};
