//! Programs as rows: the types of the rows, what operations, input and output do to values, indicators and the form (in specs/), and
//! the limits that a program obeys. Both are stated once for fields by number, as in an object program, and for fields by name, as on
//! the cards, and laws connect the two. The forms of fields and the table of operations are implemented here.
#![tactic(auto)]

pub mod columns;
pub mod condition;
pub mod form;
pub mod forms;
pub mod halt;
pub mod input;
pub mod laws;
pub mod line;
pub mod operation;
pub mod outcome;
pub mod program;
pub mod renaming_laws;
pub mod row;
pub mod rows;
pub mod section;
pub mod spans;
pub mod value;
pub mod words;

pub use program::Program;
