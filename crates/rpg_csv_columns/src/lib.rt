//! The columns of comma-separated values, by the fields of a file's record types.
#![tactic(auto)]

mod fault;
mod field;
mod header;
mod name;
mod plan;

pub use fault::{CardColumns, Fault, Part, Refusal, TextFault};
pub use field::{Constant, Field, FieldType, FileFields, code_fields, file_fields};
pub use header::{Labels, field_labels, given_labels};
pub use name::{FieldName, Label, Sample};
pub use plan::{Cell, Plan, TypePlan};
