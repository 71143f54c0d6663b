//! What the cards of a source mean: the types of each sheet's specs, and the definitions of columns and their values.
#![tactic(auto)]

mod calculation;
mod card_columns;
mod column;
mod column_range;
mod data;
mod entry;
mod extension;
mod few;
mod file;
mod form;
mod form_type;
mod header;
mod indicator;
mod input;
mod literal;
mod operations;
mod output;
pub mod ranges;
mod spec;
mod within;
mod word;

pub use calculation::{CalculationSpec, ControlLevel, Operation};
pub use card_columns::CardColumns;
pub use column::ColumnFault;
pub use column_range::ColumnRange;
pub use data::{DataCard, DataSpec};
pub use entry::{Entry, EntryIndex};
pub use extension::{ExtensionSpec, TableSpec};
pub use few::Few;
pub use file::{Device, FileRole, FileSpec};
pub use form::FormSpec;
pub use form_type::FormType;
pub use header::HeaderSpec;
pub use indicator::{ConditionSpec, Indicator, Three};
pub use input::{InputFieldSpec, InputSpec, RecordCode, RecordType};
pub use literal::{Factor, Literal, NumericLiteral, TextLiteral};
pub use operations::{Column, Content, Kinds, OperationColumns, Shown, columns};
pub use output::{LineTime, Movement, OutputField, OutputRecord, OutputSpec};
pub use rpg_edit_marks::EditCode;
pub use spec::Spec;
pub use within::Within;
pub use word::Word;
