//! Reads the bytes of a source to the meaning of its cards, or to the first card with a fault.
#![tactic(auto)]

mod calculation;
mod card;
mod columns;
mod extension;
mod file;
mod form;
mod header;
mod input;
mod line_counter;
mod output;
mod sheet;
mod source;
mod spec;
mod unreadable;

pub use card::Card;
pub use rpg_sheet_specs::{
    CalculationSpec, ColumnFault, ColumnRange, ConditionSpec, ControlLevel, DataCard, DataSpec,
    Device, EditCode, Entry, EntryIndex, ExtensionSpec, Factor, FileRole, FileSpec, FormSpec,
    FormType, HeaderSpec, Indicator, InputFieldSpec, InputSpec, LineTime, Literal, Movement,
    NumericLiteral, Operation, OutputField, OutputRecord, OutputSpec, RecordCode, RecordType, Spec,
    TableSpec, TextLiteral, Three, Within, Word,
};
pub use sheet::{Cards, SheetCode, SheetFault, sheet_place};
pub use source::{MOST_CARDS, cards};
pub use unreadable::{UnreadableCard, refusal_names_the_first, unreadable_cards};
