//! Converts records of a layout to lines that rpg2 reads, and lines to such records.
#![tactic(auto)]

mod conversion;
mod fault;
mod frames;
mod input;
mod laws;
mod line;
mod maker;
mod numbers;
mod record;
mod sending;

pub use conversion::{ConversionFault, Counts, RecordFormat, lines_to_records, records_to_lines};
pub use fault::{FieldBytes, LineFault, NumberFault, RecordFault};
pub use frames::Framing;
pub use laws::lines_come_back;
pub use line::Converter;
pub use rpg_records::{Code, Column, Layout, NumberField, NumberForm, Page, RecordType};
