//! Records from a reader, and bytes to a writer.
#![tactic(auto)]

mod buffer;
mod counting;
mod input;
mod line;
mod reader;
mod records;
mod sending;

pub use counting::{Counted, DeviceFault, LastLine, most_tries};
pub use reader::{Next, ReadFault, RecordReader, RecordRoom};
pub use records::{answers_are_records, first_answers_are_records, records_are_lines};
pub use sending::{WriteFault, send};
