//! The lines of a file.

use rpg_csv_rows::{RowInput, RowInputFault};
use rpg_files::Counted;
use std::alloc::{AllocError, Global};
use std::io::Read;

/// More bytes than a line of the longest record has, with its line end.
const LONGEST_LINE: usize = 10_002;

/// A file's reader, with the bytes that were read but not yet returned.
#[derive(Drop)]
pub struct LineInput<R> {
    reader: Counted<R>,
    input: RowInput,
}

impl<R: Read> LineInput<R> {
    pub fn new(alloc: Global, reader: R) -> Result<Self, AllocError>
    where
        R: Drop,
    {
        let input = RowInput::new(alloc)?;
        Ok(LineInput {
            reader: Counted::new(reader),
            input,
        })
    }

    /// Reads the next line, which replaces the bytes there; none at the end of the file. After a fault of the reader nothing more is read.
    pub(crate) fn read(&mut self, line: &mut Vec<u8>) -> Result<(), RowInputFault> {
        if self.reader.faults() > 0 {
            return Err(RowInputFault::Device);
        }
        self.input.read_line(&mut self.reader, LONGEST_LINE, line)
    }
}
