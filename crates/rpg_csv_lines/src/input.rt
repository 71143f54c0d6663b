//! The rows of an input, one at a time.

ghost use Rattle.std.specs.Prelude.{◌≡◌, ◌^◌, ◌-◌, ◌<◌, IfErr, OnOk};
ghost use Rattle.rpg_files.specs.Counting.{faults_of};
ghost use Rattle.rpg_csv_lines.specs.Stops.{IsCounted};

use crate::stop::Stop;
use rpg_csv_columns::{Fault, Part};
use rpg_csv_rows::{
    CellFault, CellPlace, RowInput, RowInputFault, SplitFault, split_row, whole_row,
};
use rpg_files::Counted;
use std::alloc::{AllocError, Global};
use std::io::Read;

/// A reader's rows. The first one is the header, if there is one.
#[derive(Drop)]
pub(crate) struct Rows {
    input: RowInput,
    row: Vec<u8>,
    /// How many bytes precede the row: a byte order mark.
    skipped: usize,
    /// The line that the row begins in, and that of the next row.
    line: u64,
    next_line: u64,
    delimiter: u8,
}

impl Rows {
    pub fn new(alloc: Global, delimiter: u8) -> Result<Self, AllocError> {
        Ok(Rows {
            input: RowInput::new(alloc)?,
            row: Vec::new(alloc),
            skipped: 0,
            line: 1,
            next_line: 1,
            delimiter,
        })
    }

    /// Reads the next row. Returns whether there is one.
    pub fn read<R: Read>(&mut self, reader: &mut Counted<R>) -> Result<bool, Stop>
        requires { faults_of reader.old < 2 ^ 64 - 1 }
        ensures ok { OnOk result (faults_of reader.new ≡ faults_of reader.old) }
        ensures stop { IfErr result (IsCounted (faults_of reader.old) (faults_of reader.new) 0 0) }
    {
        match self.input.read_row(reader, &mut self.row) {
            Ok(()) => {}
            Err(RowInputFault::Device) => return Err(Stop::Read),
            Err(RowInputFault::NoMemory) => return Err(Stop::NoMemory),
        }
        self.skipped = 0;
        self.line = self.next_line;
        self.next_line = self.line.saturating_add(self.input.line_feeds());
        Ok(!self.row.is_empty())
    }

    /// Passes over a byte order mark before the first row. Returns whether there is such a row.
    pub fn begin(&mut self) -> Result<bool, Fault> {
        match self.row.as_slice() {
            [0xff, 0xfe, ..] => return Err(Fault::Utf16([0xff, 0xfe])),
            [0xfe, 0xff, ..] => return Err(Fault::Utf16([0xfe, 0xff])),
            [0xef, 0xbb, 0xbf, ..] => self.skipped = 3,
            _ => {}
        }
        Ok(self.row.len() > self.skipped)
    }

    /// Returns the place of a row with this number, from 1.
    pub fn part(&self, number: u64) -> Part {
        Part::Row {
            number,
            line: self.line,
        }
    }

    /// Returns the bytes of the row.
    fn bytes(&self) -> &[u8] {
        self.row.as_slice().get(self.skipped..).unwrap_or(&[])
    }

    /// Returns the text of the row.
    pub fn text(&self) -> &[u8] {
        whole_row(self.bytes()).text
    }

    /// Replaces `cells` by the places of the row's cells. Returns the text of the row.
    pub fn split(&self, cells: &mut Vec<CellPlace>) -> Result<&[u8], Fault> {
        let row = whole_row(self.bytes());
        match split_row(row.text, self.delimiter, cells) {
            Ok(()) if !row.is_long => Ok(row.text),
            Err(SplitFault::NoMemory) => Err(Fault::NoMemory),
            Err(SplitFault::Row(fault)) if !row.is_long || fault.fault != CellFault::OpenMark => {
                Err(Fault::Row(fault))
            }
            _ => Err(Fault::LongRow),
        }
    }

    /// Whether only empty lines follow the row, which is one too.
    pub fn is_last<R: Read>(&mut self, reader: &mut Counted<R>) -> Result<bool, Stop>
        requires { faults_of reader.old < 2 ^ 64 - 1 }
        ensures ok { OnOk result (faults_of reader.new ≡ faults_of reader.old) }
        ensures stop { IfErr result (IsCounted (faults_of reader.old) (faults_of reader.new) 0 0) }
    {
        let line = self.line;
        for _ in 0..u64::MAX {
            if !self.read(reader)? {
                break;
            }
            if !self.text().is_empty() {
                self.line = line;
                return Ok(false);
            }
        }
        Ok(true)
    }
}
