//! The rows of an object program.

ghost use Rattle.std.specs.Prelude.{◌≡◌, ◌+◌, cond, length};
ghost use Rattle.rpg_program.specs.Object as objects;
ghost use Rattle.rpg_program.specs.Object.{seen};

use crate::condition::Condition;
use crate::form::FieldForm;
use crate::input::{ControlField, InputField, InputFile, RecordCode};
use crate::line::{File, LineField, Spacing, Time};
use crate::operation::Instruction;
use crate::value::FieldValues;
use rpg_paper::Page;

/// A record type. Columns of a record are counted from 1, fields from 1.
#[derive(Drop)]
pub struct RecordType {
    /// The file whose records may be of this type.
    pub file: InputFile,
    /// The indicator that it turns on, 1 to 129.
    pub indicator: Option<u8>,
    /// Records belong to this type if all of these hold; at most 100.
    pub codes: Vec<RecordCode>,
    /// The control fields, at most 100.
    pub levels: Vec<ControlField>,
    /// The columns that are moved to fields, at most 500.
    pub inputs: Vec<InputField<u16>>,
    /// The match fields, at most 9.
    pub matches: Vec<ControlField>,
}

/// An output line.
#[derive(Drop)]
pub struct Line {
    pub file: File,
    pub time: Time,
    pub spacing: Spacing,
    /// The line is written if all conditions of one of these hold: 1 to 50 of them, of at most 60 conditions each.
    pub alternatives: Vec<Vec<Condition>>,
    /// At most 200.
    pub fields: Vec<LineField<u16>>,
}

impl Line {
    /// Returns the line's weight if it counts: one, and one more for each of its fields.
    pub fn weight_where(&self, is_meant: bool) -> u64
        ensures { result ≡ cond is_meant (1 + length self.now.fields.items) 0 }
    {
        if is_meant {
            1 + self.fields.len() as u64
        } else {
            0
        }
    }
}

/// A subroutine.
#[derive(Drop)]
pub struct Subroutine {
    /// Calls lead only to higher levels, which the verifier ensures; the row itself allows any number.
    pub level: u16,
    pub instructions: Vec<Instruction<u16>>,
}

/// How an object program is encoded. Version 1 has neither a secondary file nor match fields; only version 3 has a page of its own and a
/// file that can end the job alone.
#[derive(Clone, Copy, PartialEq, Eq)]
pub enum Version {
    One,
    Two,
    Three,
}

impl Version {
    pub fn number(self) -> u16
        ensures { result ≡ objects.version_number self }
    {
        match self {
            Version::One => 1,
            Version::Two => 2,
            Version::Three => 3,
        }
    }

    /// Whether there can be a secondary file and match fields.
    pub fn has_secondary(self) -> bool
        ensures { result ≡ objects.has_secondary self }
    {
        match self {
            Version::One => false,
            Version::Two | Version::Three => true,
        }
    }

    /// Whether there can be a page other than the standard one, and a file that ends the job alone.
    pub fn has_page(self) -> bool
        ensures { result ≡ objects.has_page self }
    {
        match self {
            Version::One | Version::Two => false,
            Version::Three => true,
        }
    }
}

/// The form's page, and the indicator that a full page turns on.
#[derive(Clone, Copy)]
pub struct Overflow {
    /// 112 to 119.
    pub indicator: Option<u8>,
    pub page: Page,
}

/// The numbers and tables of a program.
#[derive(Drop)]
pub struct Rows {
    pub version: Version,
    /// The most backward branches and calls of a cycle, 1 to 65,535.
    pub allowance: u16,
    /// The length of a primary record, 1 to 9,999.
    pub record_length: u16,
    /// The length of a secondary record, at most 9,999; 0 without a secondary file.
    pub secondary_length: u16,
    /// The length of a printed line, at most 132; 0 without a printer.
    pub printer_length: u16,
    /// The length of a disk record, at most 9,999; 0 without a disk file.
    pub disk_length: u16,
    pub overflow: Overflow,
    /// The input file that ends the job alone, if one does. Otherwise the job ends once both have ended.
    pub ends: Option<InputFile>,
    /// At most 4,000, of 65,535 bytes in all.
    pub fields: Vec<FieldForm>,
    /// The first values of each field, one for each entry. Texts are characters, 0x20 to 0x7e.
    pub values: Vec<FieldValues>,
    /// At most 200.
    pub types: Vec<RecordType>,
    /// At most 1,000.
    pub lines: Vec<Line>,
    /// The instructions of detail calculations, of total calculations and of each subroutine: at most 8,192 in all. Their places
    /// are numbered consecutively in this order, from 0.
    pub detail: Vec<Instruction<u16>>,
    pub total: Vec<Instruction<u16>>,
    /// At most 100.
    pub subroutines: Vec<Subroutine>,
}

impl Rows {
    /// Returns the record length of an input file, 0 if it doesn't exist.
    pub fn input_length(&self, file: InputFile) -> u16
        ensures { result ≡ objects.input_length (seen self.now) file }
    {
        match file {
            InputFile::Primary => self.record_length,
            InputFile::Secondary => self.secondary_length,
        }
    }

    /// Whether the input file exists.
    pub fn has_file(&self, file: InputFile) -> bool
        ensures { result ≡ objects.has_file (seen self.now) file }
    {
        self.input_length(file) != 0
    }

    /// Returns the length of a printed line or of a disk record; 0 if the file doesn't exist.
    pub fn file_length(&self, file: File) -> u16
        ensures { result ≡ objects.file_length (seen self.now) file }
    {
        match file {
            File::Printer => self.printer_length,
            File::Disk => self.disk_length,
        }
    }
}
