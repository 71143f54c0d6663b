//! The record of a file that waits, with its match value.

ghost use Rattle.std.specs.Prelude.{◌≡◌, take};
ghost use Rattle.rpg_csv_rows.specs.Rows.{row_text};

use crate::deck::{MatchField, MatchType, TypeCode};
use crate::fault::MergeStop;
use crate::input::LineInput;
use rpg_csv_rows::{RowInputFault, whole_row};
use std::alloc::{AllocError, Global};
use std::io::Read;

/// The record that waits in a file.
#[derive(Drop)]
pub(crate) struct Head {
    /// Whether there is one; none waits at the end of the file.
    pub is_there: bool,
    /// Whether its type has match fields.
    pub has_value: bool,
    /// The characters of its match fields, one after the other.
    pub value: Vec<u8>,
    /// Its line, with its line end.
    pub line: Vec<u8>,
    /// The number of the line.
    pub number: u64,
}

/// Returns the character in a column, a blank after the end.
fn column(line: &[u8], column: usize) -> u8 {
    match line.get(column.saturating_sub(1)) {
        Some(character) => *character,
        None => b' ',
    }
}

/// Whether a line has the codes of a type.
fn is_of_type(line: &[u8], codes: &[TypeCode]) -> bool {
    for code in codes {
        if (column(line, code.column) == code.character) == code.is_not {
            return false;
        }
    }
    true
}

/// Returns the first type whose codes a line has.
fn type_of<'a>(line: &[u8], types: &'a [MatchType]) -> Option<&'a MatchType> {
    for kind in types {
        if is_of_type(line, kind.codes.as_slice()) {
            return Some(kind);
        }
    }
    None
}

/// Returns the character by which a column of a match field is compared: of a number, its digit without a sign.
fn compared(is_number: bool, character: u8) -> u8 {
    match character {
        b' ' | b'{' | b'}' if is_number => b'0',
        b'A'..=b'I' if is_number => character - 16,
        b'J'..=b'R' if is_number => character - 25,
        _ => character,
    }
}

/// Appends the characters of a match field.
fn push_field(value: &mut Vec<u8>, line: &[u8], field: &MatchField) -> Result<(), AllocError> {
    for place in field.first..=field.last {
        value.push(compared(field.is_number, column(line, place)))?;
    }
    Ok(())
}

/// Appends the match value of a line, by the type whose codes it has. Returns whether it has one.
fn push_value(value: &mut Vec<u8>, line: &[u8], types: &[MatchType]) -> Result<bool, AllocError> {
    let Some(kind) = type_of(line, types) else {
        return Ok(false);
    };
    for field in kind.fields.iter() {
        push_field(value, line, field)?;
    }
    Ok(!kind.fields.is_empty())
}

impl Head {
    pub fn new(alloc: Global) -> Head {
        Head {
            is_there: false,
            has_value: false,
            value: Vec::new(alloc),
            line: Vec::new(alloc),
            number: 0,
        }
    }

    /// Returns its columns.
    pub fn text(&self) -> &[u8]
        ensures { result.now ≡ take 1048576 (row_text self.now.line.items) }
    {
        whole_row(self.line.as_slice()).text
    }

    /// Reads the next line of a file, by the place of the file and the length of its records.
    pub fn read<R: Read>(
        &mut self,
        input: &mut LineInput<R>,
        file: usize,
        length: usize,
    ) -> Result<(), MergeStop> {
        match input.read(&mut self.line) {
            Ok(()) => {}
            Err(RowInputFault::Device) => return Err(MergeStop::Read { file }),
            Err(RowInputFault::NoMemory) => return Err(MergeStop::NoMemory),
        }
        self.is_there = !self.line.is_empty();
        self.number = self.number.saturating_add(1);
        if self.text().len() > length {
            return Err(MergeStop::Long {
                file,
                number: self.number,
            });
        }
        Ok(())
    }

    /// Finds the match value of its line.
    pub fn note_value(&mut self, types: &[MatchType]) -> Result<(), AllocError> {
        self.value.clear();
        let line = whole_row(self.line.as_slice()).text;
        self.has_value = push_value(&mut self.value, line, types)?;
        Ok(())
    }
}
