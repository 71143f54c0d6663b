//! The row of a line.

use crate::line::type_of;
use crate::texts::Format;
use rpg_csv_columns::{CardColumns, Constant, Fault, Field, Plan, Sample, TypePlan};
use rpg_csv_rows::{Quoting, add_cell, whole_row};
use rpg_csv_values::{Printed, Printing, add_content_of};
use rpg_text::{is_blank, is_character};
use std::alloc::{AllocError, Global};

/// How the rows of a plan are written.
#[derive(Drop)]
pub(crate) struct RowWriter {
    plan: Plan,
    quoting: Quoting,
    /// The decimal point.
    point: u8,
}

/// The memory for a line and its row.
#[derive(Drop)]
pub(crate) struct RowRoom {
    /// The bytes of the line.
    pub read: Vec<u8>,
    /// Its characters, with blanks after them.
    line: Vec<u8>,
    cell: Vec<u8>,
    pub row: Vec<u8>,
}

impl RowRoom {
    pub fn new(alloc: Global) -> Self {
        RowRoom {
            read: Vec::new(alloc),
            line: Vec::new(alloc),
            cell: Vec::new(alloc),
            row: Vec::new(alloc),
        }
    }

    /// Returns the characters that the fault of a line is about.
    pub fn shown(&self, fault: Fault) -> Sample {
        let (Fault::NoNumber(at) | Fault::NoConstant(at) | Fault::NotPrinted { at, .. }) = fault
        else {
            return Sample::new(b"");
        };
        let line = self.line.as_slice();
        Sample::new(line.get(at.first.saturating_sub(1)..at.last).unwrap_or(&[]))
    }

    /// Takes the characters of the line, with blanks up to the most columns.
    fn take_line(&mut self, most: usize) -> Result<(), Fault> {
        let line = whole_row(self.read.as_slice()).text;
        check_characters(line)?;
        if line.len() > most {
            let columns = line.len();
            return Err(Fault::LongLine { columns, most });
        }
        self.line.clear();
        self.line.extend_from_slice(line)?;
        self.line.resize(most, b' ')?;
        Ok(())
    }
}

/// Checks that all bytes are characters.
fn check_characters(line: &[u8]) -> Result<(), Fault> {
    for (place, byte) in line.iter().enumerate() {
        if !is_character(*byte) {
            return Err(Fault::NoCharacter {
                column: place.saturating_add(1),
                byte: *byte,
            });
        }
    }
    Ok(())
}

/// Returns the columns of a card in a line.
fn columns_of(card: u16, start: usize, end: usize) -> CardColumns {
    CardColumns {
        card,
        first: start.saturating_add(1),
        last: end,
    }
}

/// Replaces the cell by the content of a field in a line.
fn make_cell(field: &Field, point: u8, line: &[u8], cell: &mut Vec<u8>) -> Result<(), Fault> {
    let columns = line.get(field.start..field.end()).unwrap_or(&[]);
    cell.clear();
    let is_made = match field.printed {
        Some(printed) => printed.add_content(point, columns, cell)?,
        None => add_content_of(field.kind, point, columns, cell)?,
    };
    if is_made {
        return Ok(());
    }
    let at = columns_of(field.card, field.start, field.end());
    match field.printed {
        Some(
            Printed {
                printing: Printing::Code { code, .. },
                ..
            },
        ) => Err(Fault::NotPrinted {
            at,
            code: code.character(),
        }),
        _ => Err(Fault::NoNumber(at)),
    }
}

/// Checks that a line has its constants, those under conditions unless their columns are blank.
fn check_constants(constants: &[Constant], line: &[u8]) -> Result<(), Fault> {
    for constant in constants {
        let columns = line.get(constant.start..constant.end()).unwrap_or(&[]);
        if columns != constant.text.as_slice() && !is_blank(columns) {
            let at = columns_of(constant.card, constant.start, constant.end());
            return Err(Fault::NoConstant(at));
        }
    }
    Ok(())
}

/// Checks that the columns that no card of a line fills are blank.
fn check_blanks(kind: &TypePlan, line: &[u8]) -> Result<(), Fault> {
    for column in kind.blanks.as_slice() {
        let byte = line.get(*column).copied().unwrap_or(b' ');
        if byte != b' ' {
            return Err(Fault::Stray {
                column: column.saturating_add(1),
                byte,
                card: kind.card,
            });
        }
    }
    Ok(())
}

impl RowWriter {
    pub fn new(plan: Plan, format: Format) -> Self {
        let quotes_empty = plan.labels.as_slice().len() == 1;
        RowWriter {
            plan,
            quoting: Quoting {
                delimiter: format.delimiter,
                quotes_empty,
            },
            point: format.number.decimal,
        }
    }

    /// Replaces `out` by the first row, the names of the columns.
    pub fn write_names(&self, out: &mut Vec<u8>) -> Result<(), AllocError> {
        out.clear();
        for (column, label) in self.plan.labels.as_slice().iter().enumerate() {
            if column > 0 {
                out.push(self.quoting.delimiter)?;
            }
            add_cell(self.quoting, label.name().as_slice(), out)?;
        }
        out.push(b'\n')?;
        Ok(())
    }

    /// Appends the cell of a field, or an empty one.
    fn add_field(&self, field: Option<Field>, room: &mut RowRoom) -> Result<(), Fault> {
        match field {
            Some(field) => make_cell(&field, self.point, room.line.as_slice(), &mut room.cell)?,
            None => room.cell.clear(),
        }
        add_cell(self.quoting, room.cell.as_slice(), &mut room.row)?;
        Ok(())
    }

    /// Writes the row of the line that was read.
    pub fn write_row(&self, room: &mut RowRoom) -> Result<(), Fault> {
        room.take_line(self.plan.width)?;
        let Some(kind) = type_of(room.line.as_slice(), self.plan.types.as_slice()) else {
            return Err(Fault::NoType);
        };
        check_constants(kind.constants.as_slice(), room.line.as_slice())?;
        room.row.clear();
        for (column, field) in kind.by_column.as_slice().iter().enumerate() {
            if column > 0 {
                room.row.push(self.quoting.delimiter)?;
            }
            self.add_field(*field, room)?;
        }
        check_blanks(kind, room.line.as_slice())?;
        room.row.push(b'\n')?;
        Ok(())
    }
}
