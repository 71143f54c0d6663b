//! The line of a row.

use crate::texts::{Format, Texts};
use rpg_csv_columns::{Cell, Fault, FieldName, Label, Plan, Sample, TextFault, TypePlan};
use rpg_csv_values::{CellFault, CellKind, write_cell};
use rpg_records::Code;
use rpg_text::{is_blank, trimmed};
use std::alloc::{AllocError, Global};

/// A line that is put together. Its columns are blank where nothing is yet.
#[derive(Drop)]
pub(crate) struct Line {
    columns: Vec<u8>,
    /// The columns of a cell.
    room: Vec<u8>,
    /// The text of the cell that has no place.
    pub shown: Sample,
}

/// A row, and the texts of its cells.
#[derive(Clone, Copy)]
pub(crate) struct RowTexts<'a> {
    pub row: &'a [u8],
    pub texts: &'a Texts,
}

impl<'a> RowTexts<'a> {
    fn text(self, column: usize) -> &'a [u8] {
        self.texts.text(self.row, column)
    }
}

/// Whether all codes hold in a line's columns. Blanks follow them.
pub(crate) fn fits(columns: &[u8], codes: &[Code]) -> bool {
    for code in codes {
        let character = columns.get(code.place).copied().unwrap_or(b' ');
        if (character == code.character) == code.is_negated {
            return false;
        }
    }
    true
}

/// Returns the first type all of whose codes hold.
pub(crate) fn type_of<'a>(columns: &[u8], types: &'a [TypePlan]) -> Option<&'a TypePlan> {
    for kind in types {
        if fits(columns, kind.codes.as_slice()) {
            return Some(kind);
        }
    }
    None
}

impl Line {
    pub fn new(alloc: Global, width: usize) -> Result<Self, AllocError> {
        Ok(Line {
            columns: vec![in alloc; 0; width]?,
            room: vec![in alloc; 0; width]?,
            shown: Sample::new(b""),
        })
    }

    /// Begins a new line.
    fn clear(&mut self) {
        self.columns.as_mut_slice().fill(b' ');
    }

    /// Puts the room's character into a column. Returns the character that is there, if it is another one.
    fn put(&mut self, column: usize) -> Option<Clash> {
        let room = self.room.as_slice();
        let columns = self.columns.as_mut_slice();
        if column >= columns.len() || column >= room.len() {
            return None;
        }
        let (stands, wants) = (columns[column], room[column]);
        columns[column] = wants;
        (stands != wants).then_some(Clash { stands, wants })
    }

    /// Puts the codes of a type where no cell is.
    fn put_codes(&mut self, codes: &[Code]) {
        let columns = self.columns.as_mut_slice();
        for code in codes {
            if code.place < columns.len() {
                columns[code.place] = code.character;
            }
        }
    }

    /// Writes the line with its line feed, without blanks at its end.
    fn write(&self, out: &mut Vec<u8>) -> Result<(), AllocError> {
        out.clear();
        out.extend_from_slice(trimmed(self.columns.as_slice()))?;
        out.push(b'\n')?;
        Ok(())
    }
}

/// The character in a column, and the other one that a cell puts there.
#[derive(Clone, Copy)]
struct Clash {
    stands: u8,
    wants: u8,
}

/// The rows of a file: their columns, and how their cells are written.
#[derive(Clone, Copy)]
pub(crate) struct RowMaker<'a> {
    pub plan: &'a Plan,
    pub format: Format,
}

/// Returns the fault of a cell with this text, which is shown.
#[inline(never)]
fn cell_fault(cell: &Cell, text: &[u8], fault: CellFault, line: &mut Line) -> Fault {
    line.shown = match cell.field.kind {
        CellKind::Text => Sample::new(trimmed(text)),
        _ => Sample::new(text),
    };
    let label = Label::Named(cell.field.name);
    Fault::cell(cell.column, label, TextFault::Columns(fault))
}

/// Returns the name of the last of these cells that fills a column.
fn last_name(cells: &[Cell], column: usize) -> Option<FieldName> {
    let mut name = None;
    for cell in cells {
        if cell.field.covers(column) {
            name = Some(cell.field.name);
        }
    }
    name
}

/// Puts the room's characters into the columns of a cell. Those that earlier cells filled must be the same.
#[inline(never)]
fn put_shared(
    earlier: &[Cell],
    before: &[Cell],
    cell: &Cell,
    line: &mut Line,
) -> Result<(), Fault> {
    let second = cell.field.name;
    for column in cell.field.start..cell.field.end() {
        let first = last_name(before, column).or(last_name(earlier, column));
        if let (Some(first), Some(clash)) = (first, line.put(column)) {
            return Err(Fault::Shared {
                column: column.saturating_add(1),
                first,
                stands: clash.stands,
                second,
                wants: clash.wants,
            });
        }
    }
    Ok(())
}

impl RowMaker<'_> {
    /// Writes the characters of a cell into its columns of these.
    #[inline(always)]
    fn write_cell(&self, cell: &Cell, text: &[u8], columns: &mut [u8]) -> Result<(), CellFault> {
        let (start, end) = (cell.field.start, cell.field.end());
        let Some(columns) = columns.get_mut(start..end) else {
            return Ok(());
        };
        if columns.is_empty() {
            return Ok(());
        }
        write_cell(self.format.number, cell.field.kind, text, columns)
    }

    /// Puts cells into the line, after others.
    fn put_cells(
        &self,
        earlier: &[Cell],
        cells: &[Cell],
        texts: RowTexts<'_>,
        line: &mut Line,
    ) -> Result<(), Fault> {
        for (place, cell) in cells.iter().enumerate() {
            let text = texts.text(cell.column);
            let written = if cell.is_shared {
                self.write_cell(cell, text, line.room.as_mut_slice())
            } else {
                self.write_cell(cell, text, line.columns.as_mut_slice())
            };
            if let Err(fault) = written {
                return Err(cell_fault(cell, text, fault, line));
            }
            if cell.is_shared {
                put_shared(earlier, &cells[..place], cell, line)?;
            }
        }
        Ok(())
    }

    /// Checks that the cells of fields that a type hasn't are empty.
    fn check_other_cells(
        &self,
        kind: &TypePlan,
        texts: RowTexts<'_>,
        line: &mut Line,
    ) -> Result<(), Fault> {
        for (column, field) in kind.by_column.as_slice().iter().enumerate() {
            if field.is_none() && !is_blank(texts.text(column)) {
                let label = self.plan.labels.label(column);
                let fault = TextFault::OtherType { card: kind.card };
                line.shown = Sample::new(texts.text(column));
                return Err(Fault::cell(column, label, fault));
            }
        }
        Ok(())
    }

    /// Returns the type of the row: the only one, or the first one all of whose codes hold.
    fn type_of_row(&self, line: &Line) -> Option<&TypePlan> {
        match self.plan.types.as_slice() {
            [only] => Some(only),
            types => type_of(line.columns.as_slice(), types),
        }
    }

    /// Replaces `out` by the line of a row.
    pub fn write_line(
        &self,
        texts: RowTexts<'_>,
        line: &mut Line,
        out: &mut Vec<u8>,
    ) -> Result<(), Fault> {
        line.clear();
        let common = self.plan.common.as_slice();
        if !common.is_empty() {
            self.put_cells(&[], common, texts, line)?;
        }
        let Some(kind) = self.type_of_row(line) else {
            return Err(Fault::NoType);
        };
        self.check_other_cells(kind, texts, line)?;
        self.put_cells(common, kind.cells.as_slice(), texts, line)?;
        line.put_codes(kind.free_codes.as_slice());
        match type_of(line.columns.as_slice(), self.plan.types.as_slice()) {
            Some(found) if found.card == kind.card => {}
            _ => return Err(Fault::NoType),
        }
        line.write(out)?;
        Ok(())
    }
}
