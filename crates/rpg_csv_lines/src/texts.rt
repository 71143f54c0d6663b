//! The texts of a row's cells.

use crate::input::Rows;
use rpg_csv_columns::{Fault, FileFields, Label, Labels, Sample, TextFault};
use rpg_csv_rows::{CellPlace, add_undoubled};
use rpg_csv_values::NumberFormat;
use rpg_text::{has_only_characters, is_blank, is_character};
use std::alloc::{AllocError, Global};

/// How cells are written.
#[derive(Clone, Copy)]
pub struct Format {
    pub delimiter: u8,
    pub number: NumberFormat,
    /// Replaces each character that rpg2 doesn't have.
    pub replacement: Option<u8>,
}

/// What the columns are named by.
#[derive(Clone, Copy)]
pub enum Header<'a> {
    /// The first row.
    FirstRow,
    /// The fields, in the order of their cards.
    Fields,
    /// Names with commas between them. The first row may be passed over.
    Given { names: &'a str, passes_row: bool },
}

/// The fields of a file, and how its rows are written.
#[derive(Clone, Copy)]
pub struct Setting<'a> {
    pub fields: &'a FileFields,
    pub format: Format,
    pub header: Header<'a>,
}

/// The texts of a row's cells: the cells themselves, if all are plain. Otherwise they were copied, one after the other.
#[derive(Drop)]
pub(crate) struct Texts {
    cells: Vec<CellPlace>,
    are_plain: bool,
    bytes: Vec<u8>,
    /// Where each of the copied texts ends.
    ends: Vec<usize>,
    /// Room for the content of a cell.
    content: Vec<u8>,
    /// The text of the cell that is bad.
    pub shown: Sample,
}

/// Appends a text with its foreign characters replaced. Returns the first one if nothing replaces it.
fn add_replaced(
    text: &str,
    replacement: Option<u8>,
    out: &mut Vec<u8>,
) -> Result<Option<char>, AllocError> {
    for character in text.chars() {
        let byte = u8::try_from(u32::from(character)).unwrap_or(0);
        if is_character(byte) {
            out.push(byte)?;
        } else if let Some(stand_in) = replacement {
            out.push(stand_in)?;
        } else {
            return Ok(Some(character));
        }
    }
    Ok(None)
}

impl Texts {
    pub fn new(alloc: Global) -> Self {
        Texts {
            cells: Vec::new(alloc),
            are_plain: false,
            bytes: Vec::new(alloc),
            ends: Vec::new(alloc),
            content: Vec::new(alloc),
            shown: Sample::new(b""),
        }
    }

    /// Returns the text of a column, from 0.
    pub fn text<'a>(&'a self, row: &'a [u8], column: usize) -> &'a [u8] {
        if !self.are_plain {
            return self.copied(column);
        }
        match self.cells.as_slice().get(column) {
            Some(cell) => row.get(cell.start..cell.end).unwrap_or(&[]),
            None => &[],
        }
    }

    /// Returns the copied text of a column.
    fn copied(&self, column: usize) -> &[u8] {
        let ends = self.ends.as_slice();
        let start = match column.checked_sub(1) {
            Some(before) => ends.get(before).copied().unwrap_or(0),
            None => 0,
        };
        let end = ends.get(column).copied().unwrap_or(start);
        self.bytes.as_slice().get(start..end).unwrap_or(&[])
    }

    /// Returns how many columns were taken.
    pub fn len(&self) -> usize {
        self.cells.len()
    }

    /// Replaces the content by that of a cell.
    fn read_content(&mut self, row: &[u8], cell: CellPlace) -> Result<(), AllocError> {
        let text = row.get(cell.start..cell.end).unwrap_or(&[]);
        self.content.clear();
        if cell.has_marks {
            add_undoubled(text, &mut self.content)
        } else {
            self.content.extend_from_slice(text)
        }
    }

    /// Copies the content of the cell in a column with this label, in characters of rpg2.
    fn copy_characters(
        &mut self,
        format: Format,
        column: usize,
        label: Label,
    ) -> Result<(), Fault> {
        let content = self.content.as_slice();
        if has_only_characters(content) {
            self.bytes.extend_from_slice(content)?;
            return Ok(());
        }
        match str::from_utf8(content) {
            Ok(text) => match add_replaced(text, format.replacement, &mut self.bytes)? {
                Some(character) => {
                    self.shown = Sample::new(content);
                    Err(Fault::cell(column, label, TextFault::Foreign { character }))
                }
                None => Ok(()),
            },
            Err(error) => {
                let byte = content.get(error.valid_up_to()).copied().unwrap_or(0);
                self.shown = Sample::new(content);
                Err(Fault::cell(column, label, TextFault::NotUtf8 { byte }))
            }
        }
    }

    /// Copies the content of a cell, by what its column is: without a label as it is, and nothing of a column without a name.
    fn copy_content(
        &mut self,
        format: Format,
        column: usize,
        label: Option<Label>,
    ) -> Result<(), Fault> {
        match label {
            Some(Label::LeftOut) => Ok(()),
            Some(Label::Unnamed) => {
                let content = self.content.as_slice();
                if is_blank(content) {
                    return Ok(());
                }
                self.shown = Sample::new(content);
                Err(Fault::cell(column, Label::Unnamed, TextFault::Unnamed))
            }
            Some(label) => self.copy_characters(format, column, label),
            None => Ok(self.bytes.extend_from_slice(self.content.as_slice())?),
        }
    }

    /// Copies the texts of a row's cells, whose places are there, by their labels; without labels as they are.
    #[inline(never)]
    fn copy_cells(&mut self, format: Format, labels: &[Label], row: &[u8]) -> Result<(), Fault> {
        self.bytes.clear();
        self.ends.clear();
        for column in 0..self.cells.len() {
            let Some(cell) = self.cells.as_slice().get(column).copied() else {
                break;
            };
            self.read_content(row, cell)?;
            self.copy_content(format, column, labels.get(column).copied())?;
            self.ends.push(self.bytes.len())?;
        }
        Ok(())
    }

    /// Whether the cells have only characters, also where the delimiter is none.
    fn have_only_characters(&self, row: &[u8]) -> bool {
        for cell in self.cells.as_slice() {
            if !has_only_characters(row.get(cell.start..cell.end).unwrap_or(&[])) {
                return false;
            }
        }
        true
    }

    /// Whether a cell has quotation marks in it.
    fn has_marks(&self) -> bool {
        self.cells.as_slice().iter().any(|cell| cell.has_marks)
    }

    /// Takes the texts of a row's cells, by their labels; without labels as they are. Returns the row.
    ///
    /// # Errors
    ///
    /// A bad cell; with labels also another number of cells.
    pub fn take_row<'a>(
        &mut self,
        format: Format,
        labels: Option<&Labels>,
        rows: &'a Rows,
    ) -> Result<&'a [u8], Fault> {
        let row = rows.split(&mut self.cells)?;
        self.are_plain = false;
        let Some(labels) = labels else {
            self.copy_cells(format, &[], row)?;
            return Ok(row);
        };
        let (cells, columns) = (self.cells.len(), labels.as_slice().len());
        if cells != columns {
            return Err(Fault::Cells { cells, columns });
        }
        let are_named = labels.are_named() && !self.has_marks();
        self.are_plain = are_named && (has_only_characters(row) || self.have_only_characters(row));
        if !self.are_plain {
            self.copy_cells(format, labels.as_slice(), row)?;
        }
        Ok(row)
    }
}
