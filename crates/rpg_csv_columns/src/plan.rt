//! Which columns of a line the cells of a row fill.

use crate::fault::Fault;
use crate::field::{Constant, Field, FieldType, FileFields, field_named};
use crate::header::Labels;
use rpg_records::Code;
use std::alloc::{AllocError, Global};

/// A field or the position of a code, and the column of the row that it is in, from 0.
#[derive(Clone, Copy)]
pub struct Cell {
    pub column: usize,
    pub field: Field,
    /// Whether an earlier cell fills a column of its field.
    pub is_shared: bool,
}

/// A record type: its card, its codes, and the cells of its fields in the order of their cards.
#[derive(Drop)]
pub struct TypePlan {
    pub card: u16,
    pub codes: Vec<Code>,
    /// The codes that the record has where no cell is.
    pub free_codes: Vec<Code>,
    pub cells: Vec<Cell>,
    /// For each column of the row its field, if the type has it.
    pub by_column: Vec<Option<Field>>,
    /// Of a line that a job writes, its constants and the columns that are blank.
    pub constants: Vec<Constant>,
    pub blanks: Vec<usize>,
}

/// What the rows and the lines of a file are to each other.
#[derive(Drop)]
pub struct Plan {
    /// The most columns of a line.
    pub width: usize,
    pub labels: Labels,
    /// The cells that tell the type: positions of codes, and fields that have the same place in all types.
    pub common: Vec<Cell>,
    pub types: Vec<TypePlan>,
}

/// Returns the fields that have columns.
fn placed(alloc: Global, fields: &[Field], labels: &Labels) -> Result<Vec<Cell>, AllocError> {
    let mut cells = Vec::new(alloc);
    for field in fields {
        if let Some(column) = labels.column_of(field.name) {
            cells.push(Cell {
                column,
                field: *field,
                is_shared: false,
            })?;
        }
    }
    Ok(cells)
}

/// Whether a cell fills a column of the line.
fn any_covers(cells: &[Cell], column: usize) -> bool {
    cells.iter().any(|cell| cell.field.covers(column))
}

/// Whether cells fill all columns of a field.
fn is_filled(field: &Field, cells: &[Cell], codes: &[Cell]) -> bool {
    for column in field.start..field.end() {
        if !any_covers(cells, column) && !any_covers(codes, column) {
            return false;
        }
    }
    true
}

/// Returns the field of each column.
fn by_column(
    alloc: Global,
    kind: &FieldType,
    codes: &[Field],
    labels: &Labels,
) -> Result<Vec<Option<Field>>, AllocError> {
    let mut columns = Vec::new(alloc);
    for label in labels.as_slice() {
        let name = label.name();
        let field = field_named(codes, name).or(field_named(kind.fields.as_slice(), name));
        columns.push(field.copied())?;
    }
    Ok(columns)
}

/// Returns the plan of a type.
///
/// # Errors
///
/// A field has no column, and other columns don't fill its place.
fn type_plan(
    alloc: Global,
    fields: &FileFields,
    kind: &FieldType,
    labels: &Labels,
    codes: &[Cell],
) -> Result<TypePlan, Fault> {
    let cells = placed(alloc, kind.fields.as_slice(), labels)?;
    for field in kind.fields.as_slice() {
        if !is_filled(field, cells.as_slice(), codes) {
            let (name, card) = (field.name, field.card);
            return Err(Fault::NoColumn { name, card });
        }
    }
    Ok(TypePlan {
        card: kind.card,
        codes: Vec::from_slice(alloc, kind.codes.as_slice())?,
        free_codes: Vec::new(alloc),
        cells,
        by_column: by_column(alloc, kind, fields.codes.as_slice(), labels)?,
        constants: Vec::from_slice(alloc, kind.constants.as_slice())?,
        blanks: Vec::from_slice(alloc, kind.blanks.as_slice())?,
    })
}

/// Whether all types have a field like this one.
fn is_common(field: &Field, types: &[FieldType]) -> bool {
    for kind in types {
        match field_named(kind.fields.as_slice(), field.name) {
            Some(other) if field.is_like(other) => {}
            _ => return false,
        }
    }
    true
}

/// Adds the cells of fields that all types have, and that cover a code. Returns whether there is one.
fn add_common(
    common: &mut Vec<Cell>,
    first: &[Cell],
    types: &[FieldType],
    code: &Field,
) -> Result<bool, AllocError> {
    let mut is_there = false;
    for cell in first {
        if cell.field.covers(code.start) && is_common(&cell.field, types) {
            common.push(*cell)?;
            is_there = true;
        }
    }
    Ok(is_there)
}

/// Returns the card of the first type with a code at this place.
fn card_with_code(types: &[FieldType], place: usize) -> u16 {
    for kind in types {
        if kind.codes.as_slice().iter().any(|code| code.place == place) {
            return kind.card;
        }
    }
    0
}

/// Adds the cells of fields that tell the type.
///
/// # Errors
///
/// A position of a code has neither a column nor such a field.
fn add_all_common(
    common: &mut Vec<Cell>,
    fields: &FileFields,
    labels: &Labels,
    first: &[Cell],
) -> Result<(), Fault> {
    let types = fields.types.as_slice();
    for code in fields.codes.as_slice() {
        if labels.column_of(code.name).is_none() && !add_common(common, first, types, code)? {
            return Err(Fault::NoCode {
                name: code.name,
                card: card_with_code(types, code.start),
                types: types.len(),
            });
        }
    }
    Ok(())
}

/// Whether a cell fills a column of one of these.
fn shares(cell: &Cell, earlier: &[Cell]) -> bool {
    let (start, end) = (cell.field.start, cell.field.end());
    earlier.iter().any(|other| start < other.field.end() && other.field.start < end)
}

/// Notes which cells fill a column of an earlier one.
fn mark_shared(earlier: &[Cell], cells: &mut [Cell]) {
    for place in 0..cells.len() {
        let cell = cells[place];
        let is_shared = shares(&cell, earlier) || shares(&cell, &cells[..place]);
        cells[place].is_shared = is_shared;
    }
}

/// Adds the codes that aren't negated and that no cell fills.
fn add_free_codes(kind: &mut TypePlan, common: &[Cell]) -> Result<(), AllocError> {
    for code in kind.codes.as_slice() {
        let is_filled = any_covers(kind.cells.as_slice(), code.place)
            || any_covers(common, code.place);
        if !code.is_negated && !is_filled {
            kind.free_codes.push(*code)?;
        }
    }
    Ok(())
}

impl Plan {
    /// Returns the plan of a file's rows, by their labels.
    pub fn new(alloc: Global, fields: &FileFields, labels: Labels) -> Result<Self, Fault> {
        let mut common = placed(alloc, fields.codes.as_slice(), &labels)?;
        let mut types = Vec::new(alloc);
        for kind in fields.types.as_slice() {
            types.push(type_plan(alloc, fields, kind, &labels, common.as_slice())?)?;
        }
        if let [first, _, ..] = types.as_slice() {
            add_all_common(&mut common, fields, &labels, first.cells.as_slice())?;
        }
        mark_shared(&[], common.as_mut_slice());
        for kind in types.as_mut_slice() {
            mark_shared(common.as_slice(), kind.cells.as_mut_slice());
            add_free_codes(kind, common.as_slice())?;
        }
        Ok(Plan {
            width: fields.width,
            labels,
            common,
            types,
        })
    }
}
