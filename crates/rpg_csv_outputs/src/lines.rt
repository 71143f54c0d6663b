//! The lines of an output file.

use crate::field::{Put, is_certain, put_by};
use rpg_card_index::IndexedCards;
use rpg_cards::SpecCard;
use rpg_csv_columns::{
    Constant, Fault, Field, FieldName, FieldType, FileFields, Part, Refusal, code_fields,
};
use rpg_records::Code;
use rpg_sheet_specs::{OutputField, OutputRecord};
use std::alloc::{AllocError, Global};

/// The columns of a card, from 0.
#[derive(Clone, Copy)]
struct Span {
    card: u16,
    start: usize,
    end: usize,
}

impl Span {
    fn of_field(field: &Field) -> Self {
        Span {
            card: field.card,
            start: field.start,
            end: field.end(),
        }
    }

    fn of_constant(constant: &Constant) -> Self {
        Span {
            card: constant.card,
            start: constant.start,
            end: constant.end(),
        }
    }

    fn of(put: &Put) -> Self {
        match put {
            Put::Constant(constant) => Span::of_constant(constant),
            Put::Field(field) => Span::of_field(field),
        }
    }

    fn covers(&self, column: usize) -> bool {
        self.start <= column && column < self.end
    }

    /// Returns the fault of a later card that fills a column of this one.
    fn overlapped(&self, later: Span) -> Option<Fault> {
        let (start, end) = (self.start.max(later.start), self.end.min(later.end));
        if start >= end {
            return None;
        }
        Some(Fault::Overlapping {
            first: start.saturating_add(1),
            last: end,
            one: self.card,
            other: later.card,
        })
    }
}

/// Returns the fault of a card that fills a column of an earlier one of its line.
fn overlap(line: &FieldType, span: Span) -> Option<Fault> {
    let by_constant = line
        .constants
        .as_slice()
        .iter()
        .find_map(|constant| Span::of_constant(constant).overlapped(span));
    by_constant.or(
        line.fields
            .as_slice()
            .iter()
            .find_map(|field| Span::of_field(field).overlapped(span)),
    )
}

/// Whether a card of the line fills a column.
fn is_filled(line: &FieldType, column: usize) -> bool {
    let mut constants = line.constants.as_slice().iter();
    let mut fields = line.fields.as_slice().iter();
    constants.any(|constant| Span::of_constant(constant).covers(column))
        || fields.any(|field| field.covers(column))
}

/// Adds the characters of a constant.
fn add_codes(codes: &mut Vec<Code>, constant: &Constant) -> Result<(), AllocError> {
    for (place, character) in constant.text.as_slice().iter().enumerate() {
        codes.push(Code {
            place: constant.start.saturating_add(place),
            is_negated: false,
            character: *character,
        })?;
    }
    Ok(())
}

/// Adds what a card puts into a line.
fn add_put(line: &mut FieldType, put: &Put, is_certain: bool) -> Result<(), Fault> {
    if let Some(fault) = overlap(line, Span::of(put)) {
        return Err(fault);
    }
    match put {
        Put::Field(field) if line.has(field.name) => Err(Fault::TwiceInLine {
            name: field.name,
            card: line.card,
        }),
        Put::Field(field) => Ok(line.fields.push(*field)?),
        Put::Constant(constant) => {
            if is_certain {
                add_codes(&mut line.codes, constant)?;
            }
            Ok(line.constants.push(*constant)?)
        }
    }
}

/// Adds the columns that no card of a line fills.
fn add_blanks(line: &mut FieldType, length: usize) -> Result<(), AllocError> {
    for column in 0..length {
        if !is_filled(line, column) {
            line.blanks.push(column)?;
        }
    }
    Ok(())
}

/// The lines of a file, as far as their cards were read.
#[derive(Drop)]
struct Lines {
    alloc: Global,
    lines: Vec<FieldType>,
    /// Whether the last line that was begun is one of the file.
    is_meant: bool,
}

impl Lines {
    /// Begins a line, if it is one of the file with this name.
    fn begin(&mut self, card: u16, record: &OutputRecord, name: &[u8]) -> Result<(), AllocError> {
        if let Some(file) = &record.file {
            self.is_meant = file.as_slice() == name;
        }
        if self.is_meant {
            self.lines.push(FieldType::new(self.alloc, card, 0))?;
        }
        Ok(())
    }

    /// Adds what a card puts into the last line.
    fn add(&mut self, source: &IndexedCards, card: u16, field: &OutputField) -> Result<(), Fault> {
        let count = self.lines.len();
        if !self.is_meant || count == 0 {
            return Ok(());
        }
        match put_by(source, card, field) {
            Some(put) => add_put(&mut self.lines[count - 1], &put, is_certain(field)),
            None => Ok(()),
        }
    }

    /// Adds a card.
    fn add_card(
        &mut self,
        source: &IndexedCards,
        card: &SpecCard,
        name: &[u8],
    ) -> Result<(), Fault> {
        match (card.line(), card.output_field()) {
            (Some(record), _) => Ok(self.begin(card.number, record, name)?),
            (None, Some(field)) => self.add(source, card.number, field),
            (None, None) => Ok(()),
        }
    }
}

/// Returns the lines of the file with this name.
fn lines_of(alloc: Global, source: &IndexedCards, name: &[u8]) -> Result<Vec<FieldType>, Refusal> {
    let mut lines = Lines {
        alloc,
        lines: Vec::new(alloc),
        is_meant: false,
    };
    for card in source.as_slice() {
        if let Err(fault) = lines.add_card(source, card, name) {
            return Err(Refusal::new(Part::Card(card.number), fault));
        }
    }
    Ok(lines.lines)
}

/// Returns the character of a constant at a place.
fn character_at(codes: &[Code], place: usize) -> Option<u8> {
    for code in codes {
        if code.place == place {
            return Some(code.character);
        }
    }
    None
}

/// Returns the first column in which the constants of two lines differ.
fn first_difference(line: &FieldType, other: &FieldType) -> Option<usize> {
    let mut first: Option<usize> = None;
    for code in line.codes.as_slice() {
        match character_at(other.codes.as_slice(), code.place) {
            Some(character) if character != code.character => {
                first = Some(first.unwrap_or(code.place).min(code.place));
            }
            _ => {}
        }
    }
    first
}

/// Adds the columns that tell a line from the earlier ones.
fn add_differences(
    places: &mut Vec<usize>,
    line: &FieldType,
    earlier: &[FieldType],
) -> Result<(), Refusal> {
    for other in earlier {
        match first_difference(line, other) {
            Some(place) if places.as_slice().contains(&place) => {}
            Some(place) => places.push(place)?,
            None => {
                let fault = Fault::Alike { card: other.card };
                return Err(Refusal::new(Part::Card(line.card), fault));
            }
        }
    }
    Ok(())
}

/// Returns the columns that tell one line from another.
fn differences(alloc: Global, lines: &[FieldType]) -> Result<Vec<Field>, Refusal> {
    let mut places = Vec::new(alloc);
    for (count, line) in lines.iter().enumerate() {
        add_differences(&mut places, line, &lines[..count])?;
    }
    Ok(code_fields(alloc, places)?)
}

/// Returns the fields of the lines that a job writes to the file with this name, whose records have this length. The cards have no fault.
///
/// # Errors
///
/// A card that fills columns of an earlier one, that names a field twice, or whose line no constant tells from another.
pub fn written_fields(
    alloc: Global,
    source: &IndexedCards,
    name: &[u8],
    length: usize,
) -> Result<FileFields, Refusal> {
    let mut types = lines_of(alloc, source, name)?;
    let codes = differences(alloc, types.as_slice())?;
    for line in types.as_mut_slice() {
        add_blanks(line, length)?;
    }
    Ok(FileFields {
        name: FieldName::new(name),
        width: length,
        types,
        codes,
        is_written: true,
    })
}
