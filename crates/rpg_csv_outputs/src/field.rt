//! What an O card puts into a line.

use rpg_card_index::IndexedCards;
use rpg_csv_columns::{Constant, Field, FieldName, Sample};
use rpg_csv_values::{CellKind, Printed, Printing};
use rpg_edit_marks::Fill;
use rpg_faults_operands::{entry_form, fill_in, width};
use rpg_program::form::{FieldForm, Kind};
use rpg_sheet_specs::{EditCode, Entry, EntryIndex, OutputField};

/// What a card puts into a line: a constant, or a field.
#[derive(Clone, Copy)]
pub(crate) enum Put {
    Constant(Constant),
    Field(Field),
}

/// Returns the name of a column: an entry of an array has its index in parentheses.
fn name_of(entry: &Entry) -> FieldName {
    let name = FieldName::new(entry.name.as_slice());
    match &entry.index {
        None => name,
        Some(EntryIndex::Literal(index)) => name.entry(*index),
        Some(EntryIndex::Name(index)) => name.entry_of(index.as_slice()),
    }
}

/// Whether a field is the page number itself, which has edit code Z unless the card has another.
fn is_page(entry: &Entry) -> bool {
    entry.index.is_none() && entry.name.as_slice() == b"PAGE".as_slice()
}

/// Returns how the number of a card is written.
fn printing_of(entry: &Entry, field: &OutputField) -> Printing {
    match (field.code, &field.text) {
        (Some(EditCode::Y), _) | (None, Some(_)) => Printing::Text,
        (Some(code), text) => Printing::Code {
            code,
            fill: fill_in(text).unwrap_or(Fill::Blank),
        },
        (None, None) if is_page(entry) => Printing::Code {
            code: EditCode::Z,
            fill: Fill::Blank,
        },
        (None, None) => Printing::Digits,
    }
}

/// Whether a card has conditions.
fn is_conditional(field: &OutputField) -> bool {
    let conditions = field.conditions;
    conditions.first.is_some() || conditions.second.is_some() || conditions.third.is_some()
}

/// Returns what a field has, and how a job writes it if it is a number.
fn content_of(form: FieldForm, entry: &Entry, field: &OutputField) -> (CellKind, Option<Printed>) {
    match form.kind {
        Kind::Text => (CellKind::Text, None),
        Kind::Number => {
            let printed = Printed {
                printing: printing_of(entry, field),
                digits: form.length.min(15) as u8,
                decimals: form.decimals,
                is_conditional: is_conditional(field),
            };
            (CellKind::Number(form.decimals), Some(printed))
        }
    }
}

/// Returns what a card puts into a line, if its name has a form.
pub(crate) fn put_by(source: &IndexedCards, card: u16, field: &OutputField) -> Option<Put> {
    let width = width(source, field)?;
    let start = usize::from(field.end).saturating_sub(width);
    let Some(entry) = &field.operand else {
        return Some(Put::Constant(Constant {
            card,
            start,
            text: Sample::new(field.text.as_ref()?.as_slice()),
        }));
    };
    let (kind, printed) = content_of(entry_form(source, entry)?, entry, field);
    Some(Put::Field(Field {
        name: name_of(entry),
        card,
        start,
        width,
        kind,
        printed,
    }))
}

/// Whether the constant of a card is in every line.
pub(crate) fn is_certain(field: &OutputField) -> bool {
    !is_conditional(field)
}
