//! The contents of factors, results and output fields.

use crate::source_rows::SourceRows;
use crate::words::{name_text, write_value};
use rpg_cli_text::TextWriter;
use rpg_program::form::is_constant;
use rpg_program::forms::form_at;
use rpg_program::operation::{Index, Operand};
use rpg_program::rows::Rows;
use rpg_program::value::Value;

pub fn constant_of(rows: &Rows, field: u16) -> Option<(&Value, u8)> {
    let form = form_at(rows, field)?;
    if !is_constant(form.class) {
        return None;
    }
    let values = rows.values.get(usize::from(field).checked_sub(1)?)?;
    Some((values.as_slice().first()?, form.decimals))
}

/// Writes the name of a field, or its number if it has none.
fn write_name(out: &mut TextWriter, source: &SourceRows, field: u16) {
    match source.field_name(field) {
        Some(name) => out.write_str(name_text(name)),
        None => out.fill_one("#{}", field),
    }
}

/// Writes a field with its index as on cards: by name, or for a constant by its value.
pub fn write_card_operand(
    out: &mut TextWriter,
    rows: &Rows,
    source: &SourceRows,
    operand: Operand<u16>,
) {
    match constant_of(rows, operand.field) {
        Some((value, decimals)) => write_value(out, value, decimals),
        None => write_name(out, source, operand.field),
    }
    match operand.index {
        Index::Blank => {}
        Index::Literal(entry) => out.fill_one(",{}", entry),
        Index::Field(field) => {
            out.write_char(',');
            write_name(out, source, field);
        }
    }
}
