//! What the record of a halt or the lines that may have caused it have: why a record fits no type, whether it looks like comma-separated
//! values, is too long or has a byte that isn't a character, and the fields of lines with an index field.

use crate::held::HaltedRecord;
use crate::source::HaltedSource;
use rpg_cli_diagnostics::{Columns, Draft};
use rpg_cli_text::TextWriter;
use rpg_program::input::RecordCode;
use rpg_program::operation::Index;
use rpg_program::rows::{Line, RecordType, Rows};
use rpg_text::is_blank;

const MOST: usize = 3;

const COMMAS: &str =
    "the record has commas: fields are columns here; rpg2 records --csv makes columns of them";

/// Returns the character of a record that a code tests.
fn tested_in<'a>(text: &'a [u8], code: &RecordCode) -> &'a [u8] {
    let column = usize::from(code.position);
    text.get(column.saturating_sub(1)..column).unwrap_or(&[])
}

/// Returns the first code that a record doesn't have, and its place among those of its type.
fn missing<'a>(codes: &'a [RecordCode], text: &[u8]) -> Option<(usize, &'a RecordCode)> {
    for (at, code) in codes.iter().enumerate() {
        let is_there = tested_in(text, code) == [code.character].as_slice();
        if is_there == code.is_negated {
            return Some((at, code));
        }
    }
    None
}

/// Returns the columns of a card that have one of its three codes.
fn columns_of(at: usize) -> Option<Columns> {
    let first = at.saturating_mul(7).saturating_add(21);
    let last = first.saturating_add(6);
    (at < 3).then_some(Columns { first, last })
}

/// Adds which code of a type a record doesn't have, at its card if that is known.
fn add_type<'a>(
    draft: &mut Draft<'a>,
    row: usize,
    record_type: &RecordType,
    text: &[u8],
    source: Option<HaltedSource<'a>>,
) {
    let Some((at, code)) = missing(&record_type.codes, text) else {
        return;
    };
    let character = [code.character];
    let mut remark = draft.text();
    let card = source.and_then(|source| source.rows.type_card(row));
    if let (Some(source), Some(card)) = (source, card) {
        let found = tested_in(text, code);
        remark.fill_two("column {} is \"{}\"", code.position, found);
        remark.write_str(", and this card wants ");
        let wanted = if code.is_negated { "another" } else { "\"{}\"" };
        remark.fill_one(wanted, character.as_slice());
        source.add(draft, card, columns_of(at), remark);
    } else {
        let wants = if code.is_negated {
            "type {} wants no \"{}\" in column {}"
        } else {
            "type {} wants \"{}\" in column {}"
        };
        remark.fill_three(wants, row, character.as_slice(), code.position);
        draft.remark(remark);
    }
}

/// Adds for the types of a record's file which code it doesn't have.
pub(crate) fn add_types<'a>(
    draft: &mut Draft<'a>,
    rows: &Rows,
    record: &HaltedRecord<'_>,
    source: Option<HaltedSource<'a>>,
) {
    let mut count = 0usize;
    for (row, record_type) in rows.types.iter().enumerate() {
        if record_type.file == record.file {
            if count < MOST {
                add_type(draft, row, record_type, record.filled(), source);
            }
            count = count.saturating_add(1);
        }
    }
    if count > MOST {
        let mut remark = draft.text();
        let more = count.saturating_sub(MOST);
        let types = if more == 1 { "type" } else { "types" };
        remark.fill_two("and {} {} more", more, types);
        draft.remark(remark);
    }
}

/// Adds that a record looks like comma-separated values, if it has at least half as many commas as its type has fields, and no code is a
/// comma.
pub(crate) fn add_commas(draft: &mut Draft<'_>, rows: &Rows, record: &HaltedRecord<'_>) {
    let Some(record_type) = record.row.and_then(|row| rows.types.get(row)) else {
        return;
    };
    let commas = record.text.iter().filter(|byte| **byte == b',').count();
    let is_likely = commas > 0 && commas.saturating_mul(2) >= record_type.inputs.len();
    if is_likely && !record_type.codes.iter().any(|code| code.character == b',') {
        let mut remark = draft.text();
        remark.write_str(COMMAS);
        draft.remark(remark);
    }
}

const MOST_COLUMNS: usize = 9999;

const UNENDED: &str =
    "more than 9,999 columns without a line feed: `fold -b -w {}` cuts records of one length into lines";

const BLANK_END: &str =
    "the record has {} columns, of which {}-{} are blank, and records of this file have {}";

const TOO_LONG: &str = "the record has {} columns, and records of this file have {}";

/// Writes that a record with this text is longer than its file's records, and how to fix it.
pub(crate) fn write_too_long(out: &mut TextWriter, text: &[u8], length: usize) {
    let count = text.len();
    if count > MOST_COLUMNS {
        out.fill(UNENDED, &[length.into()]);
    } else if is_blank(text.get(length..).unwrap_or(&[])) {
        let first = length.saturating_add(1).into();
        out.fill(
            BLANK_END,
            &[count.into(), first, count.into(), length.into()],
        );
    } else {
        out.fill(TOO_LONG, &[count.into(), length.into()]);
    }
}

/// Writes the indexed fields of a line. Returns whether none is written yet.
fn write_line(out: &mut TextWriter, line: &Line, number: usize, is_first: bool) -> bool {
    let mut is_first = is_first;
    for (at, field) in line.fields.iter().enumerate() {
        if let Index::Field(index) = field.operand.index {
            let before = if is_first { ": " } else { ", or " };
            out.fill(
                "{}field {} of output line {}, with the number in field {}",
                &[before.into(), at.into(), number.into(), index.into()],
            );
            is_first = false;
        }
    }
    is_first
}

/// Writes which fields of output lines can have a bad index: a single one must be the cause.
pub(crate) fn write_indexed_fields(out: &mut TextWriter, rows: &Rows) {
    let mut is_first = true;
    for (number, line) in rows.lines.iter().enumerate() {
        is_first = write_line(out, line, number, is_first);
    }
}
