//! The diagnostics for a deck, a row or a line that is rejected.

use crate::shown::{write_cell, write_hex};
use rpg_cli_diagnostics::{Columns, Diagnostic, Draft, FileName, Place};
use rpg_cli_text::TextWriter;
use rpg_csv_columns::{
    CardColumns, Fault, FieldName, FileFields, Label, Part, Refusal, Sample, TextFault,
};
use rpg_csv_rows::{CellFault as RawFault, RowFault};
use rpg_csv_values::CellFault;
use std::alloc::{AllocError, Global};

/// Returns the diagnostic for the card of a field in a deck.
pub(crate) fn card_diagnostic(
    alloc: Global,
    file: FileName<'_>,
    number: u16,
    fault: Fault,
) -> Result<Diagnostic<'_>, AllocError> {
    let mut draft = Draft::error(alloc, file.line(number.into()));
    let out = &mut draft.message;
    match fault {
        Fault::Twice { name, card } => out.fill_two(
            "{} occurs twice in the type of card {}: a row has one value for it",
            name.as_slice(),
            card,
        ),
        Fault::Parts {
            name,
            entries,
            columns,
        } => out.fill_three(
            "the array {} has {} entries, and {} columns aren't as many of one width",
            name.as_slice(),
            entries,
            columns,
        ),
        Fault::LongNumber => out.write_str("a number has at most 15 digits"),
        fault => write_line_card_fault(out, fault),
    }
    draft.finish()
}

/// Writes what is wrong with a card of a line that a job writes.
fn write_line_card_fault(out: &mut TextWriter, fault: Fault) {
    match fault {
        Fault::TwiceInLine { name, card } => out.fill_two(
            "{} occurs twice in the line of card {}: a row has one value for it",
            name.as_slice(),
            card,
        ),
        Fault::Alike { card } => out.fill_one(
            "no constant tells the line of this card from that of card {}: a record doesn't say which it is",
            card,
        ),
        Fault::Overlapping {
            first,
            last,
            one,
            other,
        } => {
            out.fill_two("columns {} to {} have ", first, last);
            out.fill_two(
                "what cards {} and {} put there: a record doesn't say which stands there",
                one,
                other,
            );
        }
        _ => out.write_str(
            "a packed or binary field: --to-csv reads what the job writes, by the deck of records --deck",
        ),
    }
}

/// Writes what is wrong with the names of columns.
fn write_names_fault(out: &mut TextWriter, file: FieldName, refusal: Refusal) {
    match refusal.fault {
        Fault::NoField { column } => {
            out.fill_one("column {}, ", column);
            write_cell(out, refusal.text.as_slice());
            out.fill_one(
                ", is no field of {}: --columns names the columns, with nothing for one to leave out",
                file.as_slice(),
            );
        }
        Fault::Both {
            first,
            second,
            name,
        } => out.fill_three(
            "columns {} and {} are both {}",
            first,
            second,
            name.as_slice(),
        ),
        Fault::NoColumn { name, card } => {
            out.fill_two("no column is {} (card {})", name.as_slice(), card)
        }
        Fault::NoCode { name, card, types } => out.fill_three(
            "no column is {} (card {}): the file has {} record types, and a row doesn't say which it is",
            name.as_slice(),
            card,
            types,
        ),
        Fault::Named { columns, named } => out.fill_two(
            "it has {} columns, and --columns names {}",
            columns,
            named,
        ),
        _ => {}
    }
}

/// Writes what is wrong with the raw cells of a row.
fn write_raw_fault(out: &mut TextWriter, fault: RowFault) {
    let sentence = match fault.fault {
        RawFault::StrayMark => "cell {} has a quotation mark and doesn't begin with one",
        RawFault::AfterMark => "cell {} goes on after its closing quotation mark",
        RawFault::OpenMark => "a quotation mark isn't closed",
        RawFault::LoneReturn => "a carriage return has no line feed after it",
    };
    out.fill_one(sentence, fault.cell);
}

/// Writes why a cell doesn't fit its columns, after its text.
fn write_columns_fault(out: &mut TextWriter, fault: CellFault) {
    match fault {
        CellFault::LongCode => out.write_str(": it is one character"),
        CellFault::LongText { length, width } => out.fill_two(
            ": the text has {} characters, and the field {}",
            length,
            width,
        ),
        CellFault::NoNumber => out.write_str(": no number"),
        CellFault::Decimals(decimals) => out.fill_one(": the field has {} decimals", decimals),
        CellFault::Digits(digits) => {
            out.fill_one(": the field has {} digits before the decimals", digits)
        }
        CellFault::Empty => {}
    }
}

/// Writes what is wrong with a cell.
fn write_cell_fault(out: &mut TextWriter, text: &[u8], fault: TextFault) {
    match fault {
        TextFault::Columns(CellFault::Empty) => {
            out.write_str("it is empty, and a packed or binary field has no blank")
        }
        TextFault::Columns(fault) => {
            write_cell(out, text);
            write_columns_fault(out, fault);
        }
        TextFault::Unnamed => {
            write_cell(out, text);
            out.write_str(": the column has no name in the header");
        }
        TextFault::OtherType { card } => {
            write_cell(out, text);
            out.fill_one(": the type of card {} has no such field", card);
        }
        TextFault::NotUtf8 { byte } => {
            out.write_str("byte ");
            write_hex(out, u32::from(byte), 2);
            out.write_str(": the file isn't UTF-8");
        }
        TextFault::Foreign { character } => {
            out.write_str("U+");
            write_hex(out, u32::from(character), 4);
            out.write_str(" is no character of rpg2: --replace puts another in its place");
        }
    }
}

/// Writes what is wrong with a row.
fn write_row_fault(out: &mut TextWriter, has_header: bool, refusal: Refusal) {
    match refusal.fault {
        Fault::NoRow => out.write_str("there is no row"),
        Fault::Utf16(mark) => {
            out.write_str("it begins with ");
            for byte in mark {
                write_hex(out, u32::from(byte), 2);
            }
            out.write_str(": the file is UTF-16, and UTF-8 is read");
        }
        Fault::Row(fault) => write_raw_fault(out, fault),
        Fault::LongRow => out.write_str("it has more than 1,048,576 bytes"),
        Fault::EmptyRow => out.write_str("it is empty"),
        Fault::Cells { cells, columns } => {
            let sentence = match (has_header, cells) {
                (true, 1) => "it has {} cell, and the header {}",
                (true, _) => "it has {} cells, and the header {}",
                (false, 1) => "it has {} cell, and {} columns have names",
                (false, _) => "it has {} cells, and {} columns have names",
            };
            out.fill_two(sentence, cells, columns);
        }
        Fault::NoType => out.write_str("it is of no type"),
        Fault::Shared {
            column,
            first,
            stands,
            second,
            wants,
        } => {
            let (stands, wants) = (char::from(stands), char::from(wants));
            out.fill_three(
                "in column {} {} puts \"{}\"",
                column,
                first.as_slice(),
                stands,
            );
            out.fill_two(", and {} \"{}\"", second.as_slice(), wants);
        }
        Fault::TooMany => out.write_str("a file has at most 10,000,000 records"),
        Fault::Cell { fault, .. } => write_cell_fault(out, refusal.text.as_slice(), fault),
        _ => {}
    }
}

/// Writes the columns of a card, and what they have.
fn write_columns(out: &mut TextWriter, at: CardColumns, text: Sample) {
    out.fill_three("columns {} to {} (card {}): ", at.first, at.last, at.card);
    write_cell(out, text.as_slice());
}

/// Writes what is wrong with a line that a job writes.
fn write_written_fault(out: &mut TextWriter, refusal: Refusal) {
    match refusal.fault {
        Fault::NotPrinted { at, code } => {
            write_columns(out, at, refusal.text);
            out.fill_one(": edit code {} doesn't print this", char::from(code));
        }
        Fault::NoConstant(at) => {
            write_columns(out, at, refusal.text);
            out.write_str(": it isn't the constant");
        }
        Fault::Stray { column, byte, card } => out.fill_three(
            "column {}: \"{}\" stands where the line of card {} puts nothing",
            column,
            char::from(byte),
            card,
        ),
        _ => write_row_fault(out, true, refusal),
    }
}

/// Writes what is wrong with a line. `file` has its fields.
fn write_line_fault(out: &mut TextWriter, file: &FileFields, refusal: Refusal) {
    match refusal.fault {
        Fault::NoCharacter { column, byte } => {
            out.fill_one("column {}: ", column);
            write_hex(out, u32::from(byte), 2);
            out.write_str(": the byte is no character");
        }
        Fault::LongLine { columns, most } => {
            out.fill_two("it has {} columns, and a record {}", columns, most)
        }
        Fault::NoType if file.is_written => {
            out.fill_one("it is none of the lines of {}", file.name.as_slice())
        }
        Fault::NoType => out.write_str("this line is of no type"),
        Fault::NoNumber(at) => {
            write_columns(out, at, refusal.text);
            out.write_str(": no number");
        }
        _ => write_written_fault(out, refusal),
    }
}

/// Writes which row is meant, and the column of the cell.
fn write_row(out: &mut TextWriter, number: u64, fault: Fault) {
    out.fill_one("row {}", number);
    if let Fault::Cell { column, label, .. } = fault {
        out.fill_one(", column {}", column);
        if let Label::Named(name) = label {
            out.fill_one(" {}", name.as_slice());
        }
    }
    out.write_str(": ");
}

/// Returns the columns of a line that a fault is about, if it is about some.
fn columns_of(fault: Fault) -> Option<Columns> {
    let (first, last) = match fault {
        Fault::NoCharacter { column, .. } | Fault::Stray { column, .. } => (column, column),
        Fault::NoNumber(at) | Fault::NoConstant(at) | Fault::NotPrinted { at, .. } => {
            (at.first, at.last)
        }
        _ => return None,
    };
    Some(Columns { first, last })
}

/// Returns the place of a part. A file without rows, or of another code, is meant as a whole.
fn place_of(file: FileName<'_>, refusal: Refusal) -> Place<'_> {
    match (refusal.part, refusal.fault) {
        (Part::Header, Fault::NoRow | Fault::Utf16(_)) => file.whole(),
        (Part::Header | Part::Card(_), _) => file.line(1),
        (Part::Row { line, .. }, _) => file.line(line),
        (Part::Line(number), fault) => file.unshown(number, columns_of(fault), &[]),
    }
}

/// Returns the diagnostic for a part of the input, which has these fields.
pub(crate) fn input_diagnostic<'a>(
    alloc: Global,
    file: FileName<'a>,
    has_header: bool,
    fields: &FileFields,
    refusal: Refusal,
) -> Result<Diagnostic<'a>, AllocError> {
    let mut draft = Draft::error(alloc, place_of(file, refusal));
    let out = &mut draft.message;
    match refusal.part {
        Part::Header | Part::Card(_) => {
            out.write_str("header: ");
            write_names_fault(out, fields.name, refusal);
            write_row_fault(out, true, refusal);
        }
        Part::Row { number, .. } => {
            write_row(out, number, refusal.fault);
            write_row_fault(out, has_header, refusal);
        }
        Part::Line(_) => write_line_fault(out, fields, refusal),
    }
    draft.finish()
}
