//! The diagnostics for a deck or a record that is rejected.

use rpg_cli_diagnostics::{At, Columns, Diagnostic, Draft, FileName, Place};
use rpg_cli_text::TextWriter;
use rpg_cli_words::RecordsWay;
use rpg_record_decks::{CardFault, DeckFault};
use rpg_record_lines::{NumberFault, RecordFault};
use rpg_text::{is_blank, trimmed};
use std::alloc::{AllocError, Global};

/// The hexadecimal digits.
const HEX: &[u8; 16] = b"0123456789abcdef";

fn write_bytes(out: &mut TextWriter, bytes: &[u8]) {
    for byte in bytes {
        out.write_char(char::from(HEX[usize::from(*byte / 16)]));
        out.write_char(char::from(HEX[usize::from(*byte % 16)]));
    }
}

/// Writes a sentence with a number.
fn write_count(out: &mut TextWriter, sentence: &str, count: usize) {
    out.fill(sentence, &[count.into()]);
}

fn write_card_fault(out: &mut TextWriter, fault: CardFault) {
    match fault {
        CardFault::TooLong => out.write_str("the card has more than 80 characters"),
        CardFault::NoCharacter => out.write_str("the card has a byte that is no character"),
        CardFault::TooMany => out.write_str("it is card 2,001"),
        CardFault::Columns { first, last } => out.fill(
            "columns {} to {} have a value that isn't allowed, or a column is filled that must be blank",
            &[first.into(), last.into()],
        ),
        CardFault::Length => out.write_str("a record has 1 to 9,999 bytes: give --length"),
        CardFault::Outside => out.write_str("the columns aren't in the record"),
        CardFault::Size => {
            out.write_str("a packed field has 1 to 8 bytes, a binary one has 2 or 4")
        }
        CardFault::NoDecimals => {
            out.write_str("a packed or binary field is a number: it has its decimals in 52")
        }
        CardFault::Shared { card } => out.fill(
            "of the type of card {}, a column is one of characters and of a packed or binary field",
            &[card.into()],
        ),
        CardFault::Wide { columns } => {
            let sentence = "lines would have {} columns, and 9,999 are the most";
            write_count(out, sentence, columns)
        }
        CardFault::NoType => out.write_str("the file has no record type on the I cards"),
        CardFault::NoLine => out.write_str("the file has no line on the O cards"),
        CardFault::BytesInLines => out.write_str(
            "with --lines no field may be packed or binary: its bytes could end a line",
        ),
        fault => write_array_fault(out, fault),
    }
}

/// Writes what is wrong with an array that is read, or with an output field.
fn write_array_fault(out: &mut TextWriter, fault: CardFault) {
    match fault {
        CardFault::Entries {
            name,
            entries,
            bytes,
            columns,
        } => out.fill(
            "the array {} has {} entries of {} bytes, and {} columns aren't as many",
            &[
                trimmed(&name).into(),
                entries.into(),
                bytes.into(),
                columns.into(),
            ],
        ),
        fault => write_output_fault(out, fault),
    }
}

/// Writes what is wrong with an output field.
fn write_output_fault(out: &mut TextWriter, fault: CardFault) {
    match fault {
        CardFault::Edited => {
            out.write_str("a packed or binary field has neither an edit code nor a word")
        }
        CardFault::Unnamed => {
            out.write_str("a packed or binary field is a number that has a name")
        }
        CardFault::NoLength { name } => out.fill(
            "no card says how many digits {} has",
            &[trimmed(&name).into()],
        ),
        CardFault::BinaryDigits => out.write_str("a binary field has at most 9 digits"),
        CardFault::BeforeRecord { bytes } => out.fill(
            "the field's {} bytes would begin before column 1",
            &[bytes.into()],
        ),
        CardFault::AfterRecord { end } => {
            out.fill("the end position {} isn't in the record", &[end.into()])
        }
        CardFault::Overlapping {
            first,
            last,
            one,
            other,
        } => out.fill(
            "columns {} to {} have what cards {} and {} put there, one of them packed or binary",
            &[first.into(), last.into(), one.into(), other.into()],
        ),
        CardFault::Alike { one, other } => out.fill(
            "the packed fields of the lines of cards {} and {} differ, and no constant tells one line from the other",
            &[one.into(), other.into()],
        ),
        CardFault::NotRead { first, last } => out.fill(
            "no I card reads columns {} to {} as packed or binary, or their digits have several places",
            &[first.into(), last.into()],
        ),
        _ => {}
    }
}

/// Returns the diagnostic for a deck. `sought` is the file that it must describe.
pub(crate) fn deck_diagnostic<'a>(
    alloc: Global,
    file: FileName<'a>,
    fault: DeckFault,
    sought: &str,
) -> Result<Diagnostic<'a>, AllocError> {
    let place = match fault {
        DeckFault::Card { number, .. } => file.line(number.into()),
        DeckFault::NoFile | DeckFault::NoMemory => file.whole(),
    };
    let mut draft = Draft::error(alloc, place);
    match fault {
        DeckFault::Card { fault, .. } => write_card_fault(&mut draft.message, fault),
        DeckFault::NoFile => draft.message.fill_one("no card describes such {}", sought),
        DeckFault::NoMemory => draft.message.write_str("no memory"),
    }
    draft.finish()
}

fn write_number_fault(out: &mut TextWriter, fault: NumberFault) {
    out.write_str(match fault {
        NumberFault::NotPacked => ": no packed number",
        NumberFault::NotZoned => ": no number",
        NumberFault::TooLarge => ": the number has more digits than the field",
    });
}

/// Writes that the two sides of a record are of the types of different cards, or one of none.
fn write_types(out: &mut TextWriter, one: &str, card: u16, side: &str, other: Option<u16>) {
    out.fill(
        "by its {} it is of the type of card {}, by its {} ",
        &[one.into(), card.into(), side.into()],
    );
    match other {
        Some(other) => out.fill("of that of card {}", &[other.into()]),
        None => out.write_str("of none"),
    }
}

/// Writes the columns of a field, and its card.
fn write_columns(out: &mut TextWriter, first: usize, last: usize, card: u16) {
    out.fill(
        "columns {} to {} (card {}): ",
        &[first.into(), last.into(), card.into()],
    );
}

/// Writes characters of a line in quotation marks.
fn write_quoted(out: &mut TextWriter, characters: &[u8]) {
    out.write_char('"');
    out.write_shown(characters);
    out.write_char('"');
}

/// Writes why digits aren't a number.
fn write_no_number(out: &mut TextWriter, digits: &[u8]) {
    if is_blank(digits) {
        out.write_str("blank");
    } else {
        write_quoted(out, digits);
    }
    out.write_str(": no number");
}

fn write_no_character(out: &mut TextWriter, column: usize, byte: u8) {
    write_count(out, "column {}: ", column);
    write_bytes(out, &[byte]);
    out.write_str(": the byte is no character");
}

fn write_record_fault(out: &mut TextWriter, fault: RecordFault) {
    match fault {
        RecordFault::Cut { bytes } => {
            let sentence = match bytes {
                1 => "the input ends after 1 byte of it",
                _ => "the input ends after {} bytes of it",
            };
            write_count(out, sentence, bytes)
        }
        RecordFault::NoDescriptor { bytes } => {
            write_bytes(out, &bytes);
            out.write_str(": no record descriptor");
        }
        RecordFault::TooLong { bytes } => {
            write_count(out, "it has {} bytes, more than the cards say", bytes)
        }
        RecordFault::LongLine { most } => {
            let sentence = "it has more than {} bytes, the most that a line can have";
            write_count(out, sentence, most)
        }
        RecordFault::NoType => out.write_str("it is of no type"),
        RecordFault::NoCharacter { column, byte } => write_no_character(out, column, byte),
        RecordFault::BadNumber {
            card,
            first,
            last,
            bytes,
            fault,
        } => {
            write_columns(out, usize::from(first), usize::from(last), card);
            write_bytes(out, bytes.as_slice());
            write_number_fault(out, fault);
        }
        RecordFault::OtherLine { card, other } => write_types(out, "bytes", card, "line", other),
        RecordFault::OtherRecord { card, other } => write_types(out, "line", card, "bytes", other),
        RecordFault::BadDigits {
            card,
            first,
            last,
            digits,
        } => {
            write_columns(out, first, last, card);
            write_no_number(out, digits.as_slice());
        }
        RecordFault::Taken {
            card,
            first,
            last,
            characters,
        } => {
            write_columns(out, usize::from(first), usize::from(last), card);
            write_quoted(out, characters.as_slice());
            out.write_str(": characters where a packed field goes");
        }
        RecordFault::NoPlace { column, byte } => {
            write_count(out, "column {}: ", column);
            write_quoted(out, &[byte]);
            out.write_str(" is where no digits go");
        }
        RecordFault::TooMany => out.write_str("a file has at most 10,000,000 records"),
    }
}

/// A record or a line of a file that is rejected. Records and lines are numbered from 1, bytes from 0.
#[derive(Clone, Copy)]
pub(crate) struct RefusedRecord {
    pub way: RecordsWay,
    /// The output file whose lines they are, if they are those of one.
    pub lines_of: Option<[u8; 8]>,
    pub number: u64,
    pub offset: u64,
    pub fault: RecordFault,
}

/// Returns the columns of a line that a fault is about, if it is about some.
fn columns_of(fault: &RecordFault) -> Option<Columns> {
    let (first, last) = match fault {
        RecordFault::BadDigits { first, last, .. } => (*first, *last),
        RecordFault::Taken { first, last, .. } => (usize::from(*first), usize::from(*last)),
        RecordFault::NoPlace { column, .. } => (*column, *column),
        RecordFault::NoCharacter { column, .. } => (*column, *column),
        _ => return None,
    };
    Some(Columns { first, last })
}

impl RefusedRecord {
    /// Returns where it is: a line of a text file, or a record at an offset.
    fn place<'a>(&self, file: FileName<'a>) -> Place<'a> {
        match self.way {
            RecordsWay::ToLines => Place {
                file,
                at: At::Record {
                    number: self.number,
                    byte: self.offset,
                },
            },
            RecordsWay::ToRecords => file.unshown(self.number, columns_of(&self.fault), &[]),
        }
    }
}

/// Writes that a line is none of those that the cards describe.
fn write_no_type(out: &mut TextWriter, lines_of: Option<[u8; 8]>) {
    match lines_of {
        Some(name) => out.fill("it is none of the lines of {}", &[trimmed(&name).into()]),
        None => out.write_str("this line is of no type"),
    }
}

/// Returns the diagnostic for a record or a line of a file. A text has no place for a record, so the message has it.
pub(crate) fn record_diagnostic(
    alloc: Global,
    file: FileName<'_>,
    refused: RefusedRecord,
) -> Result<Diagnostic<'_>, AllocError> {
    let mut draft = Draft::error(alloc, refused.place(file));
    let out = &mut draft.message;
    match (refused.way, refused.fault) {
        (RecordsWay::ToRecords, RecordFault::NoType) => write_no_type(out, refused.lines_of),
        (RecordsWay::ToRecords, fault) => write_record_fault(out, fault),
        (RecordsWay::ToLines, RecordFault::NoType) => out.fill_two(
            "record {} at byte {} is of no type",
            refused.number,
            refused.offset,
        ),
        (RecordsWay::ToLines, fault) => {
            out.fill_two("record {} at byte {}: ", refused.number, refused.offset);
            write_record_fault(out, fault);
        }
    }
    draft.finish()
}
