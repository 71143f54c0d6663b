//! The layout of the records that lines of a deck become.

ghost use Rattle.std.specs.Prelude.{◌≡◌, IfErr, IfOk, Ok, false};
ghost use Rattle.rpg_records.specs.Seen.{layout_seen};
ghost use Rattle.rpg_record_decks.specs.Layouts.{layout_by, layout_by_cards};
ghost use Rattle.rpg_record_decks.specs.Outcomes.{IsDeckFaultOf};
ghost use Rattle.rpg_record_outputs.specs.Arrays.{ReadsNoArray, reads_arrays};

use crate::array::{entry_cards, reads_arrays, set_entry_digits};
use crate::file::{disk_file, written_file};
use crate::line::{Line, is_same, layout_of_lines, lines_of};
use rpg_record_decks::{
    CardFault, DeckArguments, DeckCard, DeckFault, columns, deck_cards, file_length, file_name,
    layout_by_cards, narrow,
};
use rpg_records::{Code, Layout, NumberField};
use std::alloc::Global;

/// The layout of records, and the output file whose lines they are; None for those of an input file.
#[derive(Drop)]
pub struct BackLayout {
    pub layout: Layout,
    pub written: Option<[u8; 8]>,
}

/// Whether these fields have the same bytes, each in its place.
fn are_same(fields: &[NumberField], others: &[NumberField]) -> bool {
    if fields.len() != others.len() {
        return false;
    }
    for (place, field) in fields.iter().enumerate() {
        if !is_same(field, &others[place]) {
            return false;
        }
    }
    true
}

/// Whether two lines have the same packed and binary fields.
fn are_alike(line: &Line, other: &Line) -> bool {
    are_same(line.numbers.as_slice(), other.numbers.as_slice())
}

/// Whether lines have the packed and binary fields of this one.
fn are_all_alike(first: &Line, lines: &[Line]) -> bool {
    for line in lines {
        if !are_alike(line, first) {
            return false;
        }
    }
    true
}

/// Whether one of these codes is another character in the place of this one.
fn contradicts(codes: &[Code], code: &Code) -> bool {
    for other in codes {
        if other.place == code.place && other.character != code.character {
            return true;
        }
    }
    false
}

/// Whether a constant tells one line from the other.
fn are_told_apart(line: &Line, other: &Line) -> bool {
    for code in line.codes.as_slice() {
        if contradicts(other.codes.as_slice(), code) {
            return true;
        }
    }
    false
}

/// Checks that constants tell a line from the earlier ones with other fields.
fn refuse_alike(line: &Line, earlier: &[Line]) -> Result<(), DeckFault> {
    for other in earlier {
        if !are_alike(line, other) && !are_told_apart(line, other) {
            let (one, other) = (other.card, line.card);
            return Err(DeckFault::at(line.card, CardFault::Alike { one, other }));
        }
    }
    Ok(())
}

/// Checks that constants tell lines with other fields apart.
fn refuse_all_alike(lines: &[Line]) -> Result<(), DeckFault> {
    for (place, line) in lines.iter().enumerate() {
        refuse_alike(line, &lines[..place])?;
    }
    Ok(())
}

/// Checks that no field is packed or binary, if each record is a line.
fn refuse_bytes(are_lines: bool, lines: &[Line]) -> Result<(), DeckFault> {
    if !are_lines {
        return Ok(());
    }
    for line in lines {
        if let [field, ..] = line.numbers.as_slice() {
            return Err(DeckFault::at(field.card, CardFault::BytesInLines));
        }
    }
    Ok(())
}

/// Returns the layout of these lines' records. If all lines have the same fields, it doesn't matter which one a record
/// is of: it has one type, without codes.
fn written_types(
    alloc: Global,
    file: u16,
    length: u16,
    first: &Line,
    lines: &[Line],
) -> Result<Layout, DeckFault> {
    if !are_all_alike(first, lines) {
        refuse_all_alike(lines)?;
        return Ok(layout_of_lines(alloc, file, length, lines)?);
    }
    let mut types = Vec::new(alloc);
    types.push(first.record_type(alloc, length, false)?)?;
    Ok(Layout {
        card: file,
        length,
        types,
    })
}

/// Returns the layout of the records that lines of an output file become.
fn written_layout(
    alloc: Global,
    arguments: DeckArguments,
    cards: &[DeckCard],
    file: &DeckCard,
) -> Result<Layout, DeckFault> {
    let length = file_length(alloc, file, arguments.length)?;
    let lines = lines_of(alloc, cards, file_name(&file.card), length)?;
    let [first, ..] = lines.as_slice() else {
        return Err(DeckFault::at(file.number, CardFault::NoLine));
    };
    refuse_bytes(arguments.are_lines, lines.as_slice())?;
    let layout = written_types(alloc, file.number, length, first, lines.as_slice())?;
    narrow(layout)
}

/// Returns the columns of a file's name.
fn name_columns(file: &DeckCard) -> [u8; 8] {
    let mut name = [b' '; 8];
    name.copy_from_slice(columns(&file.card, 7, 14));
    name
}

/// Returns the layout of the records that lines become: by the O cards of the output file that the arguments name, or
/// of the only one with packed or binary fields; else by the I cards of an input file.
///
/// # Errors
///
/// The first card that is rejected; or there is no such file, or memory ran out.
pub fn back_layout(
    alloc: Global,
    source: &[u8],
    arguments: DeckArguments,
) -> Result<BackLayout, DeckFault> {
    let cards = deck_cards(alloc, source)?;
    let file = written_file(cards.as_slice(), arguments.file);
    layout_of(alloc, arguments, cards.as_slice(), file)
}

/// Returns the layout of the lines of an output file, or of an input file's records.
fn layout_of(
    alloc: Global,
    arguments: DeckArguments,
    cards: &[DeckCard],
    written: Option<&DeckCard>,
) -> Result<BackLayout, DeckFault> {
    match written {
        Some(file) => Ok(BackLayout {
            layout: written_layout(alloc, arguments, cards, file)?,
            written: Some(name_columns(file)),
        }),
        None => Ok(BackLayout {
            layout: read_layout(alloc, arguments, cards)?,
            written: None,
        }),
    }
}

/// Returns the layout of the lines that become rows: of the file that the arguments name, by its O cards if a job writes it, or of the
/// only output file on disk.
///
/// # Errors
///
/// The first card that is rejected; or there is no such file, or memory ran out.
pub fn rows_layout(
    alloc: Global,
    source: &[u8],
    arguments: DeckArguments,
) -> Result<BackLayout, DeckFault> {
    let cards = deck_cards(alloc, source)?;
    let file = disk_file(cards.as_slice(), arguments.file);
    if file.is_none() && arguments.file.is_none() {
        return Err(DeckFault::NoFile);
    }
    layout_of(alloc, arguments, cards.as_slice(), file)
}

/// Returns the layout of the records of an input file. An I card may read a packed or binary array.
fn read_layout(
    alloc: Global,
    arguments: DeckArguments,
    cards: &[DeckCard],
) -> Result<Layout, DeckFault>
    ensures layout { reads_arrays cards.now ≡ false → IfOk result (λ layout. layout_by_cards arguments.entry cards.now ≡ Ok (layout_seen layout)) }
    ensures fault { reads_arrays cards.now ≡ false → IfErr result (IsDeckFaultOf (layout_by_cards arguments.entry cards.now)) }
{
    if !reads_arrays(cards) {
        return layout_by_cards(alloc, arguments, cards);
    }
    let entries = entry_cards(alloc, cards)?;
    let mut layout = layout_by_cards(alloc, arguments, entries.as_slice())?;
    set_entry_digits(cards, &mut layout);
    Ok(layout)
}

/// Returns the layout of the records of the input file that the arguments name, or of the primary one, by its I cards.
///
/// # Errors
///
/// The first card that is rejected; or there is no such file, or memory ran out.
pub fn input_layout(
    alloc: Global,
    source: &[u8],
    arguments: DeckArguments,
) -> Result<Layout, DeckFault>
    ensures layout { ReadsNoArray source.now → IfOk result (λ layout. layout_by arguments.entry source.now ≡ Ok (layout_seen layout)) }
    ensures fault { ReadsNoArray source.now → IfErr result (IsDeckFaultOf (layout_by arguments.entry source.now)) }
{
    let cards = deck_cards(alloc, source)?;
    read_layout(alloc, arguments, cards.as_slice())
}
