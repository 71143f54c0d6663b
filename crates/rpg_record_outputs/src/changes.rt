//! The changes of a deck that writes the digits of packed and binary fields.

ghost use Rattle.std.specs.Prelude.{◌≡◌, ◌++◌, IfOk, OnOk, false, map};
ghost use Rattle.std.specs.List.{list_any};
ghost use Rattle.rpg_records.specs.Seen.{layout_seen};
ghost use Rattle.rpg_record_decks.specs.Fitted.{digits_change};
ghost use Rattle.rpg_record_outputs.specs.Arrays.{reads_arrays};
ghost use Rattle.rpg_record_outputs.specs.Changes.{AreReadChanges, layout_changes, writes_number};
ghost use Rattle.rpg_record_outputs.specs.Digits.{change_to, digits_end, end_change, line_changes};

use crate::array::reads_arrays;
use crate::file::{has_numbers, is_updated, is_written};
use crate::line::{Line, is_same, layout_of_lines, lines_of};
use rpg_record_decks::{
    CardChange, CardFault, DeckCard, DeckFault, DigitColumns, all_digits, deck_cards,
    digits_change, file_length, file_name, form_of, is_on_sheet, length_change, narrow,
    number_columns,
};
use rpg_records::{Layout, NumberField};
use rpg_sheet::Word;
use std::alloc::{AllocError, Global};

/// Adds columns of digits. Those of an array's entries, which have one card, are one.
fn add_joined(all: &mut Vec<DigitColumns>, digits: &DigitColumns) -> Result<(), AllocError> {
    let count = all.len();
    if count > 0 && all[count - 1].card == digits.card {
        all[count - 1].last = digits.last;
        return Ok(());
    }
    all.push(*digits)?;
    Ok(())
}

/// Adds the changes of the I cards of fields, given their digits.
fn add_reading(changes: &mut Vec<CardChange>, all: &[DigitColumns]) -> Result<(), AllocError>
    ensures { OnOk result (changes.new.items ≡ changes.old.items ++ map digits_change all.now) }
{
    for digits in all {
        changes.push(digits_change(digits))?;
    }
    Ok(())
}

/// Returns the changes of the cards of a layout in the deck that reads its lines.
#[tactic(auto, using(rpg_record_decks::proofs::SeenLemmas::columns_are_seen))]
fn layout_changes(alloc: Global, layout: &Layout) -> Result<Vec<CardChange>, AllocError>
    ensures { IfOk result (λ changes. changes.items ≡ layout_changes (layout_seen layout.now)) }
{
    let all = all_digits(alloc, layout)?;
    let mut changes = Vec::new(alloc);
    changes.push(length_change(layout.card, layout.columns()))?;
    add_reading(&mut changes, all.as_slice())?;
    Ok(changes)
}

/// Returns the same where an I card reads a packed or binary array.
fn array_changes(alloc: Global, layout: &Layout) -> Result<Vec<CardChange>, AllocError> {
    let all = all_digits(alloc, layout)?;
    let mut joined = Vec::new(alloc);
    for digits in all.as_slice() {
        add_joined(&mut joined, digits)?;
    }
    let mut changes = Vec::new(alloc);
    changes.push(length_change(layout.card, layout.columns()))?;
    add_reading(&mut changes, joined.as_slice())?;
    Ok(changes)
}

/// Returns the changes of the cards that read records of a layout.
fn read_changes(
    alloc: Global,
    cards: &[DeckCard],
    layout: &Layout,
) -> Result<Vec<CardChange>, AllocError>
    ensures { reads_arrays cards.now ≡ false → IfOk result (λ changes. changes.items ≡ layout_changes (layout_seen layout.now)) }
{
    if !reads_arrays(cards) {
        return layout_changes(alloc, layout);
    }
    array_changes(alloc, layout)
}

/// Whether a card writes a packed or binary field.
fn writes_numbers(cards: &[DeckCard]) -> bool
    ensures { result ≡ list_any writes_number cards.now }
{
    for card in cards {
        if is_on_sheet(b"O", &card.card) && form_of(44, &card.card).is_some() {
            return true;
        }
    }
    false
}

/// Returns the last column of a field's digits, which follow `length` columns in the order of these fields.
fn digits_end(length: u16, numbers: &[NumberField], field: &NumberField) -> Option<usize>
    ensures { result ≡ digits_end length numbers.now field.now }
{
    let mut end = usize::from(length);
    for number in numbers {
        end = end.saturating_add(number.digit_count());
        if is_same(number, field) {
            return Some(end);
        }
    }
    None
}

/// Returns the last column of a field's digits in a record that is read, if it is the same in each type that has the
/// field.
fn end_read(layout: &Layout, field: &NumberField) -> Option<usize> {
    let mut found = None;
    for kind in layout.types.as_slice() {
        let Some(end) = digits_end(layout.length, kind.numbers.as_slice(), field) else {
            continue;
        };
        match found {
            Some(other) if other != end => return None,
            _ => found = Some(end),
        }
    }
    found
}

/// Returns the change of a field's O card: the last column of its digits, and a blank instead of P or B.
fn end_change(card: u16, end: usize) -> CardChange
    ensures { result ≡ end_change card end }
{
    let end = number_columns(end);
    CardChange {
        card,
        first: 40,
        text: Word::new(&[end[0], end[1], end[2], end[3], b' ']),
    }
}

/// Adds the change of a field's O card, if these fields have its digits.
fn add_end(
    changes: &mut Vec<CardChange>,
    length: u16,
    numbers: &[NumberField],
    field: &NumberField,
) -> Result<(), AllocError>
    ensures { OnOk result (changes.new.items ≡ changes.old.items ++ change_to field.now (digits_end length numbers.now field.now)) }
{
    if let Some(end) = digits_end(length, numbers, field) {
        changes.push(end_change(field.card, end))?;
    }
    Ok(())
}

/// Adds the changes of a line's O cards.
fn add_line(changes: &mut Vec<CardChange>, length: u16, line: &Line) -> Result<(), AllocError>
    ensures { OnOk result (changes.new.items ≡ changes.old.items ++ line_changes length line.now.numbers.items line.now.fields.items) }
{
    for field in line.fields.as_slice() {
        add_end(changes, length, line.numbers.as_slice(), field)?;
    }
    Ok(())
}

/// Adds the changes of the cards of an output file.
fn add_written(
    alloc: Global,
    changes: &mut Vec<CardChange>,
    cards: &[DeckCard],
    file: &DeckCard,
) -> Result<(), DeckFault> {
    let length = file_length(alloc, file, None)?;
    let lines = lines_of(alloc, cards, file_name(&file.card), length)?;
    let layout = narrow(layout_of_lines(alloc, file.number, length, lines.as_slice())?)?;
    changes.push(length_change(file.number, layout.columns()))?;
    for line in lines.as_slice() {
        add_line(changes, length, line)?;
    }
    Ok(())
}

/// Adds the changes of a line's O cards in a file that is updated: a field is written where it is read.
fn add_line_read(
    changes: &mut Vec<CardChange>,
    layout: &Layout,
    line: &Line,
) -> Result<(), DeckFault> {
    for field in line.fields.as_slice() {
        match end_read(layout, field) {
            Some(end) => changes.push(end_change(field.card, end))?,
            None => {
                let (first, last) = (field.first, field.last);
                return Err(DeckFault::at(field.card, CardFault::NotRead { first, last }));
            }
        }
    }
    Ok(())
}

/// Adds the changes of the O cards of a file that is updated, given the layout of its records.
fn add_updated(
    alloc: Global,
    changes: &mut Vec<CardChange>,
    cards: &[DeckCard],
    file: &DeckCard,
    layout: &Layout,
) -> Result<(), DeckFault> {
    let lines = lines_of(alloc, cards, file_name(&file.card), layout.length)?;
    for line in lines.as_slice() {
        add_line_read(changes, layout, line)?;
    }
    Ok(())
}

/// Adds the changes of the O cards of all files.
fn add_all(
    alloc: Global,
    changes: &mut Vec<CardChange>,
    cards: &[DeckCard],
    layout: &Layout,
) -> Result<(), DeckFault> {
    for file in cards {
        if is_written(&file.card) && has_numbers(cards, file_name(&file.card)) {
            add_written(alloc, changes, cards, file)?;
        } else if is_updated(file, layout.card) {
            add_updated(alloc, changes, cards, file, layout)?;
        }
    }
    Ok(())
}

/// Returns the changes of the cards in the deck that reads the lines of a layout, and that writes the digits of packed
/// and binary fields.
///
/// # Errors
///
/// The first O card that is rejected; or memory ran out.
pub fn deck_changes(
    alloc: Global,
    source: &[u8],
    layout: &Layout,
) -> Result<Vec<CardChange>, DeckFault>
    ensures { IfOk result (λ changes. AreReadChanges source.now layout.now changes.items) }
{
    let cards = deck_cards(alloc, source)?;
    let mut changes = read_changes(alloc, cards.as_slice(), layout)?;
    if !writes_numbers(cards.as_slice()) {
        return Ok(changes);
    }
    add_all(alloc, &mut changes, cards.as_slice(), layout)?;
    Ok(changes)
}
