//! The deck that reads the lines, and changes of cards.

ghost use Rattle.std.specs.Prelude.{◌≡◌, ◌<◌, ◌++◌, ◌∷◌, [], drop, find, IfOk, IfSome, length, map, OnOk, option_copied, position, ◌==◌};
ghost use Rattle.std.specs.Str.Lines.{strip_carriage_return};
ghost use Rattle.rpg_text.specs.Lines.{is_line_feed};
ghost use Rattle.rpg_records.specs.Seen.{layout_seen, number_seen};
ghost use Rattle.rpg_record_decks.specs.Edits.{with_columns};
ghost use Rattle.rpg_record_decks.specs.Fitted.{all_digit_columns, changed, digit_columns_after, digits_change, fitted, length_change, with_change};

use crate::edits::{number_columns, with_columns};
use rpg_records::{Layout, NumberField};
use rpg_sheet::Word;
use std::alloc::{AllocError, Global};

/// The columns of a field's digits, from 1.
#[derive(Clone, Copy)]
pub struct DigitColumns {
    /// The card of the field.
    pub card: u16,
    pub first: usize,
    pub last: usize,
}

/// A text that takes the place of columns of a card.
#[derive(Drop)]
pub struct CardChange {
    /// The number of the card, from 1.
    pub card: u16,
    /// The first of the columns.
    pub first: u8,
    pub text: Word<9>,
}

/// Adds the columns of the digits of a type's fields, which follow a record of `length` bytes.
fn add_digits(
    all: &mut Vec<DigitColumns>,
    length: u16,
    numbers: &[NumberField],
) -> Result<(), AllocError>
    ensures { OnOk result (all.new.items ≡ all.old.items ++ digit_columns_after length (map number_seen numbers.now)) }
{
    let mut end = usize::from(length);
    for field in numbers {
        let last = end.saturating_add(field.digit_count());
        all.push(DigitColumns {
            card: field.card,
            first: end.saturating_add(1),
            last,
        })?;
        end = last;
    }
    Ok(())
}

/// Returns the columns of the digits of all packed and binary fields.
pub fn all_digits(alloc: Global, layout: &Layout) -> Result<Vec<DigitColumns>, AllocError>
    ensures { IfOk result (λ all. all.items ≡ all_digit_columns (layout_seen layout.now)) }
{
    let mut all = Vec::new(alloc);
    for kind in layout.types.as_slice() {
        add_digits(&mut all, layout.length, kind.numbers.as_slice())?;
    }
    Ok(all)
}

/// Returns the change of a file's card: how many columns its longest line has.
pub fn length_change(card: u16, columns: usize) -> CardChange
    ensures { result ≡ length_change card columns }
{
    CardChange {
        card,
        first: 24,
        text: Word::new(&number_columns(columns)),
    }
}

/// Returns the change of a field's I card: a blank instead of P or B, and the columns of its digits.
pub fn digits_change(digits: &DigitColumns) -> CardChange
    ensures { result ≡ digits_change digits.now }
{
    let first = number_columns(digits.first);
    let last = number_columns(digits.last);
    CardChange {
        card: digits.card,
        first: 43,
        text: Word::new(&[
            b' ', first[0], first[1], first[2], first[3], last[0], last[1], last[2], last[3],
        ]),
    }
}

/// Returns the first change of the card with this number.
fn change_on(changes: &[CardChange], number: usize) -> Option<&CardChange>
    ensures { option_copied result ≡ find (λ c. c.card == number) changes.now }
{
    for change in changes {
        if usize::from(change.card) == number {
            return Some(change);
        }
    }
    None
}

/// Returns a line without a carriage return at its end.
fn without_return(line: &[u8]) -> &[u8]
    ensures { result.now ≡ strip_carriage_return line.now }
{
    match line {
        [before @ .., b'\r'] => before,
        _ => line,
    }
}

/// Appends a line with a change. A carriage return at its end stays.
fn add_changed(
    alloc: Global,
    deck: &mut Vec<u8>,
    line: &[u8],
    change: &CardChange,
) -> Result<(), AllocError>
    ensures { OnOk result (deck.new.items ≡ deck.old.items ++ with_change change.now line.now) }
{
    let card = without_return(line);
    let changed = with_columns(alloc, card, change.first, change.text.as_slice())?;
    deck.extend_from_slice(changed.as_slice())?;
    if card.len() < line.len() {
        deck.extend_from_slice(&line[card.len()..])?;
    }
    Ok(())
}

/// Appends the line with this number, with its change.
fn add_line(
    alloc: Global,
    deck: &mut Vec<u8>,
    changes: &[CardChange],
    number: usize,
    line: &[u8],
) -> Result<(), AllocError>
    ensures { OnOk result (deck.new.items ≡ deck.old.items ++ changed (find (λ c. c.card == number) changes.now) line.now) }
{
    match change_on(changes, number) {
        Some(change) => add_changed(alloc, deck, line, change),
        None => deck.extend_from_slice(line),
    }
}

/// Returns the place of the first line feed.
fn line_feed(text: &[u8]) -> Option<usize>
    ensures place { result ≡ position is_line_feed text.now }
    ensures within { IfSome result (λ end. end < length text.now) }
{
    text.iter().position(|byte| *byte == b'\n')
}

/// Returns the deck with these changes of its cards. All else is unchanged.
#[tactic(auto, using(crate::proofs::FittedLemmas::last_fitted))]
pub fn fitted_deck(
    alloc: Global,
    source: &[u8],
    changes: &[CardChange],
) -> Result<Vec<u8>, AllocError>
    ensures { IfOk result (λ deck. deck.items ≡ fitted changes.now source.now) }
{
    let mut deck = Vec::new(alloc);
    let mut number = 1usize;
    let mut rest = source;
    while let Some(end) = line_feed(rest) {
        add_line(alloc, &mut deck, changes, number, &rest[..end])?;
        deck.push(b'\n')?;
        number += 1;
        rest = &rest[end + 1..];
    }
    add_line(alloc, &mut deck, changes, number, rest)?;
    Ok(deck)
}
