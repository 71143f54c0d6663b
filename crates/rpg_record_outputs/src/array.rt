//! Packed and binary arrays that an I card reads: a card for each entry.

ghost use Rattle.std.specs.Prelude.{◌≡◌};
ghost use Rattle.rpg_record_outputs.specs.Arrays.{reads_array, reads_arrays};

use crate::field::bytes_of;
use crate::name::{Named, array_named, is_array, name_of, number_on};
use rpg_record_decks::{
    CardFault, DeckCard, DeckFault, changed_card, columns, form_of, is_on_sheet, number_columns,
};
use rpg_records::{Layout, NumberField, NumberForm};
use rpg_sheet::Card;
use rpg_text::{is_blank, trimmed};
use std::alloc::{AllocError, Global};

/// The entries of an array on an I card.
#[derive(Clone, Copy)]
struct Entries {
    /// The first column of the first one.
    first: u16,
    /// How many columns each has.
    bytes: u16,
    count: u16,
    is_number: bool,
}

/// Returns the entries of a packed or binary array, whose columns must be theirs.
fn entries_on(card: &Card, form: NumberForm, array: Named) -> Result<Entries, CardFault> {
    let name = name_of(columns(card, 53, 58));
    if array.length > 9 && form.is_same(NumberForm::Binary) {
        return Err(CardFault::BinaryDigits);
    }
    let bytes = bytes_of(form, array.length);
    let (first, last) = (number_on(card, 44, 47), number_on(card, 48, 51));
    let width = last.saturating_add(1).saturating_sub(first);
    if first == 0 || array.entries == 0 || width != bytes.saturating_mul(array.entries) {
        return Err(CardFault::Entries {
            name,
            entries: array.entries,
            bytes,
            columns: width,
        });
    }
    Ok(Entries {
        first,
        bytes,
        count: array.entries,
        is_number: array.is_number,
    })
}

/// Returns the card of an entry, counted from 0.
fn entry_card(
    alloc: Global,
    card: &Card,
    entries: Entries,
    entry: u16,
) -> Result<Card, AllocError> {
    let before = entries.bytes.saturating_mul(entry);
    let first = usize::from(entries.first.saturating_add(before));
    let last = (first + usize::from(entries.bytes)).saturating_sub(1);
    let (from, to) = (number_columns(first), number_columns(last));
    let begun = changed_card(alloc, card, 44, &from)?;
    let ended = changed_card(alloc, &begun, 48, &to)?;
    if entries.is_number {
        changed_card(alloc, &ended, 52, b"0")
    } else {
        changed_card(alloc, &ended, 52, b" ")
    }
}

/// Adds a card for each entry of an array.
fn add_entries(
    alloc: Global,
    all: &mut Vec<DeckCard>,
    card: &DeckCard,
    entries: Entries,
) -> Result<(), AllocError> {
    for entry in 0..entries.count {
        all.push(DeckCard {
            number: card.number,
            card: entry_card(alloc, &card.card, entries, entry)?,
        })?;
    }
    Ok(())
}

/// Whether an I card reads a packed or binary array.
fn reads_array(cards: &[DeckCard], card: &DeckCard) -> bool
    ensures { result ≡ reads_array cards.now card.now }
{
    is_on_sheet(b"I", &card.card)
        && is_blank(columns(&card.card, 7, 16))
        && form_of(43, &card.card).is_some()
        && is_array(cards, trimmed(columns(&card.card, 53, 58)))
}

/// Whether a card reads a packed or binary array.
pub(crate) fn reads_arrays(cards: &[DeckCard]) -> bool
    ensures { result ≡ reads_arrays cards.now }
{
    for card in cards {
        if reads_array(cards, card) {
            return true;
        }
    }
    false
}

/// Returns the form and the array of an I card that reads a packed or binary array.
fn array_read(cards: &[DeckCard], card: &DeckCard) -> Option<(NumberForm, Named)> {
    if !reads_array(cards, card) {
        return None;
    }
    let form = form_of(43, &card.card)?;
    let array = array_named(cards, trimmed(columns(&card.card, 53, 58)))?;
    Some((form, array))
}

/// Adds a card, or those of an array's entries.
fn add_card(
    alloc: Global,
    all: &mut Vec<DeckCard>,
    cards: &[DeckCard],
    card: &DeckCard,
) -> Result<(), DeckFault> {
    let Some((form, array)) = array_read(cards, card) else {
        all.push(DeckCard {
            number: card.number,
            card: Card::new(card.card.as_slice()),
        })?;
        return Ok(());
    };
    match entries_on(&card.card, form, array) {
        Ok(entries) => Ok(add_entries(alloc, all, card, entries)?),
        Err(fault) => Err(DeckFault::at(card.number, fault)),
    }
}

/// Returns the cards of a deck, where each entry of a packed or binary array has a card of its own.
pub(crate) fn entry_cards(alloc: Global, cards: &[DeckCard]) -> Result<Vec<DeckCard>, DeckFault> {
    let mut all = Vec::new(alloc);
    for card in cards {
        add_card(alloc, &mut all, cards, card)?;
    }
    Ok(all)
}

/// Returns the number of an array's entry, which has the digits of the array, though its bytes may have more.
fn entry_number(cards: &[DeckCard], number: NumberField) -> NumberField {
    for card in cards {
        if card.number == number.card
            && let Some((_, array)) = array_read(cards, card)
        {
            let NumberField {
                card,
                first,
                last,
                form,
                digits,
            } = number;
            let digits = usize::from(array.length).max(1).min(digits);
            return NumberField {
                card,
                first,
                last,
                form,
                digits,
            };
        }
    }
    number
}

/// Sets the digits of the numbers that are entries of arrays.
fn set_digits(cards: &[DeckCard], numbers: &mut [NumberField]) {
    for place in 0..numbers.len() {
        numbers[place] = entry_number(cards, numbers[place]);
    }
}

/// Sets the digits of the entries of packed and binary arrays.
pub(crate) fn set_entry_digits(cards: &[DeckCard], layout: &mut Layout) {
    for kind in layout.types.as_mut_slice() {
        set_digits(cards, kind.numbers.as_mut_slice());
    }
}
