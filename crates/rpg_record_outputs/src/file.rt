//! The output files of a deck.

use rpg_record_decks::{DeckCard, columns, file_name, form_of, is_of_file, is_on_sheet};
use rpg_sheet::Card;

/// Whether a card describes a file that is written, and not printed.
pub(crate) fn is_written(card: &Card) -> bool {
    is_on_sheet(b"F", card)
        && columns(card, 15, 15) == b"O".as_slice()
        && columns(card, 40, 44) != b"PRINT".as_slice()
}

/// Whether an O card of the file with this name has a packed or binary field.
pub(crate) fn has_numbers(cards: &[DeckCard], name: &[u8]) -> bool {
    let mut is_meant = false;
    for card in cards {
        if !is_on_sheet(b"O", &card.card) {
            continue;
        }
        is_meant = is_of_file(&card.card, name, is_meant);
        if is_meant && form_of(44, &card.card).is_some() {
            return true;
        }
    }
    false
}

/// Returns the output file on disk with this name, or the first one.
pub(crate) fn disk_file<'a>(cards: &'a [DeckCard], name: Option<&str>) -> Option<&'a DeckCard> {
    match name {
        Some(name) => file_named(cards, name.as_bytes()),
        None => cards.iter().find(|card| is_written(&card.card)),
    }
}

/// Returns the output file with this name.
fn file_named<'a>(cards: &'a [DeckCard], name: &[u8]) -> Option<&'a DeckCard> {
    for card in cards {
        if is_written(&card.card) && file_name(&card.card) == name {
            return Some(card);
        }
    }
    None
}

/// Returns the only output file that has packed or binary fields.
fn only_file(cards: &[DeckCard]) -> Option<&DeckCard> {
    let mut only = None;
    for card in cards {
        if is_written(&card.card) && has_numbers(cards, file_name(&card.card)) {
            if only.is_some() {
                return None;
            }
            only = Some(card);
        }
    }
    only
}

/// Returns the output file with this name, or the only one that has packed or binary fields.
pub(crate) fn written_file<'a>(cards: &'a [DeckCard], name: Option<&str>) -> Option<&'a DeckCard> {
    match name {
        Some(name) => file_named(cards, name.as_bytes()),
        None => only_file(cards),
    }
}

/// Whether this is the card of a file with this number, and the file is updated or combined: its O cards write into the
/// records that are read.
pub(crate) fn is_updated(file: &DeckCard, number: u16) -> bool {
    file.number == number && columns(&file.card, 15, 15) != b"I".as_slice()
}
