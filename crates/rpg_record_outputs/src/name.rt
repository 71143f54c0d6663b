//! What the cards of a deck define a name to be.

ghost use Rattle.std.specs.Prelude.{◌≡◌, ◌+◌, ◌<◌, ◌≤◌, IfSome, length};
ghost use Rattle.rpg_record_outputs.specs.Arrays.{defines, is_array};

use rpg_record_decks::{DeckCard, columns, form_of, is_on_sheet};
use rpg_sheet::Card;
use rpg_sheet_values::{is, number};
use rpg_text::{is_blank, trimmed};

/// What a name stands for.
#[derive(Clone, Copy)]
pub(crate) struct Named {
    /// How many digits or characters it has; of an array, each of its entries.
    pub length: u16,
    pub is_number: bool,
    /// How many entries an array has, 1 for all else.
    pub entries: u16,
}

/// Returns the number in columns of a card, 0 if they have none.
pub(crate) fn number_on(card: &Card, first: u8, last: u8) -> u16
    requires counted { 1 ≤ first }
    requires ordered { first ≤ last }
    requires short { last < first + 4 }
    requires within { last ≤ 80 }
{
    number(columns(card, first, last)).unwrap_or(0)
}

fn is_filled(card: &Card, column: u8) -> bool
    requires counted { 1 ≤ column }
    requires within { column ≤ 80 }
{
    !is_blank(columns(card, column, column))
}

/// Whether this is the E card of an array with this name.
fn defines(card: &DeckCard, name: &[u8]) -> bool
    ensures { result ≡ defines name.now card.now }
{
    is_on_sheet(b"E", &card.card) && trimmed(columns(&card.card, 27, 32)) == name
}

/// Whether an E card defines an array of this name.
pub(crate) fn is_array(cards: &[DeckCard], name: &[u8]) -> bool
    ensures { result ≡ is_array cards.now name.now }
{
    for card in cards {
        if defines(card, name) {
            return true;
        }
    }
    false
}

/// Returns what the first E card with this name defines an array to be. A table stands for its current entry.
pub(crate) fn array_named(cards: &[DeckCard], name: &[u8]) -> Option<Named> {
    for card in cards {
        if defines(card, name) {
            return Some(Named {
                length: number_on(&card.card, 40, 42),
                is_number: is_filled(&card.card, 44),
                entries: match name {
                    [b'T', b'A', b'B', ..] => 1,
                    _ => number_on(&card.card, 36, 39),
                },
            });
        }
    }
    None
}

/// Returns how many digits or characters the field of an I card has.
fn input_length(card: &Card) -> u16 {
    let (first, last) = (number_on(card, 44, 47), number_on(card, 48, 51));
    if first == 0 || last < first {
        return 0;
    }
    let size = last - first + 1;
    match form_of(43, card) {
        Some(form) => form.digit_count(usize::from(size)).min(9_999) as u16,
        None => size,
    }
}

/// Returns what an I or a C card defines a field of this name to be.
fn on_field_card(card: &Card, name: &[u8]) -> Option<Named> {
    let is_input = is_on_sheet(b"I", card) && is_blank(columns(card, 7, 16));
    if is_input && trimmed(columns(card, 53, 58)) == name {
        return Some(Named {
            length: input_length(card),
            is_number: is_filled(card, 52),
            entries: 1,
        });
    }
    let is_defining = is_on_sheet(b"C", card) && !is_blank(columns(card, 49, 51));
    if is_defining && trimmed(columns(card, 43, 48)) == name {
        return Some(Named {
            length: number_on(card, 49, 51),
            is_number: is_filled(card, 52),
            entries: 1,
        });
    }
    None
}

/// Returns how many digits a reserved name has.
fn reserved(name: &[u8]) -> Option<u16> {
    if is(name, b"UDATE") {
        Some(6)
    } else if is(name, b"UDAY") || is(name, b"UMONTH") || is(name, b"UYEAR") {
        Some(2)
    } else if is(name, b"PAGE") {
        Some(4)
    } else {
        None
    }
}

/// Returns what the first I or C card with this name defines it to be.
fn field_named(cards: &[DeckCard], name: &[u8]) -> Option<Named> {
    for card in cards {
        let field = on_field_card(&card.card, name);
        if field.is_some() {
            return field;
        }
    }
    None
}

/// Returns what the cards of a deck define a name to be: an array, a reserved name or a field.
fn definition_of(cards: &[DeckCard], name: &[u8]) -> Option<Named> {
    if let Some(array) = array_named(cards, name) {
        return Some(array);
    }
    match reserved(name) {
        Some(length) => Some(Named {
            length,
            is_number: true,
            entries: 1,
        }),
        None => field_named(cards, name),
    }
}

/// Returns the first six characters of a name, padded with blanks.
pub(crate) fn name_of(text: &[u8]) -> [u8; 6] {
    let mut name = [b' '; 6];
    let len = text.len().min(6);
    name[..len].copy_from_slice(&text[..len]);
    name
}

/// Returns the place of a comma.
fn comma_in(name: &[u8]) -> Option<usize>
    ensures { IfSome result (λ place. place < length name.now) }
{
    name.iter().position(|byte| *byte == b',')
}

/// Returns the name of an array whose entry is meant, or a name without an index.
pub(crate) fn base_of(name: &[u8]) -> &[u8] {
    match comma_in(name) {
        Some(comma) => &name[..comma],
        None => name,
    }
}

/// Returns what a name is, or the entry of an array that it selects.
pub(crate) fn meaning_of(cards: &[DeckCard], name: &[u8]) -> Option<Named> {
    let base = base_of(name);
    let whole = definition_of(cards, base)?;
    let entries = if base.len() < name.len() {
        1
    } else {
        whole.entries
    };
    Some(Named {
        length: whole.length,
        is_number: whole.is_number,
        entries,
    })
}
