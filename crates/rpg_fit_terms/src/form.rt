//! The forms of names: lengths and decimals.

use crate::cards::is_card;
use crate::name::{is, is_date_part};
use rpg_fit_deck::{Card, Seen, View, Word};

/// A name's length and decimals.
#[derive(Clone, Copy)]
pub struct Form {
    pub length: usize,
    /// The digit of its decimals; a blank for a text.
    pub decimals: u8,
}

impl Form {
    fn of(length: usize, decimals: u8) -> Form {
        Form { length, decimals }
    }

    /// Whether it is a number.
    pub fn is_number(self) -> bool {
        self.decimals != b' '
    }

    /// Returns how many decimals it has.
    pub fn places(self) -> usize {
        if self.decimals.is_ascii_digit() {
            usize::from(self.decimals.saturating_sub(b'0'))
        } else {
            0
        }
    }
}

/// An array or a table: its name, its number of entries, and the form of each.
#[derive(Clone, Copy)]
pub struct Array {
    pub name: Word,
    pub entries: usize,
    pub form: Form,
}

/// Returns the table or array with this name on an E card, given the first column of the name and of the length. None if the columns
/// can't be read.
fn table_at(card: &Card, name: &[u8], first: usize, length: usize) -> Option<Array> {
    if name.is_empty() || !is(card.value(first, first.saturating_add(5)), name) {
        return None;
    }
    Some(Array {
        name: Word::of(name),
        entries: card.number(36, 39)?,
        form: Form::of(
            card.number(length, length.saturating_add(2))?,
            card.column(length.saturating_add(4)),
        ),
    })
}

/// Whether a card defines a table or an array with this name.
pub fn is_table(seen: &Seen, name: &[u8]) -> bool {
    let card = &seen.card;
    is_card(seen, b'E') && (is(card.value(27, 32), name) || is(card.value(46, 51), name))
}

/// Returns the table or array with this name, the last one in the deck.
fn table_of(view: &View, name: &[u8]) -> Option<Array> {
    let mut found = None;
    for seen in view.cards.iter() {
        if is_card(seen, b'E') {
            let first = table_at(&seen.card, name, 27, 40);
            found = table_at(&seen.card, name, 46, 52).or(first).or(found);
        }
    }
    found
}

/// Returns the array with this name.
pub fn array_of(view: &View, name: &[u8]) -> Option<Array> {
    match name {
        [b'T', b'A', b'B', ..] => None,
        _ => table_of(view, name),
    }
}

/// Returns the form that an input field gives a name.
fn input_form(seen: &Seen, name: &[u8]) -> Option<Form> {
    let card = &seen.card;
    if !is_card(seen, b'I') || !card.is_blank(7, 16) || !is(card.value(53, 58), name) {
        return None;
    }
    let last = card.number(48, 51)?;
    let first = card.number(44, 47)?;
    let length = last.saturating_add(1).saturating_sub(first);
    Some(Form::of(length, card.column(52)))
}

/// Returns the form that a calculation gives its result.
fn result_form(seen: &Seen, name: &[u8]) -> Option<Form> {
    if !is_card(seen, b'C') || !is(seen.card.value(43, 48), name) {
        return None;
    }
    Some(Form::of(seen.card.number(49, 51)?, seen.card.column(52)))
}

/// Returns the form of a field: its first one as an input field, or else as a result.
fn field_form(view: &View, name: &[u8]) -> Option<Form> {
    let mut found = None;
    for seen in view.cards.iter() {
        if let Some(form) = input_form(seen, name) {
            return Some(form);
        }
        found = found.or(result_form(seen, name));
    }
    found
}

/// Returns the form of a name, without its index, or None if nothing defines it. UDATE and PAGE have theirs whatever the cards say.
pub fn form_of(view: &View, name: &[u8]) -> Option<Form> {
    if let Some(table) = table_of(view, name) {
        return Some(table.form);
    }
    match name {
        b"UDATE" => Some(Form::of(6, b'0')),
        b"PAGE" => Some(Form::of(4, b'0')),
        _ if is_date_part(name) => field_form(view, name).or(Some(Form::of(2, b'0'))),
        _ => field_form(view, name),
    }
}
