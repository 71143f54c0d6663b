//! Record types.

use crate::list::List;
use rpg_fit_deck::{Card, Editor, Seen, View, Word};
use rpg_fit_terms::{Done, Outcome, is, is_card};
use std::alloc::Global;

/// A record type, or a data structure, whose file is empty.
#[derive(Drop)]
pub struct RecordType {
    pub head: Seen,
    /// Its AND and OR cards.
    pub more: Vec<Seen>,
    pub fields: Vec<Seen>,
    pub file: Word,
}

impl RecordType {
    /// Whether it is a type of a file, and isn't looked ahead.
    pub fn is_of(&self, file: &[u8]) -> bool {
        is(self.file.text(), file) && !self.is_looked_ahead()
    }

    /// Whether its fields are those of the next record.
    pub fn is_looked_ahead(&self) -> bool {
        matches!(self.head.card.columns(19, 20), b"**")
    }

    /// Whether it has a control field.
    pub(crate) fn has_levels(&self) -> bool {
        for field in self.fields.iter() {
            if !field.card.is_blank(59, 60) {
                return true;
            }
        }
        false
    }

    /// Returns the cards with its codes.
    pub fn code_cards(&self, alloc: Global) -> List<Seen> {
        let mut cards = List::new(alloc);
        cards.push(self.head);
        cards.push_all(self.more.as_slice());
        cards
    }

    /// Returns its last card.
    pub fn last(&self) -> &Seen {
        match self.fields.last() {
            Some(last) => last,
            None => self.more.last().unwrap_or(&self.head),
        }
    }
}

/// Whether a card of a type or a line begins another alternative.
pub fn is_or(seen: &Seen) -> bool {
    matches!(seen.card.columns(14, 15), b"OR")
}

/// Whether an I card adds or alternates codes of a type: AND or OR in 14 to 16.
fn continues(card: &Card) -> bool {
    card.is_blank(7, 13) && matches!(card.columns(14, 16), b"OR " | b"AND")
}

/// Whether an I card begins a data structure.
pub fn is_structure(card: &Card) -> bool {
    matches!(card.columns(19, 20), b"DS") && card.is_blank(43, 58)
}

/// Appends a card to the type that it belongs to.
fn push_to_last(found: &mut Vec<RecordType>, seen: &Seen) -> Done {
    if let Some(kind) = found.last_mut() {
        if continues(&seen.card) {
            kind.more.push(*seen)?;
        } else {
            kind.fields.push(*seen)?;
        }
    }
    Ok(())
}

/// Appends a card to the type that it belongs to, or the type that it begins. `file`: that of the previous
/// type.
fn push_card(alloc: Global, found: &mut Vec<RecordType>, file: &mut Word, seen: &Seen) -> Done {
    let is_structure = is_structure(&seen.card);
    if continues(&seen.card) || seen.card.is_blank(7, 16) && !is_structure {
        return push_to_last(found, seen);
    }
    if !seen.card.is_blank(7, 14) && !is_structure {
        *file = Word::of(seen.card.value(7, 14));
    }
    found.push(RecordType {
        head: *seen,
        more: Vec::new(alloc),
        fields: Vec::new(alloc),
        file: if is_structure { Word::empty() } else { *file },
    })?;
    Ok(())
}

/// Returns the record types of a deck in its present form.
pub fn types_now(editor: &Editor) -> Outcome<Vec<RecordType>> {
    record_types(&editor.view()?)
}

/// Returns the record types of a deck, in order, each with the name of its file.
pub fn record_types(view: &View) -> Outcome<Vec<RecordType>> {
    let mut found = Vec::new(view.alloc);
    let mut file = Word::empty();
    for seen in view.cards.iter() {
        if is_card(seen, b'I') {
            push_card(view.alloc, &mut found, &mut file, seen)?;
        }
    }
    Ok(found)
}

/// A deck's cards, and its record types.
#[derive(Drop)]
pub struct DeckTypes {
    pub view: View,
    pub types: Vec<RecordType>,
}

impl DeckTypes {
    /// Returns those of a deck in its present form.
    pub fn of(editor: &Editor) -> Outcome<DeckTypes> {
        let view = editor.view()?;
        let types = record_types(&view)?;
        Ok(DeckTypes { view, types })
    }
}

/// Puts the name of its file on each type's card, as part of the change of the card `with`.
pub fn name_types(editor: &mut Editor, types: &[RecordType], with: usize) {
    for kind in types {
        let head = &kind.head;
        if !is(head.card.value(7, 14), kind.file.text()) && !is_structure(&head.card) {
            editor.change(head.at, head.card.with(7, 14, kind.file.text()), with);
        }
    }
}
