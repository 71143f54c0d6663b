//! Renames fields and arrays of a deck.

use crate::form::is_table;
use crate::fresh::FreshNames;
use crate::name::{Columns, is, name_columns};
use crate::operand::Operand;
use crate::stop::{Outcome, RuleStop};
use rpg_fit_deck::{Card, Editor, Sentence, View, Word};
use std::alloc::Global;

/// The most characters of a result.
const RESULT: usize = 6;

/// Whether a calculation names labels or subroutines, which aren't fields.
fn names_labels(card: &Card) -> bool {
    let operation = card.value(28, 32);
    let is_called = is(operation, b"EXSR") || is(operation, b"BEGSR") || is(operation, b"ENDSR");
    is_called || is(operation, b"GOTO") || is(operation, b"TAG")
}

/// Returns a card with the new name in columns that have the old one, or None if they don't.
fn renamed_in(card: Card, columns: &Columns, old: &[u8], new: &[u8]) -> Option<Card> {
    let text = card.value(columns.0, columns.1);
    if !is(Operand::of(text).name, old) {
        return None;
    }
    let index = text.get(old.len()..).unwrap_or(&[]);
    let renamed = Word::of(new).and(index);
    Some(card.with(columns.0, columns.1, renamed.text()))
}

/// Returns a card with the new name wherever it has the old one, or None if it doesn't have it.
fn renamed(card: &Card, old: &[u8], new: &[u8]) -> Option<Card> {
    if card.is_comment() || card.form() == b'C' && names_labels(card) {
        return None;
    }
    let mut found = None;
    let mut now = *card;
    for columns in name_columns(card.form()) {
        if let Some(changed) = renamed_in(now, columns, old, new) {
            now = changed;
            found = Some(changed);
        }
    }
    found
}

/// Renames a field or an array on all cards, as part of the change of the card `with`. Labels and subroutines keep their names.
pub fn rename(editor: &mut Editor, view: &View, old: &[u8], new: &[u8], with: usize) {
    for seen in view.cards.iter() {
        if let Some(card) = renamed(&seen.card, old, new) {
            editor.change(seen.at, card, with);
        }
    }
}

/// Returns the number of the card that defines an array, or 0.
fn card_of(view: &View, name: &[u8]) -> usize {
    for seen in view.cards.iter() {
        if is_table(seen, name) {
            return seen.number;
        }
    }
    0
}

/// Hands out names for arrays whose own are too long. The names of a stem are tried once, not anew for each array.
#[derive(Drop)]
pub struct ShortNames {
    stems: Vec<FreshNames>,
}

impl ShortNames {
    /// Starts with all that no card has.
    pub fn new(alloc: Global) -> ShortNames {
        ShortNames {
            stems: Vec::new(alloc),
        }
    }

    /// Returns the next name of a stem that no card has, of at most `room` characters, or None if all are in use.
    fn find(&mut self, view: &View, stem: &[u8], room: usize) -> Outcome<Option<Word>> {
        for names in &mut self.stems {
            if names.is_of(stem, room) {
                return Ok(names.find(view));
            }
        }
        let mut names = FreshNames::of(stem, room);
        let found = names.find(view);
        self.stems.push(names)?;
        Ok(found)
    }

    /// Returns a name that no card has, of at most `room` characters, with the same beginning if possible.
    fn shorter(&mut self, view: &View, name: &[u8], room: usize, card: usize) -> Outcome<Word> {
        let stem = name.get(..room).unwrap_or(name);
        if let Some(new) = self.find(view, stem, room)? {
            return Ok(new);
        }
        match self.find(view, b"#", room)? {
            Some(new) => Ok(new),
            None => Err(RuleStop::because(card, "no name is free")),
        }
    }

    /// Returns an array's name with room for a comma and an index in a result. If its own is too long, it is renamed on all cards, and its
    /// card gets a sentence about that. Rejects the deck if no name is free.
    pub fn with_room(&mut self, editor: &mut Editor, name: &[u8], index: Word) -> Outcome<Word> {
        let old = Word::of(name);
        let room = RESULT.saturating_sub(index.len().saturating_add(1));
        if old.len() <= room {
            return Ok(old);
        }
        let view = editor.view()?;
        self.renamed(editor, &view, name, room)
    }

    /// Renames an array to a name of at most `room` characters, with a sentence about that.
    fn renamed(
        &mut self,
        editor: &mut Editor,
        view: &View,
        name: &[u8],
        room: usize,
    ) -> Outcome<Word> {
        let card = card_of(view, name);
        let new = self.shorter(view, name, room, card)?;
        let remark = "% is called %, so that an index has room";
        editor.report(card, Sentence::with(remark, &[Word::of(name), new]));
        rename(editor, view, name, new.text(), card);
        Ok(new)
    }
}
