//! The primary and secondary files of a deck, and the record types of one.

use crate::indicator_use::{IndicatorUse, UseKind};
use crate::list::List;
use crate::record_type::{RecordType, record_types};
use rpg_fit_deck::{Card, Seen, View, Word};
use rpg_fit_terms::{Conjunction, Indicator, Outcome, is, is_card};
use std::alloc::Global;

/// Returns the name of an F card's file.
pub fn file_name(file: &Seen) -> &[u8] {
    file.card.value(7, 14)
}

/// Returns the cards of the primary and secondary files.
pub fn files_read(view: &View) -> List<Seen> {
    let mut found = List::new(view.alloc);
    for seen in &view.cards {
        let is_read = matches!(seen.card.column(15), b'I' | b'C' | b'U')
            && matches!(seen.card.column(16), b'P' | b'S');
        if is_read && is_card(seen, b'F') {
            found.push(*seen);
        }
    }
    found
}

/// Returns the card of the file with a name.
pub fn file_card<'a>(view: &'a View, name: &[u8]) -> Option<&'a Seen> {
    let mut cards = view.cards.iter();
    cards.find(|seen| is_card(*seen, b'F') && is(file_name(*seen), name))
}

/// Returns the length of a file's records.
pub fn record_length(file: &Card) -> Option<usize> {
    if file.is_blank(24, 27) {
        file.number(20, 23)
    } else {
        file.number(24, 27)
    }
}

/// Returns the card of a file with records of another length.
pub fn with_record_length(file: &Card, length: usize) -> Card {
    let digits = Word::of_number(length);
    file.with(20, 23, &[]).with_right(24, 27, digits.text())
}

/// The record types of a deck, and one of its files.
#[derive(Drop)]
pub struct FileTypes {
    /// The name of the file.
    pub file: Word,
    /// The types of all files.
    pub all: Vec<RecordType>,
    /// The indicators of the file's types, each once.
    pub indicators: List<Indicator>,
}

impl FileTypes {
    /// Returns those of a deck, for a file.
    pub fn of(view: &View, file: Word) -> Outcome<FileTypes> {
        let all = record_types(view)?;
        let indicators = indicators_of(view.alloc, all.as_slice(), file.text());
        indicators.check()?;
        Ok(FileTypes {
            file,
            all,
            indicators,
        })
    }

    /// Whether an indicator is one of its types'.
    pub fn has(&self, indicator: Indicator) -> bool {
        self.indicators.as_slice().contains(&indicator)
    }

    /// Whether a card turns an indicator on or off, other than as that of the file's types.
    pub fn is_changed(&self, one: &IndicatorUse) -> bool {
        match one.kind {
            UseKind::Field | UseKind::Result => true,
            UseKind::Type => one.form == b'I' && !self.is_own(one),
            UseKind::Asked => false,
        }
    }

    /// Whether an indicator stands on the card of one of the file's types.
    fn is_own(&self, one: &IndicatorUse) -> bool {
        self.all.iter().any(|kind| kind.is_of(self.file.text()) && kind.head.at == one.at)
    }

    /// Returns the first indicator of its types that a condition wants on.
    pub fn type_in(&self, condition: &Conjunction) -> Option<Indicator> {
        let mut terms = condition.terms().iter();
        let term = terms.find(|term| !term.is_off && self.has(term.indicator))?;
        Some(term.indicator)
    }
}

/// Returns the indicators of a file's types, each once.
fn indicators_of(alloc: Global, types: &[RecordType], file: &[u8]) -> List<Indicator> {
    let mut found = List::new(alloc);
    for kind in types {
        let indicator = Indicator::at(&kind.head.card, 19);
        if kind.is_of(file) && !found.as_slice().contains(&indicator) {
            found.push(indicator);
        }
    }
    found
}
