//! A fault's card among the others, and its contents; the lines of a source's cards.

use crate::near::NearNames;
use rpg_card_index::IndexedCards;
use rpg_cards::{Defined, SpecCard};
use rpg_faults::CardFault;
use rpg_program::form::FieldForm;
use rpg_sheet::{ColumnFault, ColumnRange, DataSpec, Entry, Factor, Word};
use rpg_text::trimmed;

/// A source's text, its cards and the names that they define. There are no cards if only the card of the fault is known.
#[derive(Clone, Copy)]
pub struct SourceCards<'a> {
    pub cards: &'a IndexedCards<'a>,
    pub near: &'a NearNames,
    pub text: &'a [u8],
}

impl<'a> SourceCards<'a> {
    pub fn of(cards: &'a IndexedCards<'a>, near: &'a NearNames, text: &'a [u8]) -> Self {
        SourceCards { cards, near, text }
    }
}

/// A card with a fault, among the cards of its source.
#[derive(Clone, Copy)]
pub(crate) struct Spot<'a> {
    pub source: SourceCards<'a>,
    pub line: &'a [u8],
    pub card: &'a SpecCard,
    /// The columns that the fault points at; None for the card as a whole.
    pub columns: Option<ColumnFault>,
}

/// Returns the text in columns, counted from 1, trimmed of blanks.
pub(crate) fn text_at(line: &[u8], first: usize, last: usize) -> &[u8] {
    let before = first.saturating_sub(1);
    let text = trimmed(line.get(before..last.min(line.len())).unwrap_or(&[]));
    let blanks = text.iter().take_while(|byte| **byte == b' ').count();
    text.get(blanks..).unwrap_or(&[])
}

impl<'a> Spot<'a> {
    pub fn of(source: SourceCards<'a>, line: &'a [u8], fault: &CardFault) -> Option<Self> {
        Some(Spot {
            source,
            line,
            card: card_at(source.cards.as_slice(), fault.card)?,
            columns: fault.columns,
        })
    }

    pub fn column(self) -> u8 {
        self.columns.map_or(0, |columns| columns.column)
    }

    pub fn text_in(self, range: ColumnRange) -> &'a [u8] {
        let ColumnFault { column, last } = range.columns();
        text_at(self.line, usize::from(column), usize::from(last))
    }

    pub fn is_extension(self, number: u16) -> bool {
        let card = card_at(self.source.cards.as_slice(), number);
        card.is_some_and(|card| card.extension().is_some())
    }

    pub fn operation(self) -> &'a [u8] {
        text_at(self.line, 28, 32)
    }

    /// Returns the text in columns of another card; empty if the text isn't known.
    pub fn text_of_card(self, number: u16, first: usize, last: usize) -> &'a [u8] {
        let line = CardLines::of(self.source.text).line_of(number);
        text_at(line, first, last)
    }

    /// Returns the text from a column on of a card of data.
    pub fn data_of_card(self, number: u16, column: usize, length: usize) -> Option<&'a [u8]> {
        let first = column.saturating_sub(1);
        match card_at(self.source.cards.as_slice(), number)?.data()? {
            DataSpec::Card(data) => data.as_slice().get(first..first.saturating_add(length)),
            DataSpec::Begin => None,
        }
    }

    /// Returns the field in the marked columns.
    pub fn entry(self) -> Option<&'a Entry> {
        let Some(calculation) = self.card.calculation() else {
            return self.card.output_field()?.operand.as_ref();
        };
        match self.column() {
            18 => factor_entry(&calculation.factor_1),
            33 => factor_entry(&calculation.factor_2),
            43 => calculation.result_field.as_ref(),
            _ => None,
        }
    }

    pub fn first_factor(self) -> Option<&'a Entry> {
        factor_entry(&self.card.calculation()?.factor_1)
    }

    pub fn form(self, name: &Word<6>) -> Option<FieldForm> {
        match self.source.cards.form_of_name(name) {
            Defined::Valid(form) => Some(form),
            Defined::Missing | Defined::Bad => None,
        }
    }

    pub fn definer(self, name: &[u8]) -> Option<&'a SpecCard> {
        definer(self.source.cards.as_slice(), name)
    }
}

pub fn definer<'a>(cards: &'a [SpecCard], name: &[u8]) -> Option<&'a SpecCard> {
    cards.iter().find(|card| defines(card, name))
}

/// Returns the card with this number. No more cards come before it than its number says, and only comments are left out.
fn card_at(cards: &[SpecCard], number: u16) -> Option<&SpecCard> {
    let before = cards.get(..usize::from(number)).unwrap_or(cards);
    let card = before.iter().rfind(|card| card.number <= number)?;
    (card.number == number).then_some(card)
}

fn defines(card: &SpecCard, name: &[u8]) -> bool {
    let definitions = card.definitions();
    let mut definitions = definitions.as_slice().iter();
    definitions.any(|definition| definition.name.as_slice() == name)
}

fn factor_entry(factor: &Option<Factor>) -> Option<&Entry> {
    match factor {
        Some(Factor::Entry(entry)) => Some(entry),
        Some(Factor::Literal(_)) | None => None,
    }
}

/// Iterates over the lines of a source.
#[derive(Drop)]
pub struct CardLines<'a> {
    rest: &'a [u8],
    line: &'a [u8],
    card: u16,
}

impl<'a> CardLines<'a> {
    pub fn of(source: &'a [u8]) -> Self {
        CardLines {
            rest: source,
            line: &[],
            card: 0,
        }
    }

    /// Whether lines come after the last one requested.
    pub fn has_more(&self) -> bool {
        !self.rest.is_empty()
    }

    /// Returns the line of a card, which isn't before the last one requested. Empty for card 0 and for cards after the
    /// last.
    pub fn line_of(&mut self, card: u16) -> &'a [u8] {
        for _ in self.card..card {
            if self.rest.is_empty() {
                self.line = &[];
                break;
            }
            (self.line, self.rest) = rpg_text::first_line(self.rest);
        }
        self.card = self.card.max(card);
        self.line
    }
}
