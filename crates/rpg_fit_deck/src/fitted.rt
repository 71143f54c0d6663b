//! A rewritten deck.

ghost use Rattle.std.specs.Prelude.{◌<◌, ◌≤◌, length};

use crate::card::Card;
use crate::here::Here;
use crate::sentence::Remark;
use crate::slot::{Made, Slot};

/// A rewritten deck: the new deck, and the sentences about the source's cards.
#[derive(Drop)]
pub struct Fitted {
    pub(crate) slots: Vec<Slot>,
    /// Cards inserted after all others.
    pub(crate) end: Vec<Made>,
    /// How many cards the source has.
    pub cards: usize,
    /// The text of the new deck.
    pub new: Vec<u8>,
}

impl Fitted {
    /// Returns the sentences about a card of the source, counted from 1.
    pub fn remarks(&self, card: usize) -> &[Remark]
        ensures { 0 < length result.now → (0 < card) × (card ≤ self.now.cards) }
    {
        if card == 0 || card > self.cards {
            return &[];
        }
        match self.slots.get(card - 1) {
            Some(slot) => slot.remarks.as_slice(),
            None => &[],
        }
    }

    /// Returns how many changes of cards have a sentence.
    pub fn changes(&self) -> usize {
        let mut count: usize = 0;
        for slot in &self.slots {
            count = count.saturating_add(slot.changes());
        }
        count
    }

    /// Returns the card that replaces a card of the source, if there is one.
    pub fn replacement(&self, card: usize) -> Option<Card> {
        match self.slots.get(card.checked_sub(1)?)?.here {
            Here::Changed(card) => Some(card),
            Here::Kept | Here::Gone => None,
        }
    }

    /// Returns the card of the source that a card of the new deck comes from. Both are
    /// counted from 1.
    pub fn source_card(&self, card: usize) -> Option<usize> {
        let mut before = card.checked_sub(1)?;
        for (place, slot) in self.slots.iter().enumerate() {
            if before < slot.cards() {
                return Some(slot.source_card(before, place.saturating_add(1)));
            }
            before = before.saturating_sub(slot.cards());
        }
        Some(self.end.get(before)?.from)
    }
}
