//! The cards in their present form, as rules see them.

use crate::card::Card;
use crate::here::Here;
use crate::marks::begins_data;
use crate::slot::{Done, Made, Slot};
use std::alloc::{AllocError, Global};

/// The address of a card: the slot of a card of the source, and the number of a card inserted before
/// it, or 0.
#[derive(Clone, Copy, PartialEq, Eq)]
pub struct Address {
    pub(crate) slot: usize,
    pub(crate) made: usize,
}

impl Address {
    /// Returns the address of a card of the source, or that after all of them.
    fn of(slot: usize) -> Address {
        Address { slot, made: 0 }
    }
}

/// A card, its address, and the number of its card of the source.
#[derive(Clone, Copy)]
pub struct Seen {
    pub at: Address,
    pub number: usize,
    pub card: Card,
    /// How many columns its line has.
    pub width: usize,
}

/// The cards of a deck and the lines of its data, in order.
#[derive(Drop)]
pub struct View {
    /// The allocator of the deck.
    pub alloc: Global,
    /// The cards before the first `**` card.
    pub cards: Vec<Seen>,
    /// The data, including the `**` cards.
    pub data: Vec<Seen>,
    /// The address after the cards.
    pub cards_end: Address,
    /// The address after all cards and data.
    pub end: Address,
    /// The card `/*` that ends the source.
    pub last: Option<Seen>,
    in_data: bool,
}

impl View {
    pub(crate) fn new(alloc: Global, lines: usize) -> View {
        let end = Address::of(lines);
        View {
            alloc,
            cards: Vec::new(alloc),
            data: Vec::new(alloc),
            cards_end: end,
            end,
            last: None,
            in_data: false,
        }
    }

    /// Begins data, of which all following lines are part.
    fn begin_data(&mut self, at: Address) {
        if !self.in_data {
            self.in_data = true;
            self.cards_end = at;
        }
    }

    /// Ends the source with a line.
    pub(crate) fn end_at(&mut self, slot: usize, line: &[u8], here: &Here) {
        self.end = Address::of(slot);
        self.last = seen_at(slot, line, here);
        if !self.in_data {
            self.cards_end = self.end;
        }
    }

    fn push(&mut self, seen: Seen) -> Done {
        if self.in_data {
            self.data.push(seen)?;
        } else {
            self.cards.push(seen)?;
        }
        Ok(())
    }

    pub(crate) fn push_made(&mut self, slot: usize, cards: &[Made]) -> Done {
        for made in cards {
            let at = Address {
                slot,
                made: made.id,
            };
            if begins_data(made.card.columns(1, 80)) {
                self.begin_data(at);
            }
            self.push(Seen {
                at,
                number: made.from,
                card: made.card,
                width: 80,
            })?;
        }
        Ok(())
    }

    /// Appends the cards of a slot: those inserted before the card, and what is in its place.
    pub(crate) fn push_slot(&mut self, place: usize, line: &[u8], slot: &Slot) -> Done {
        self.push_made(place, slot.before.as_slice())?;
        if begins_data(line) {
            self.begin_data(Address::of(place));
        }
        match seen_at(place, line, &slot.here) {
            Some(seen) => self.push(seen),
            None => Ok(()),
        }
    }
}

/// Returns the card in a slot, unless it is removed.
fn seen_at(slot: usize, line: &[u8], here: &Here) -> Option<Seen> {
    let (card, width) = match here {
        Here::Kept => (Card::of(line), line.len()),
        Here::Changed(card) => (*card, 80),
        Here::Gone => return None,
    };
    Some(Seen {
        at: Address::of(slot),
        number: slot.saturating_add(1),
        card,
        width,
    })
}
