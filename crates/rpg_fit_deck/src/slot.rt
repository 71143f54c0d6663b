//! The slot of a card: the cards inserted before it, what happened to it, and the sentences about it.

ghost use Rattle.std.specs.Prelude.{◌≡◌, true, vec_len};
ghost use Rattle.rpg_fit_deck.specs.Kept.{is_kept};

use crate::card::Card;
use crate::here::Here;
use crate::sentence::{Remark, What};
use std::alloc::{AllocError, Global};

/// The outcome of a step that allocates.
pub(crate) type Done = Result<(), AllocError>;

/// A card that a rule inserted.
#[derive(Clone, Copy)]
pub(crate) struct Made {
    /// Its own number among the inserted cards, from 1.
    pub id: usize,
    /// The number of the card that it was derived from.
    pub from: usize,
    pub card: Card,
}

/// The slot of a card of the source.
#[derive(Drop)]
pub(crate) struct Slot {
    pub before: Vec<Made>,
    pub here: Here,
    pub remarks: Vec<Remark>,
    ghost reported_if_changed: { vec_len remarks ≡ 0 → is_kept here ≡ true },
}

impl Slot {
    /// Returns the slot of an unchanged card.
    pub fn new(alloc: Global) -> Slot
        ensures { vec_len result.remarks ≡ 0 }
    {
        Slot {
            before: Vec::new(alloc),
            here: Here::Kept,
            remarks: Vec::new(alloc),
        }
    }

    /// Returns how many changes of the card have a sentence.
    pub fn changes(&self) -> usize {
        let remarks = self.remarks.iter();
        remarks
            .filter(|remark| matches!(remark.what, What::Change(_)))
            .count()
    }

    /// Returns how many cards the new deck has here.
    pub fn cards(&self) -> usize {
        let here = usize::from(!matches!(self.here, Here::Gone));
        self.before.len().saturating_add(here)
    }

    /// Returns the card of the source that a card in this slot comes from. `own`: that of the slot
    /// itself.
    pub fn source_card(&self, place: usize, own: usize) -> usize {
        match self.before.get(place) {
            Some(made) => made.from,
            None => own,
        }
    }
}
