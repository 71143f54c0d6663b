//! What happened to a card.

use crate::card::Card;

/// What is at the place of a card.
#[derive(Clone, Copy)]
pub(crate) enum Here {
    /// The original card.
    Kept,
    /// Another card.
    Changed(Card),
    /// Nothing.
    Gone,
}
