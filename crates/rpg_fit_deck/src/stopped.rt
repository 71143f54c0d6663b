//! Why there is no new deck.

use crate::sentence::Refusal;

/// Why a deck can't be rewritten.
#[derive(Clone, Copy)]
pub enum Stopped {
    /// A rule rejects it: the first rejection.
    Refused(Refusal),
    /// It has more than 2,000 cards, or would have.
    TooMany,
    NoMemory,
}
