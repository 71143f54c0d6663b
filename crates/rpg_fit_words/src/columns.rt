//! The columns of a calculation's operands.

use rpg_fit_deck::Card;

/// The columns of an operand of a calculation.
#[derive(Clone, Copy)]
pub enum Columns {
    Factor1,
    Factor2,
    Result,
}

impl Columns {
    /// The columns of all three operands, in order.
    pub const ALL: [Columns; 3] = [Columns::Factor1, Columns::Factor2, Columns::Result];

    /// Returns the first and the last column.
    fn span(self) -> (usize, usize) {
        match self {
            Columns::Factor1 => (18, 27),
            Columns::Factor2 => (33, 42),
            Columns::Result => (43, 48),
        }
    }

    /// Returns the text in them, trimmed of blanks.
    pub fn value(self, card: &Card) -> &[u8] {
        let (first, last) = self.span();
        card.value(first, last)
    }

    /// Returns a card with a text in them.
    pub fn put(self, card: Card, text: &[u8]) -> Card {
        let (first, last) = self.span();
        card.with(first, last, text)
    }
}
