//! Cards of a deck, and cards that rules create.

use crate::stop::{Done, RuleStop};
use rpg_fit_deck::{Address, Card, Editor, MOST_CARDS, Seen, View, Word};

/// A card that a rule creates, and the number of the card that it is derived from.
#[derive(Clone, Copy)]
pub struct NewCard {
    pub card: Card,
    pub number: usize,
}

impl NewCard {
    /// Returns a copy of a card, without its page and line number.
    pub fn copy(seen: &Seen) -> NewCard {
        NewCard {
            card: seen.card.made(),
            number: seen.number,
        }
    }

    /// Returns a card that is blank except for its form, derived from the card with a number.
    pub fn of_form(form: u8, number: usize) -> NewCard {
        NewCard {
            card: Card::of_form(form),
            number,
        }
    }

    /// Returns this card with columns of another one.
    pub fn with_columns(self, first: usize, last: usize, other: &Card) -> NewCard {
        self.with(first, last, other.columns(first, last))
    }

    /// Returns this card with a text in columns.
    pub fn with(mut self, first: usize, last: usize, text: &[u8]) -> NewCard {
        self.card.put(first, last, text);
        self
    }

    /// Returns this card with a number at the end of columns.
    pub fn with_number(mut self, first: usize, last: usize, number: usize) -> NewCard {
        let digits = Word::of_number(number);
        self.card = self.card.with_right(first, last, digits.text());
        self
    }
}

/// Whether a card has a form and isn't a comment.
pub fn is_card(seen: &Seen, form: u8) -> bool {
    seen.card.form() == form && !seen.card.is_comment()
}

/// Inserts cards before another one, as part of the change of the card `with`. Stops if the deck already has more cards than a deck may
/// have; or if it gets more than twice as many, so that it keeps too many even if all others are removed.
pub fn put_cards(editor: &mut Editor, before: Address, cards: &[NewCard], with: usize) -> Done {
    if editor.cards() > MOST_CARDS {
        return Err(RuleStop::TooMany);
    }
    for new in cards {
        if editor.cards() > 2 * MOST_CARDS {
            return Err(RuleStop::TooMany);
        }
        editor.insert_copy(before, new.card, new.number, with);
    }
    Ok(())
}

/// Returns the address after a card, or the end of the cards.
pub fn address_after(view: &View, at: Address) -> Address {
    let mut is_following = false;
    for seen in view.cards.iter() {
        if is_following {
            return seen.at;
        }
        is_following = seen.at == at;
    }
    view.cards_end
}
