//! The state that is kept of the cards before a card.

ghost use Rattle.std.specs.Prelude.{◌≡◌, ◌∷◌, [], ◌++◌, ◌≤◌, length};
ghost use Rattle.rpg_faults_limits.specs.State.{AreLimits};

use crate::calculations::Calculations;
use crate::items::{Items, items_to_count, items_with};
use crate::lines::OpenLine;
use crate::types::OpenType;
use rpg_card_index::IndexedCards;
use rpg_cards::SpecCard;

/// What the limits need of the cards before a card.
#[derive(Clone, Copy)]
pub struct Limits {
    /// None if all names and constants of the source are within the limits.
    pub(crate) items: Option<Items>,
    pub(crate) calculations: Calculations,
    pub(crate) open_type: OpenType,
    pub(crate) open_line: OpenLine,
}

impl Limits {
    /// Returns the state before the first card.
    pub fn before_all(source: &IndexedCards) -> Self
        requires { length source.now ≤ 2000 }
        ensures { AreLimits source.now [] source.now result }
    {
        Limits {
            items: items_to_count(source),
            calculations: Calculations::NONE,
            open_type: OpenType::NONE,
            open_line: OpenLine::NONE,
        }
    }

    /// Moves on to the next card, in place, since the state is large.
    pub fn pass(
        &mut self,
        source: &IndexedCards,
        before: &[SpecCard],
        card: &SpecCard,
        after: &[SpecCard],
    )
        requires few { length before.now ≤ 2000 }
        requires limits { AreLimits source.now before.now (card.now ∷ after.now) self.old }
        ensures { AreLimits source.now (before.now ++ card.now ∷ []) after.now self.new }
    {
        self.items = items_with(source, self.items, before, card);
        self.calculations = self.calculations.with(before, card, after);
        self.open_type.pass(before, card);
        self.open_line.pass(before, card);
    }
}
