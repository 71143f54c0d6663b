//! The state that is kept of the cards before a card.

ghost use Rattle.std.specs.Prelude.{◌≡◌, ◌≤◌, [], ◌∷◌, ◌++◌, List, length};
ghost use Rattle.rpg_cards.specs.declared.spec_card.SpecCard.{SpecCard};
ghost use Rattle.rpg_faults_places.specs.State.{IsPlaces};

use crate::lengths::JoinedLengths;
use crate::matches::Matches;
use rpg_card_index::IndexedCards;
use rpg_cards::SpecCard;

/// The joined lengths of control fields, and the match fields.
#[derive(Clone, Copy)]
pub struct Places {
    pub(crate) lengths: JoinedLengths,
    pub(crate) matches: Matches,
}

impl Places {
    /// Returns the state before the first card.
    pub fn nothing() -> Self
        ensures { (cards : List SpecCard) → IsPlaces cards [] result }
    {
        Places {
            lengths: JoinedLengths::nothing(),
            matches: Matches::nothing(),
        }
    }

    /// Moves on to the next card. Only an I card changes control fields and match fields.
    pub fn pass(
        &mut self,
        source: &IndexedCards,
        before: &[SpecCard],
        card: &SpecCard,
        after: &[SpecCard],
    )
        requires split { source.now ≡ before.now ++ card.now ∷ after.now }
        requires few { length source.now ≤ 2000 }
        requires places { IsPlaces source.now before.now self.old }
        ensures { IsPlaces source.now (before.now ++ card.now ∷ []) self.new }
    {
        let Some(_) = card.input() else {
            return;
        };
        self.lengths = self.lengths.with(card, after);
        self.matches = self.matches.with(card, after);
    }
}
