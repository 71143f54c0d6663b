//! What the rules need of the cards before a card.

ghost use Rattle.std.specs.Prelude.{◌≡◌, [], ◌∷◌, ◌++◌};
ghost use Rattle.rpg_faults.specs.Before.{AreBefore};
ghost use Rattle.rpg_faults_data.specs.Decks.{AreDecks};

use rpg_cards::SpecCard;
use rpg_causes_flow::{AnalyzedCards, Flow};
use rpg_faults_data::Decks;
use rpg_faults_flow::OpenGroup;
use rpg_faults_limits::{Limits, Sheets};
use rpg_faults_places::Places;

/// What the rules need of the cards before a card.
#[derive(Clone, Copy)]
pub(crate) struct Before<'a> {
    pub sheets: Sheets,
    pub limits: Limits,
    pub places: Places,
    pub flow: Flow,
    pub group: OpenGroup,
    pub decks: Decks<'a>,
}

impl<'a> Before<'a> {
    /// Returns the state before the first card, where no deck is taken.
    pub fn all(source: &AnalyzedCards<'a>, decks: Decks<'a>) -> Self
        requires { AreDecks source.now.cards.now [] decks }
        ensures { AreBefore source.now.cards.now [] source.now.cards.now result }
    {
        Before {
            sheets: Sheets::none(),
            limits: Limits::before_all(source.cards),
            places: Places::nothing(),
            flow: Flow::nothing(),
            group: OpenGroup::none(),
            decks,
        }
    }

    /// Moves on to the next card, in place, since the state is large.
    pub fn pass(
        &mut self,
        source: &AnalyzedCards<'a>,
        before: &[SpecCard],
        card: &SpecCard,
        after: &[SpecCard],
    )
        requires split { source.now.cards.now ≡ before.now ++ card.now ∷ after.now }
        requires known { AreBefore source.now.cards.now before.now (card.now ∷ after.now) self.old }
        ensures { AreBefore source.now.cards.now (before.now ++ card.now ∷ []) after.now self.new }
    {
        let cards = source.cards;
        self.limits.pass(cards, before, card, after);
        self.places.pass(cards, before, card, after);
        self.flow.pass(before, card, after);
        self.group.pass(card, after);
        self.decks = self.decks.with(before, card);
        self.sheets.pass(cards, before, card);
    }
}
