//! The data after the sheets: a `**` card with the data after it is a deck, and the E cards that want data take the decks in order.

ghost use Rattle.std.specs.Prelude.{◌≡◌, ◌≤◌, [], ◌∷◌, ◌++◌, List, length, option_map, MatchOption};
ghost use Rattle.rpg_cards.specs.Groups.{data_role, groups};
ghost use Rattle.rpg_cards.specs.declared.spec_card.SpecCard.{SpecCard};
ghost use Rattle.rpg_faults_data.specs.Causes.{after_deck_begin, begins_table_data};
ghost use Rattle.rpg_faults_data.specs.Data as rules;
ghost use Rattle.rpg_faults_data.specs.Data.{wanted};
ghost use Rattle.rpg_faults_data.specs.Decks.{AreDecks, BeginsDeck, deck};

use rpg_cards::SpecCard;
use rpg_sheet_specs::DataSpec;

/// What the data after the sheets needs of the cards before a card.
#[derive(Clone, Copy)]
pub struct Decks<'a> {
    /// The cards from the first deck on that no E card has taken.
    rest: &'a [SpecCard],
    /// How many E cards of the source expect a deck.
    pub(crate) wanted: usize,
    /// How many decks begin on the cards before.
    pub(crate) begun: u16,
}

impl<'a> Decks<'a> {
    /// Returns the state before the first card.
    pub fn all(cards: &'a [SpecCard]) -> Self
        ensures { AreDecks cards.now [] result }
    {
        Decks {
            rest: cards,
            wanted: cards.iter().filter(|card| expects_data(card)).count(),
            begun: 0,
        }
    }

    /// Returns the state after one more card.
    pub fn with(self, before: &[SpecCard], card: &SpecCard) -> Self
        requires { length before.now ≤ 2000 }
        ensures { (cards : List SpecCard) → AreDecks cards before.now self.entry → AreDecks cards (before.now ++ card.now ∷ []) result }
    {
        if expects_data(card) {
            Decks {
                rest: after_next(self.rest).unwrap_or(&[]),
                ..self
            }
        } else if begins_deck(card) {
            Decks {
                begun: self.begun.saturating_add(1),
                ..self
            }
        } else {
            self
        }
    }

    /// Returns the cards after the `**` card of the deck that the next E card takes.
    pub(crate) fn next(self) -> Option<&'a [SpecCard]>
        ensures { (cards before : List SpecCard) → AreDecks cards before self.entry → option_map (λ f. f.now) result ≡ after_deck_begin (wanted before) cards }
    {
        after_next(self.rest)
    }
}

/// Whether a card describes a table with data in the source.
fn expects_data(card: &SpecCard) -> bool
    ensures { result ≡ rules.expects_data card.now }
{
    match card.extension() {
        None => false,
        Some(extension) => extension.entries_per_card.is_some(),
    }
}

/// Whether a card is a `**` card.
fn begins_deck(card: &SpecCard) -> bool
    ensures value { result ≡ begins_table_data card.now }
    ensures groups { BeginsDeck card.now result }
{
    matches!(card.data(), Some(DataSpec::Begin))
}

/// Returns the cards after the next `**` card.
pub fn after_next(cards: &[SpecCard]) -> Option<&[SpecCard]>
    ensures groups { MatchOption result (groups data_role cards.now ≡ []) (λ following. groups data_role cards.now ≡ deck following.now ∷ groups data_role following.now) }
    ensures first { option_map (λ following. following.now) result ≡ after_deck_begin 0 cards.now }
{
    let mut rest = cards;
    while let Some((card, following)) = rest.split_first() {
        if begins_deck(card) {
            return Some(following);
        }
        rest = following;
    }
    None
}
