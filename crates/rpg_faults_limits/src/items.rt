//! How many definitions and constants cards have.

ghost use Rattle.std.specs.Prelude.{◌∷◌, [], ◌++◌, ◌≤◌, length};
ghost use Rattle.rpg_faults_limits.specs.State.{AreItems, AreItemsOrKept};

use crate::storage::keeps_storage;
use rpg_card_index::IndexedCards;
use rpg_cards::SpecCard;

/// How many definitions of names and how many constants the cards before a card have.
#[derive(Clone, Copy)]
pub struct Items {
    pub names: usize,
    pub constants: usize,
}

/// Returns the counts before the first card, or None if all names and constants of the source are within the limits.
pub(crate) fn items_to_count(source: &IndexedCards) -> Option<Items>
    requires { length source.now ≤ 2000 }
    ensures { AreItemsOrKept source.now [] result }
{
    if keeps_storage(source) {
        None
    } else {
        Some(Items::NONE)
    }
}

/// Returns the counts with one more card, if there are any.
pub(crate) fn items_with(
    source: &IndexedCards,
    items: Option<Items>,
    before: &[SpecCard],
    card: &SpecCard,
) -> Option<Items>
    requires few { length before.now ≤ 2000 }
    requires items { AreItemsOrKept source.now before.now items }
    ensures { AreItemsOrKept source.now (before.now ++ card.now ∷ []) result }
{
    let _ = source;
    match items {
        None => None,
        Some(items) => Some(items.with(before, card)),
    }
}

impl Items {
    /// The counts before the first card.
    pub(crate) const NONE: Items = Items {
        names: 0,
        constants: 0,
    };

    /// Returns the counts with one more card.
    pub(crate) fn with(self, before: &[SpecCard], card: &SpecCard) -> Self
        requires few { length before.now ≤ 2000 }
        requires items { AreItems before.now self }
        ensures { AreItems (before.now ++ card.now ∷ []) result }
    {
        Items {
            names: self.names + card.definition_count(),
            constants: self.constants + card.constant_count(),
        }
    }
}
