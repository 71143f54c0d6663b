//! The cards of a source, with an index of their labels.

ghost use Rattle.std.specs.Prelude.{◌≡◌, ◌≤◌, length, IfOk};

use crate::index::Labels;
use rpg_card_index::IndexedCards;
use std::alloc::{AllocError, Global};

/// The cards of a source, with an index of their labels.
#[derive(Drop)]
pub struct AnalyzedCards<'a> {
    pub cards: &'a IndexedCards<'a>,
    pub labels: Labels<'a>,
    pub ghost few: { length cards.now ≤ 2000 },
    pub ghost same: { labels ≡ cards.now },
}

impl<'a> AnalyzedCards<'a> {
    /// Finds the labels. Fails only if memory runs out.
    pub fn new(alloc: Global, cards: &'a IndexedCards<'a>) -> Result<Self, AllocError>
        requires { length cards.now ≤ 2000 }
        ensures { IfOk result (λ analyzed. analyzed.cards.now ≡ cards.now) }
    {
        let labels = Labels::new(alloc, cards.as_slice())?;
        Ok(AnalyzedCards { cards, labels })
    }
}
