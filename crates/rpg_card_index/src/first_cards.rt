//! The first cards of a source, with the index of the whole source.

ghost use Rattle.std.specs.Prelude.{◌≡◌, ◌∷◌, ◌++◌, take, option_copied};
ghost use Rattle.rpg_cards.specs.Files as files;

use crate::index::IndexedCards;
use rpg_cards::{FileUse, SpecCard};
use rpg_sheet_specs::{FileSpec, Word};
use std::marker::Model;

/// The first cards of a source, with constant-time lookup of their files.
#[derive(Drop)]
pub struct FirstCards<'a> {
    source: &'a IndexedCards<'a>,
    count: usize,
}

impl<'a> Model for FirstCards<'a> {
    ghost use Rattle.std.specs.Prelude.{List, take};
    ghost use Rattle.rpg_cards.specs.declared.spec_card.SpecCard.{SpecCard};

    ghost Value = { List SpecCard };

    ghost view = { λ f. take f.count f.source.now };
}

impl<'a> FirstCards<'a> {
    /// Returns the first `count` cards of a source, or all if it has fewer.
    pub fn of(source: &'a IndexedCards<'a>, count: usize) -> Self
        ensures { result ≡ take count source.now }
    {
        FirstCards { source, count }
    }

    /// Returns the cards before a card.
    pub fn before(
        source: &'a IndexedCards<'a>,
        before: &[SpecCard],
        card: &SpecCard,
        after: &[SpecCard],
    ) -> Self
        requires { source.now ≡ before.now ++ card.now ∷ after.now }
        ensures { result ≡ before.now }
    {
        FirstCards::of(source, before.len())
    }

    /// Returns the first F card with this name.
    pub fn file_named(&self, name: &Word<8>) -> Option<&'a FileSpec>
        ensures { option_copied result ≡ files.file_named name.now self.now }
    {
        self.source.file_named_before(name, self.count)
    }

    /// Returns the first file with this use.
    pub fn file_for(&self, file_use: FileUse) -> Option<&'a FileSpec>
        ensures { option_copied result ≡ files.file_for file_use self.now }
    {
        self.source.file_for_before(file_use, self.count)
    }
}
