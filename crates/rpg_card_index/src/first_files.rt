//! The first F card of each name and of each use. Keys with the first value that each is given.

ghost use Rattle.std.specs.Prelude.{◌≡◌, Some, None, is_none, nat_eq, if◌then◌else◌, IfOk, OnOk};
ghost use Rattle.std.specs.Cmp.Lexicographic.{pointwise};
ghost use Rattle.std.specs.Map.{lookup};
ghost use Rattle.std.specs.Option.{option_or};
ghost use Rattle.rpg_card_index.specs.Index.{first_with, with_use, AreFirstFiles, NotesFile};

use rpg_cards::{FileUse, SpecCard, use_of};
use rpg_sheet_specs::Word;
use std::alloc::{AllocError, Global};
use std::collections::HashMap;
use std::collections::hash_map::Entry;
use std::hash::Hash;

/// The place of the first F card with each use.
#[derive(Clone, Copy)]
pub struct FirstUses {
    primary: Option<usize>,
    secondary: Option<usize>,
    printer: Option<usize>,
    disk: Option<usize>,
}

/// The place of the first F card with each name, and of the first with each use.
#[derive(Drop)]
pub struct FirstFiles {
    names: HashMap<Word<8>, usize>,
    uses: FirstUses,
}

const NO_USES: FirstUses = FirstUses {
    primary: None,
    secondary: None,
    printer: None,
    disk: None,
};

impl FirstFiles {
    /// Finds the first F cards. A source without a fault has at most four, so no room is reserved.
    pub(crate) fn of(alloc: Global, cards: &[SpecCard]) -> Result<Self, AllocError>
        ensures { IfOk result (λ files. AreFirstFiles files cards.now) }
    {
        let mut files = FirstFiles {
            names: HashMap::new(alloc),
            uses: NO_USES,
        };
        let mut place = 0;
        for card in cards {
            files.note(place, card)?;
            place += 1;
        }
        Ok(files)
    }

    /// Notes the name and the use of a card's file, unless they are known.
    fn note(&mut self, place: usize, card: &SpecCard) -> Result<(), AllocError>
        ensures { OnOk result (NotesFile place card.now self.old self.new) }
    {
        let Some(file) = card.file() else {
            return Ok(());
        };
        let _ = note(&mut self.names, Word::new(file.name.as_slice()), place)?;
        self.uses.note(use_of(file), place);
        Ok(())
    }

    /// Returns the place of the first F card with this name.
    pub(crate) fn named(&self, name: &Word<8>) -> Option<usize>
        ensures { result ≡ lookup (pointwise nat_eq name.now) self.now.names.entries }
    {
        self.names.get(name).copied()
    }

    /// Returns the place of the first F card with this use.
    pub(crate) fn used(&self, file_use: FileUse) -> Option<usize>
        ensures { result ≡ first_with self.now.uses file_use }
    {
        match file_use {
            FileUse::Primary => self.uses.primary,
            FileUse::Secondary => self.uses.secondary,
            FileUse::Printer => self.uses.printer,
            FileUse::Disk => self.uses.disk,
        }
    }
}

impl FirstUses {
    fn note(&mut self, file_use: FileUse, place: usize)
        ensures { self.new ≡ with_use file_use place self.old }
    {
        match file_use {
            FileUse::Primary => self.primary = self.primary.or(Some(place)),
            FileUse::Secondary => self.secondary = self.secondary.or(Some(place)),
            FileUse::Printer => self.printer = self.printer.or(Some(place)),
            FileUse::Disk => self.disk = self.disk.or(Some(place)),
        }
    }
}

/// Stores a value under a key that has none. Returns whether it had none.
pub(crate) fn note<K: Eq + Hash + Drop, V: Drop>(
    map: &mut HashMap<K, V>,
    key: K,
    value: V,
) -> Result<bool, AllocError>
    ensures map { OnOk result ((q : K) → lookup (K.eq q) map.new.entries ≡ option_or (lookup (K.eq q) map.old.entries) (if K.eq q key then Some value else None)) }
    ensures first { IfOk result (λ is_first. is_first ≡ is_none (lookup (K.eq key) map.old.entries)) }
{
    let entry = map.entry(key)?;
    let is_first = matches!(&entry, Entry::Vacant(_));
    entry.or_insert(value);
    Ok(is_first)
}
