//! The cards of a source, with the first place of each name, constant and file.

ghost use Rattle.std.specs.Prelude.{◌≡◌, ◌+◌, ◌*◌, ◌^◌, ◌<◌, ◌≤◌, ◌∷◌, ◌++◌, [], length, not, take, option_copied, position, IfOk};
ghost use Rattle.std.specs.List.{list_all, list_any};
ghost use Rattle.rpg_cards.specs.Constants as constants;
ghost use Rattle.rpg_cards.specs.Constants.{constants_in, is_same};
ghost use Rattle.rpg_cards.specs.Files as files;
ghost use Rattle.rpg_cards.specs.First.{first_at};
ghost use Rattle.rpg_card_index.specs.Index.{defined_first, file_of_card_at, has_some_form, place_before, placed_definition, IsIndexOf, IsNewAt, first_file, is_file_named};
ghost use Rattle.rpg_cards.specs.Levels as levels;
ghost use Rattle.rpg_cards.specs.Names as names;
ghost use Rattle.rpg_cards.specs.Names.{is_of};
ghost use Rattle.rpg_card_index.specs.Totals as totals;

use crate::constant_index::ConstantIndex;
use crate::first_files::FirstFiles;
use crate::name_index::{FirstDefinition, NameIndex};
use rpg_cards::{
    Constant, Defined, FileUse, SpecCard, factor_constant, given_form, has_match_field, page_of,
};
use rpg_paper::Page;
use rpg_sheet_specs::{Factor, FileSpec, Word};
use rpg_symbols::{Name, Totals};
use std::alloc::{AllocError, Global};
use std::marker::Model;

/// The most cards that an index takes. A source without faults has at most 2,000.
const MOST_CARDS: usize = 1_000_000_000;

/// The names, constants and files of some cards, to look them up in constant time.
#[derive(Drop)]
pub struct CardIndex {
    names: NameIndex,
    constants: ConstantIndex,
    files: FirstFiles,
    has_match_field: bool,
    page: Page,
}

impl CardIndex {
    fn new(alloc: Global, cards: &[SpecCard]) -> Result<Self, AllocError>
        ensures { IfOk result (λ index. IsIndexOf index cards.now) }
    {
        if cards.len() > MOST_CARDS {
            return Err(AllocError);
        }
        let mut names = NameIndex::with_capacity(alloc, cards.len())?;
        let mut constants = ConstantIndex::with_capacity(alloc, 2 * cards.len())?;
        for card in cards {
            names.note_card(card)?;
            constants.note_card(card)?;
        }
        Ok(CardIndex {
            names,
            constants,
            files: FirstFiles::of(alloc, cards)?,
            has_match_field: has_match_field(cards),
            page: page_of(cards),
        })
    }

    /// Returns these cards with their index.
    pub fn over(self, cards: &[SpecCard]) -> IndexedCards<'_>
        requires { IsIndexOf self cards.now }
        ensures { result ≡ cards.now }
    {
        IndexedCards { cards, index: self }
    }
}

/// The cards of a source, with constant-time lookup of names, constants and files.
#[derive(Drop)]
pub struct IndexedCards<'a> {
    cards: &'a [SpecCard],
    index: CardIndex,
}

impl<'a> Model for IndexedCards<'a> {
    ghost use Rattle.std.specs.Prelude.{List, ◌≡◌};
    ghost use Rattle.rpg_cards.specs.declared.spec_card.SpecCard.{SpecCard};

    ghost Value = { List SpecCard };

    ghost use Rattle.rpg_card_index.specs.Index.{IsIndexOf};

    ghost view = { λ i. i.cards.now };

    ghost invariant = { λ i. IsIndexOf i.index i.cards.now };
}

impl<'a> IndexedCards<'a> {
    /// Indexes the names, constants and files of cards. Fails only if memory runs out or there are more than 1,000,000,000 cards.
    pub fn new(alloc: Global, cards: &'a [SpecCard]) -> Result<Self, AllocError>
        ensures { IfOk result (λ indexed. indexed ≡ cards.now) }
    {
        Ok(CardIndex::new(alloc, cards)?.over(cards))
    }

    /// Returns the index without the cards.
    pub fn into_index(self) -> CardIndex
        ensures { IsIndexOf result self.entry }
    {
        self.index
    }

    pub fn as_slice(&self) -> &'a [SpecCard]
        ensures { result.now ≡ self.now }
    {
        self.cards
    }

    /// There are fewer than 2^64 definitions, and fewer than 2^64 constants. Does nothing: its contract is the law.
    pub fn keeps_limit(&self)
        ensures definitions { length (names.definitions self.now) < 2 ^ 64 }
        ensures constants { length (constants_in self.now) < 2 ^ 64 }
    {
        let _definitions = self.index.names.count();
        let _constants = self.index.constants.count();
    }

    /// Whether each definition has a form.
    pub fn all_have_forms(&self) -> bool
        ensures { result ≡ list_all has_some_form (names.definitions self.now) }
    {
        self.index.names.all_have_forms()
    }

    /// Returns the cards before a card, and the card.
    pub fn up_to(&self, before: &[SpecCard], card: &SpecCard, after: &[SpecCard]) -> &'a [SpecCard]
        requires { self.now ≡ before.now ++ card.now ∷ after.now }
        ensures { result.now ≡ before.now ++ card.now ∷ [] }
    {
        &self.cards[..before.len() + 1]
    }

    /// Returns the form of a name's first definition. UDATE and PAGE are defined before all cards.
    pub fn form_of_name(&self, name: &Name) -> Defined
        ensures { result ≡ names.form_of_name name.now self.now }
    {
        match given_form(name) {
            Some(form) => Defined::Valid(form),
            None => defined_first(self.first_definition(name)),
        }
    }

    /// Returns the form of a name by the first `place` definitions.
    pub fn form_before(&self, name: &Name, place: usize) -> Defined
        ensures { result ≡ names.form_by name.now (take place (names.definitions self.now)) }
    {
        match given_form(name) {
            Some(form) => Defined::Valid(form),
            None => defined_first(self.first_before(name, place)),
        }
    }

    /// Whether a name is neither predefined nor among the first `place` definitions.
    pub fn is_new_name(&self, place: usize, name: &Name) -> bool
        ensures { result ≡ names.is_new_name name.now (take place (names.definitions self.now)) }
    {
        given_form(name).is_none() && self.first_before(name, place).is_none()
    }

    fn first_definition(&self, name: &Name) -> Option<FirstDefinition>
        ensures { result ≡ first_at (is_of name.now) placed_definition 0 (names.definitions self.now) }
    {
        self.index.names.first(name)
    }

    /// Returns the first definition of a name, if it is among the first `place`.
    fn first_before(&self, name: &Name, place: usize) -> Option<FirstDefinition>
        ensures { result ≡ first_at (is_of name.now) placed_definition 0 (take place (names.definitions self.now)) }
    {
        match self.index.names.first(name) {
            Some(first) if first.place < place => Some(first),
            _ => None,
        }
    }

    /// Returns the form of a factor: a literal's own, or that of a name's first definition.
    pub fn form_of_factor(&self, factor: &Factor) -> Defined
        ensures { result ≡ constants.form_of_factor factor.now self.now }
    {
        match factor {
            Factor::Entry(entry) => self.form_of_name(&entry.name),
            Factor::Literal(_) => match factor_constant(factor) {
                None => Defined::Missing,
                Some(constant) => Defined::Valid(constant.form()),
            },
        }
    }

    /// Returns how many names the first `count` definitions define, and their bytes, with the date and the page number.
    pub fn name_totals(&self, count: usize) -> Totals
        ensures value { result ≡ totals.name_totals (take count (names.definitions self.now)) }
        ensures few { result.number ≤ 2 + length (names.definitions self.now) }
        ensures few_bytes { result.bytes ≤ 10 + 4294967295 * length (names.definitions self.now) }
    {
        self.index.names.totals(count)
    }

    /// Returns how many names there are, and their bytes, with the date and the page number.
    pub fn all_names(&self) -> Totals
        ensures value { result ≡ totals.name_totals (names.definitions self.now) }
        ensures few { result.number ≤ 2 + length (names.definitions self.now) }
        ensures few_bytes { result.bytes ≤ 10 + 4294967295 * length (names.definitions self.now) }
    {
        self.index.names.all()
    }

    /// Returns how many different constants there are among the first `count`, and their bytes.
    pub fn constant_totals(&self, count: usize) -> Totals
        ensures value { result ≡ totals.constant_totals (take count (constants_in self.now)) }
        ensures few { result.number ≤ 2 + length (constants_in self.now) }
        ensures few_bytes { result.bytes ≤ 10 + 4294967295 * length (constants_in self.now) }
    {
        self.index.constants.totals(count)
    }

    /// Returns how many different constants there are, and their bytes.
    pub fn all_constants(&self) -> Totals
        ensures value { result ≡ totals.constant_totals (constants_in self.now) }
        ensures few { result.number ≤ 2 + length (constants_in self.now) }
        ensures few_bytes { result.bytes ≤ 10 + 4294967295 * length (constants_in self.now) }
    {
        self.index.constants.all()
    }

    /// Whether the definition at a place is the first of its name, and the name isn't UDATE or PAGE.
    pub fn is_first_name(&self, place: usize) -> bool
        ensures { IsNewAt (names.definitions self.now) place (λ d before. names.is_new_name d.name before) result }
    {
        self.index.names.counts(place)
    }

    /// Whether the constant at a place is the first of its kind.
    pub fn is_first_constant(&self, place: usize) -> bool
        ensures { IsNewAt (constants_in self.now) place (λ x before. not (list_any (is_same x) before)) result }
    {
        self.index.constants.counts(place)
    }

    /// Returns a name's place among the different names, or None if it isn't defined.
    pub fn name_place(&self, name: &Name) -> Option<u64>
        ensures { result ≡ position (is_of name.now) (names.names self.now) }
    {
        match given_place(name) {
            Some(place) => Some(place),
            None => {
                let first = self.first_definition(name)?;
                Some(self.name_totals(first.place).number)
            }
        }
    }

    /// Returns a constant's place among the different constants, or None if no card has it.
    pub fn constant_place(&self, constant: &Constant) -> Option<u64>
        ensures { result ≡ position (is_same constant.now) (constants.constants self.now) }
    {
        let first = self.index.constants.first(constant)?;
        Some(self.constant_totals(first).number)
    }

    /// Returns the place of the first F card with this name, counted from 0.
    pub fn file_place(&self, name: &Word<8>) -> Option<usize>
        ensures { result ≡ first_file (is_file_named name.now) self.now }
    {
        self.index.files.named(name)
    }

    /// Returns the first F card with this name.
    pub fn file_named(&self, name: &Word<8>) -> Option<&'a FileSpec>
        ensures { option_copied result ≡ files.file_named name.now self.now }
    {
        self.file_named_before(name, self.cards.len())
    }

    /// Returns the first F card with this name, if it is among the first `count` cards.
    pub(crate) fn file_named_before(&self, name: &Word<8>, count: usize) -> Option<&'a FileSpec>
        ensures { option_copied result ≡ files.file_named name.now (take count self.now) }
    {
        self.file_at(self.index.files.named(name), count)
    }

    /// Returns the first file with this use.
    pub fn file_for(&self, file_use: FileUse) -> Option<&'a FileSpec>
        ensures { option_copied result ≡ files.file_for file_use self.now }
    {
        self.file_for_before(file_use, self.cards.len())
    }

    /// Returns the first file with this use, if it is among the first `count` cards.
    pub(crate) fn file_for_before(&self, file_use: FileUse, count: usize) -> Option<&'a FileSpec>
        ensures { option_copied result ≡ files.file_for file_use (take count self.now) }
    {
        self.file_at(self.index.files.used(file_use), count)
    }

    /// Returns the file on the card at a place, if that is among the first `count` cards.
    fn file_at(&self, place: Option<usize>, count: usize) -> Option<&'a FileSpec>
        ensures { option_copied result ≡ file_of_card_at self.now (place_before count place) }
    {
        match place {
            Some(place) if place < count => self.cards.get(place)?.file(),
            _ => None,
        }
    }

    /// Whether a field has a match level, so that conditions may test MR.
    pub fn has_match_field(&self) -> bool
        ensures { result ≡ levels.has_match_field self.now }
    {
        self.index.has_match_field
    }

    /// Returns the page of the printer's form.
    pub fn page(&self) -> Page
        ensures { result ≡ files.page_of self.now }
    {
        self.index.page
    }
}

fn defined_first(first: Option<FirstDefinition>) -> Defined
    ensures { result ≡ defined_first first }
{
    let Some(first) = first else {
        return Defined::Missing;
    };
    match first.form {
        None => Defined::Bad,
        Some(form) => Defined::Valid(form),
    }
}

/// Returns the place of a name that every program has.
fn given_place(name: &Name) -> Option<u64>
    ensures { result ≡ position (is_of name.now) names.given_names }
{
    match name.as_slice() {
        b"UDATE" => Some(0),
        b"PAGE" => Some(1),
        _ => None,
    }
}
