//! Numbers of names.

ghost use Rattle.std.specs.Prelude.{◌≡◌, ◌+◌, ◌<◌, ℕ, List, [], ◌∷◌, Option, length, option_copied, IfOk, OnOk};
ghost use Rattle.rpg_cards.specs.Statements.{statement_of};
ghost use Rattle.rpg_cards.specs.Sections.{callee, label_on};
ghost use Rattle.rpg_compile_program.specs.Code.{label_place, sizes};
ghost use Rattle.rpg_compile.specs.Numbers as numbers_of;
ghost use Rattle.rpg_compile.specs.Walk.{section_in, subroutines_in};

use crate::part::{Part, given_name, next_in, next_subroutine};
use indexmap::IndexMap;
use rpg_cards::SpecCard;
use rpg_sheet_specs::{CalculationSpec, Operation};
use rpg_symbols::Name;
use std::alloc::{AllocError, Global};

/// Numbers by name: the places of a section's labels, or the numbers of the subroutines.
#[derive(Drop)]
pub(crate) struct NameNumbers {
    numbers: IndexMap<Name, u16>,
    /// The number of any other name.
    otherwise: u16,
}

impl NameNumbers {
    pub(crate) fn new(alloc: Global) -> Self {
        NameNumbers {
            numbers: IndexMap::new(alloc),
            otherwise: 0,
        }
    }

    /// Numbers the subroutines of these cards from 0. Any other name gets the number after the last.
    pub(crate) fn of_subroutines(alloc: Global, cards: &[SpecCard]) -> Result<Self, AllocError>
        requires { length (subroutines_in cards.now) < 65536 }
        ensures { IfOk result (λ t. (n : Option (List ℕ)) → numbers_of.number_by t n ≡ callee n (subroutines_in cards.now)) }
    {
        let mut numbers = IndexMap::new(alloc);
        let otherwise = note_subroutines(&mut numbers, cards)?;
        Ok(NameNumbers { numbers, otherwise })
    }

    /// Replaces the labels by those of a section that begins at `first`. Any other label gets the place of the section's end, which is
    /// returned.
    pub(crate) fn note_section(
        &mut self,
        part: Part,
        cards: &[SpecCard],
        first: u16,
    ) -> Result<u16, AllocError>
        requires { first + sizes (section_in part cards.now) < 65536 }
        ensures places { OnOk result ((l : Option (List ℕ)) → numbers_of.number_by self.new l ≡ label_place l (section_in part cards.now) first) }
        ensures end { IfOk result (λ end. end ≡ first + sizes (section_in part cards.now)) }
    {
        self.numbers.clear();
        let end = note_labels(&mut self.numbers, part, cards, first)?;
        self.otherwise = end;
        Ok(end)
    }

    pub(crate) fn number_of(&self, name: Option<&Name>) -> u16
        ensures { result ≡ numbers_of.number_by self.now (option_copied name.entry) }
    {
        match name {
            None => self.otherwise,
            Some(name) => match self.numbers.get(name) {
                None => self.otherwise,
                Some(number) => *number,
            },
        }
    }
}

/// Notes the labels of a section that begins at `first`. Returns the place after the section.
fn note_labels(
    places: &mut IndexMap<Name, u16>,
    part: Part,
    cards: &[SpecCard],
    first: u16,
) -> Result<u16, AllocError>
    requires { first + sizes (section_in part cards.now) < 65536 }
    ensures noted { OnOk result (numbers_of.NumbersMore (numbers_of.labels_from first (section_in part cards.now)) places.old.entries places.new.entries) }
    ensures end { IfOk result (λ end. end ≡ first + sizes (section_in part cards.now)) }
{
    let mut place = first;
    let mut rest = cards;
    while let Some((group, following)) = next_in(part, rest) {
        note(places, label_on(group.last()), place)?;
        place += group.size();
        rest = following;
    }
    Ok(place)
}

/// Notes the names of subroutines. Returns their count.
fn note_subroutines(
    numbers: &mut IndexMap<Name, u16>,
    cards: &[SpecCard],
) -> Result<u16, AllocError>
    requires { length (subroutines_in cards.now) < 65536 }
    ensures noted { OnOk result (numbers_of.NumbersMore (numbers_of.names_from 0 (subroutines_in cards.now)) numbers.old.entries numbers.new.entries) }
    ensures count { IfOk result (λ count. count ≡ length (subroutines_in cards.now)) }
{
    let mut count = 0;
    let mut rest = cards;
    while let Some((name, following)) = next_subroutine(rest) {
        note(numbers, name, count)?;
        count += 1;
        rest = following;
    }
    Ok(count)
}

/// Gives a name this number, unless it has one.
fn note(
    numbers: &mut IndexMap<Name, u16>,
    name: Option<&Name>,
    number: u16,
) -> Result<(), AllocError>
    ensures { OnOk result (numbers_of.NumbersMore (numbers_of.with_numbered_name (option_copied name.entry) number []) numbers.old.entries numbers.new.entries) }
{
    match name {
        None => Ok(()),
        Some(name) => note_name(numbers, Name::new(name.as_slice()), number),
    }
}

fn note_name(numbers: &mut IndexMap<Name, u16>, name: Name, number: u16) -> Result<(), AllocError>
    ensures { OnOk result (numbers_of.NumbersMore ((name, number) ∷ []) numbers.old.entries numbers.new.entries) }
{
    if numbers.contains_key(&name) {
        return Ok(());
    }
    numbers.insert(name, number)?;
    Ok(())
}

/// Returns the label of a TAG or ENDSR.
fn label_on(calculation: &CalculationSpec) -> Option<&Name>
    ensures { option_copied result ≡ label_on (statement_of calculation.now) }
{
    match calculation.operation? {
        Operation::Label | Operation::EndSubroutine => given_name(calculation),
        _ => None,
    }
}
