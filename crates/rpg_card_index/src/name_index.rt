//! The first definition of each name, and how many names there are.

ghost use Rattle.std.specs.Prelude.{◌≡◌, ◌∷◌, [], length, map, nat_eq, IfOk, OnOk};
ghost use Rattle.std.specs.Cmp.Lexicographic.{pointwise};
ghost use Rattle.std.specs.Map.{lookup};
ghost use Rattle.std.specs.Option.{option_map_or};
ghost use Rattle.rpg_card_index.specs.Index.{IsNameIndex, KnowsAtMost, Notes};
ghost use Rattle.rpg_cards.specs.Names as names;
ghost use Rattle.rpg_cards.specs.Names.{definitions_on};
ghost use Rattle.rpg_program.specs.Forms.{size_of};
ghost use Rattle.rpg_symbols.specs.Totals.{is_counted_at, first_totals};

use crate::first_files::note;
use rpg_cards::{
    Definition, SpecCard, field_definition, given_form, result_definition, table_definition,
};
use rpg_program::form::FieldForm;
use rpg_sheet_specs::{ExtensionSpec, InputSpec, Spec};
use rpg_symbols::{Name, RunningTotals, Totals};
use std::alloc::{AllocError, Global};
use std::collections::HashMap;

/// The place of a name's first definition among all definitions, and its form: None if that is over a limit.
#[derive(Clone, Copy)]
pub struct FirstDefinition {
    pub(crate) place: usize,
    pub(crate) form: Option<FieldForm>,
}

/// The first definition of each name, and the totals of the names.
#[derive(Drop)]
pub struct NameIndex {
    first: HashMap<Name, FirstDefinition>,
    totals: RunningTotals,
    all_have_forms: bool,
}

impl NameIndex {
    /// Returns the index of no definitions, with room for `count`.
    pub(crate) fn with_capacity(alloc: Global, count: usize) -> Result<Self, AllocError>
        ensures { IfOk result (IsNameIndex []) }
    {
        Ok(NameIndex {
            first: HashMap::with_capacity(alloc, count)?,
            totals: RunningTotals::with_capacity(alloc, Totals::GIVEN, count)?,
            all_have_forms: true,
        })
    }

    /// Notes what a card defines.
    pub(crate) fn note_card(&mut self, card: &SpecCard) -> Result<(), AllocError>
        requires { KnowsAtMost 2000000000 IsNameIndex self.old }
        ensures { OnOk result (Notes IsNameIndex (definitions_on card.now.spec) self.old self.new) }
    {
        match &card.spec {
            Spec::Extension(extension) => self.note_tables(extension),
            Spec::Input(InputSpec::Field(field)) => self.note(field_definition(field)),
            Spec::Calculation(calculation) => match result_definition(calculation) {
                None => Ok(()),
                Some(definition) => self.note(definition),
            },
            _ => Ok(()),
        }
    }

    fn note_tables(&mut self, extension: &ExtensionSpec) -> Result<(), AllocError>
        requires { KnowsAtMost 2000000000 IsNameIndex self.old }
        ensures { OnOk result (Notes IsNameIndex (map (names.definition_in extension.now) (names.tables_on extension.now)) self.old self.new) }
    {
        self.note(table_definition(extension.entries, &extension.table))?;
        match &extension.alternating {
            None => Ok(()),
            Some(table) => {
                self.note(table_definition(extension.entries, table))?;
                Ok(())
            }
        }
    }

    /// Notes a definition. Its name counts unless it is known, or one that every program has.
    fn note(&mut self, definition: Definition) -> Result<(), AllocError>
        requires { KnowsAtMost 2000000001 IsNameIndex self.old }
        ensures { OnOk result (Notes IsNameIndex (definition ∷ []) self.old self.new) }
    {
        let Definition { name, form } = definition;
        self.all_have_forms &= form.is_some();
        let is_given = given_form(&name).is_some();
        let place = self.totals.count();
        let is_first = note(&mut self.first, name, FirstDefinition { place, form })?;
        let is_new = is_first && !is_given;
        self.totals.push(is_new, bytes_of(form))?;
        Ok(())
    }

    /// Returns the number of definitions.
    pub(crate) fn count(&self) -> usize
        ensures { result ≡ length self.now.totals.before }
    {
        self.totals.count()
    }

    /// Whether each definition has a form.
    pub(crate) fn all_have_forms(&self) -> bool
        ensures { result ≡ self.now.all_have_forms }
    {
        self.all_have_forms
    }

    /// Returns the first definition of a name.
    pub(crate) fn first(&self, name: &Name) -> Option<FirstDefinition>
        ensures { result ≡ lookup (pointwise nat_eq name.now) self.now.first.entries }
    {
        self.first.get(name).copied()
    }

    /// Returns the totals of the first `count` definitions.
    pub(crate) fn totals(&self, count: usize) -> Totals
        ensures { result ≡ first_totals self.now.totals count }
    {
        self.totals.first(count)
    }

    pub(crate) fn all(&self) -> Totals
        ensures { result ≡ self.now.totals.all }
    {
        self.totals.all()
    }

    /// Whether the definition at a place is the first of its name, and the name isn't UDATE or PAGE.
    pub(crate) fn counts(&self, place: usize) -> bool
        ensures { result ≡ is_counted_at self.now.totals place }
    {
        self.totals.counts(place)
    }
}

/// Returns the bytes that a defined name takes; 0 without a form.
fn bytes_of(form: Option<FieldForm>) -> u32
    ensures { result ≡ option_map_or size_of form 0 }
{
    match form {
        None => 0,
        Some(form) => form.size(),
    }
}
