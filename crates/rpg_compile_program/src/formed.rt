//! Names with their first forms, for a source in which a definition has no form. A source without a fault has no such definition.

ghost use Rattle.std.specs.Prelude.{◌≡◌, ◌<◌, Some, length, slice_get, IfOk, OnOk, position, nat_eq};
ghost use Rattle.std.specs.Cmp.Lexicographic.{pointwise};
ghost use Rattle.std.specs.Map.{keys_of};
ghost use Rattle.rpg_cards.specs.Names.{definitions_on};
ghost use Rattle.rpg_compile_program.specs.Numbered.{AreFormed};
ghost use Rattle.rpg_compile_program.specs.Table as fields;
ghost use Rattle.rpg_symbols.specs.Fields.{given};

use indexmap::IndexMap;
use rpg_card_index::IndexedCards;
use rpg_cards::{Definition, SpecCard};
use rpg_program::form::{Class, FieldForm};
use rpg_symbols::{Name, number_form};
use std::alloc::{AllocError, Global};
use std::marker::Model;

/// UDATE, PAGE and the other names that have a form, in the order of their first definitions with one.
#[derive(Drop)]
pub(crate) struct FormedNames {
    forms: IndexMap<Name, FieldForm>,
}

impl Model for FormedNames {
    ghost use Rattle.rpg_symbols.specs.Fields.{NamedForms};

    ghost Value = { NamedForms };

    ghost view = { λ n. n.forms.entries };
}

impl FormedNames {
    /// Returns the names that have a form, or None if each definition has one. The index of the cards then numbers the names.
    pub(crate) fn unless_all(
        alloc: Global,
        source: &IndexedCards,
    ) -> Result<Option<Self>, AllocError>
        ensures { IfOk result (λ formed. AreFormed formed source.now) }
    {
        if source.all_have_forms() {
            return Ok(None);
        }
        Ok(Some(FormedNames::of_cards(alloc, source.as_slice())?))
    }

    fn of_cards(alloc: Global, cards: &[SpecCard]) -> Result<Self, AllocError>
        ensures { IfOk result (λ names. names ≡ fields.defined_fields cards.now) }
    {
        let mut names = FormedNames::given(alloc)?;
        for card in cards {
            names.add_names_on(card)?;
        }
        Ok(names)
    }

    fn given(alloc: Global) -> Result<Self, AllocError>
        ensures { IfOk result (λ names. names ≡ given) }
    {
        let mut forms = IndexMap::new(alloc);
        forms.insert(Name::new(b"UDATE"), number_form(Class::Date, 6))?;
        forms.insert(Name::new(b"PAGE"), number_form(Class::Plain, 4))?;
        Ok(FormedNames { forms })
    }

    /// Adds the names that a card defines.
    fn add_names_on(&mut self, card: &SpecCard) -> Result<(), AllocError>
        ensures { OnOk result (self.new ≡ fields.with_definitions self.old (definitions_on card.now.spec)) }
    {
        let definitions = card.definitions();
        for definition in definitions.as_slice() {
            self.add_name(definition)?;
        }
        Ok(())
    }

    /// Adds the name of a definition, if it has a form and the name is new.
    fn add_name(&mut self, definition: &Definition) -> Result<(), AllocError>
        ensures { OnOk result (self.new ≡ fields.with_definition self.old definition.now) }
    {
        let Some(form) = definition.form else {
            return Ok(());
        };
        let name = Name::new(definition.name.as_slice());
        if !self.forms.contains_key(&name) {
            self.forms.insert(name, form)?;
        }
        Ok(())
    }

    /// Returns how many names there are.
    pub(crate) fn len(&self) -> usize
        ensures { result ≡ length self.now }
    {
        self.forms.len()
    }

    /// Returns the name at a place, and its form.
    pub(crate) fn at(&self, place: usize) -> (&Name, &FieldForm)
        requires { place < length self.now }
        ensures { slice_get self.now place ≡ Some (result.0.now, result.1.now) }
    {
        match self.forms.get_index(place) {
            Some((name, form)) => (name, form),
            None => unreachable!(),
        }
    }

    /// Returns the place of a name, or None if it has no form.
    pub(crate) fn place(&self, name: &Name) -> Option<usize>
        ensures { result ≡ position (pointwise nat_eq name.now) (keys_of self.now) }
    {
        self.forms.get_index_of(name)
    }
}
