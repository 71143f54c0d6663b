//! The fields of a program's names.

ghost use Rattle.std.specs.Prelude.{◌≡◌, ◌+◌, [], Some, length, slice_get, IfOk, OnOk};
ghost use Rattle.rpg_cards.specs.Names.{definitions, definitions_on};
ghost use Rattle.rpg_card_index.specs.Index.{StandAt};
ghost use Rattle.rpg_compile_program.specs.Names.{AddsField, AddsNames, AreFieldsOf};
ghost use Rattle.rpg_compile_program.specs.Defined.{AreDefined};
ghost use Rattle.rpg_compile_program.specs.Table as fields;
ghost use Rattle.rpg_symbols.specs.Fields.{given};

use crate::formed::FormedNames;
use crate::loaded::Loaded;
use rpg_card_index::IndexedCards;
use rpg_cards::{Definition, SpecCard};
use rpg_program::form::{Class, FieldForm};
use rpg_program::value::FieldValues;
use rpg_symbols::{Name, number_form};
use std::alloc::{AllocError, Global};

/// The forms of fields and their values before the first cycle, in numeric order.
#[derive(Drop)]
pub(crate) struct FieldRows {
    pub(crate) forms: Vec<FieldForm>,
    pub(crate) values: Vec<FieldValues>,
}

impl FieldRows {
    /// Returns the fields of these names, with room for `room` fields.
    pub(crate) fn of_names(
        alloc: Global,
        loaded: &Loaded,
        names: &FormedNames,
        room: usize,
    ) -> Result<Self, AllocError>
        ensures { IfOk result (AreFieldsOf loaded.now names.now) }
    {
        let mut fields = FieldRows::with_capacity(alloc, room)?;
        for place in 0..names.len() {
            let (name, form) = names.at(place);
            fields.add_name(alloc, loaded, name, *form)?;
        }
        Ok(fields)
    }

    /// Returns the fields of the names that cards define, with room for `room` fields.
    pub(crate) fn of_cards(
        alloc: Global,
        loaded: &Loaded,
        source: &IndexedCards,
        room: usize,
    ) -> Result<Self, AllocError>
        requires { AreDefined source.now }
        ensures { IfOk result (AreFieldsOf loaded.now (fields.defined_fields source.now)) }
    {
        let mut fields = FieldRows::given(alloc, loaded, room)?;
        let mut place = 0;
        for card in source.as_slice() {
            place = fields.add_names_on(alloc, loaded, source, place, card)?;
        }
        Ok(fields)
    }

    /// Returns an empty list of fields with room for `room`.
    fn with_capacity(alloc: Global, room: usize) -> Result<Self, AllocError>
        ensures { IfOk result (AreFieldsOf [] []) }
    {
        Ok(FieldRows {
            forms: Vec::with_capacity(alloc, room)?,
            values: Vec::with_capacity(alloc, room)?,
        })
    }

    /// Returns the fields that every program has, with room for `room` fields.
    fn given(alloc: Global, loaded: &Loaded, room: usize) -> Result<Self, AllocError>
        ensures { IfOk result (AreFieldsOf loaded.now given) }
    {
        let mut fields = FieldRows::with_capacity(alloc, room)?;
        fields.add_name(
            alloc,
            loaded,
            &Name::new(b"UDATE"),
            number_form(Class::Date, 6),
        )?;
        fields.add_name(
            alloc,
            loaded,
            &Name::new(b"PAGE"),
            number_form(Class::Plain, 4),
        )?;
        Ok(fields)
    }

    /// Adds the fields of the names that a card is the first to define. Its first definition is at `start`. Returns the place after its last definition.
    fn add_names_on(
        &mut self,
        alloc: Global,
        loaded: &Loaded,
        source: &IndexedCards,
        start: usize,
        card: &SpecCard,
    ) -> Result<usize, AllocError>
        requires defined { AreDefined source.now }
        requires stand { StandAt start (definitions_on card.now.spec) (definitions source.now) }
        ensures place { IfOk result (λ place. place ≡ start + length (definitions_on card.now.spec)) }
        ensures added { IfOk result (λ place. AddsNames loaded.now source.now start place self.old self.new) }
    {
        source.keeps_limit();
        let definitions = card.definitions();
        let mut place = start;
        for definition in definitions.as_slice() {
            self.add_name_if_first(alloc, loaded, source, place, definition)?;
            place += 1;
        }
        Ok(place)
    }

    /// Adds the field of the definition at a place, if it is the first of its name.
    fn add_name_if_first(
        &mut self,
        alloc: Global,
        loaded: &Loaded,
        source: &IndexedCards,
        place: usize,
        definition: &Definition,
    ) -> Result<(), AllocError>
        requires defined { AreDefined source.now }
        requires stands { slice_get (definitions source.now) place ≡ Some definition.now }
        ensures { OnOk result (AddsNames loaded.now source.now place (place + 1) self.old self.new) }
    {
        if !source.is_first_name(place) {
            return Ok(());
        }
        match definition.form {
            Some(form) => self.add_name(alloc, loaded, &definition.name, form),
            None => unreachable!(),
        }
    }

    /// Adds the field of a name.
    fn add_name(
        &mut self,
        alloc: Global,
        loaded: &Loaded,
        name: &Name,
        form: FieldForm,
    ) -> Result<(), AllocError>
        ensures { OnOk result (AddsField loaded.now name.now form self.old self.new) }
    {
        self.forms.push(form)?;
        self.values.push(loaded.values_of(alloc, name, &form)?)?;
        Ok(())
    }
}
