//! The data of arrays and tables, by their names.

ghost use Rattle.std.specs.Prelude.{◌≡◌, [], ◌∷◌, ◌++◌, map, false, IfOk, OnOk};
ghost use Rattle.rpg_program.specs.Values.{entries_held};
ghost use Rattle.rpg_compile_program.specs.Loaded.{HasSameData, TakesDeck, tables_after};
ghost use Rattle.rpg_compile_program.specs.Tables.{values_on};
ghost use Rattle.rpg_faults_flow.specs.Kept.{KeepsRule};
ghost use Rattle.rpg_faults_limits.specs.Names.{bad_size, bad_size_of_tables};
ghost use Rattle.rpg_compile_program.specs.Data as loads;

use crate::tables::TableData;
use crate::values::empty_values;
use indexmap::IndexMap;
use rpg_cards::SpecCard;
use rpg_faults_data::{after_next, data_columns};
use rpg_program::form::FieldForm;
use rpg_program::value::FieldValues;
use rpg_sheet_specs::ExtensionSpec;
use rpg_symbols::Name;
use std::alloc::{AllocError, Global};
use std::marker::Model;

/// The data of arrays and tables. If a name has data twice, the first data count.
#[derive(Drop)]
pub(crate) struct Loaded<'a> {
    tables: IndexMap<Name, TableData<'a>>,
}

impl<'a> Model for Loaded<'a> {
    ghost use Rattle.std.specs.Prelude.{List, map};
    ghost use Rattle.rpg_compile_program.specs.Data as loads;
    ghost use Rattle.rpg_compile_program.specs.Tables.{values_on};

    ghost Value = { List loads.Loaded };

    ghost view = { λ l. map (λ e. (e.0, values_on e.1)) l.tables.entries };
}

impl<'a> Loaded<'a> {
    /// Returns the data of all cards: the E cards with entries per card take the decks in order.
    pub(crate) fn of_cards(alloc: Global, cards: &'a [SpecCard]) -> Result<Self, AllocError>
        requires sizes { KeepsRule (λ before c after. bad_size c) cards.now }
        ensures { IfOk result (λ l. HasSameData l (loads.loaded cards.now)) }
    {
        let mut loaded = Loaded {
            tables: IndexMap::new(alloc),
        };
        let mut decks = cards;
        for card in cards {
            if let Some(extension) = card.extension() {
                decks = loaded.take_deck(extension, decks)?;
            }
        }
        Ok(loaded)
    }

    /// Adds the tables of an E card, which takes the first of these decks if it expects one. Returns the cards with the remaining
    /// decks.
    fn take_deck(
        &mut self,
        extension: &'a ExtensionSpec,
        decks: &'a [SpecCard],
    ) -> Result<&'a [SpecCard], AllocError>
        requires { bad_size_of_tables extension.now ≡ false }
        ensures { IfOk result (λ rest. TakesDeck extension.now self.old decks.now self.new rest.now) }
    {
        let Some(per_card) = extension.entries_per_card else {
            return Ok(decks);
        };
        let Some(deck) = after_next(decks) else {
            return Ok(&[]);
        };
        self.add_tables(extension, per_card, deck)?;
        Ok(deck)
    }

    fn add_tables(
        &mut self,
        extension: &'a ExtensionSpec,
        per_card: u16,
        deck: &'a [SpecCard],
    ) -> Result<(), AllocError>
        requires { bad_size_of_tables extension.now ≡ false }
        ensures { OnOk result (HasSameData self.new (self.old ++ tables_after extension.now per_card deck.now)) }
    {
        let width = data_columns(extension);
        let first = TableData {
            table: &extension.table,
            entries: extension.entries,
            per_card,
            width,
            from: 0,
            deck,
        };
        self.add(first)?;
        if let Some(table) = &extension.alternating {
            self.add(TableData {
                table,
                entries: extension.entries,
                per_card,
                width,
                from: extension.table.length,
                deck,
            })?;
        }
        Ok(())
    }

    /// Adds a table, unless its name has data.
    fn add(&mut self, table: TableData<'a>) -> Result<(), AllocError>
        ensures { OnOk result (HasSameData self.new (self.old ++ (table.entry.table.now.name, values_on table.entry) ∷ [])) }
    {
        let name = Name::new(table.table.name.as_slice());
        if !self.tables.contains_key(&name) {
            self.tables.insert(name, table)?;
        }
        Ok(())
    }

    /// Returns the values of a field: its data, or zeros or blanks if it has none.
    pub(crate) fn values_of(
        &self,
        alloc: Global,
        name: &Name,
        form: &FieldForm,
    ) -> Result<FieldValues, AllocError>
        ensures { IfOk result (λ v. entries_held v ≡ loads.field_values self.now (name.now, form.now)) }
    {
        // Most sources have no data: this saves a lookup.
        if self.tables.is_empty() {
            return empty_values(alloc, form);
        }
        match self.tables.get(name) {
            Some(table) => table.values(alloc),
            None => empty_values(alloc, form),
        }
    }
}
