//! The numbers of names and constants.

ghost use Rattle.std.specs.Prelude.{◌≡◌, ◌<◌, nat_eq, position, IfSome};
ghost use Rattle.std.specs.Cmp.Lexicographic.{pointwise};
ghost use Rattle.std.specs.Map.{keys_of};
ghost use Rattle.rpg_cards.specs.Keys as keys;
ghost use Rattle.rpg_program.specs.Naming.{renamed_index, renamed_operand};
ghost use Rattle.rpg_compile_program.specs.Numbered.{IsNumbered};
ghost use Rattle.rpg_compile_program.specs.Table as table;

use crate::formed::FormedNames;
use rpg_card_index::IndexedCards;
use rpg_cards::{Constant, factor_constant};
use rpg_program::operation::{Index, Operand};
use rpg_sheet_specs::{Entry, EntryIndex, Factor};
use rpg_symbols::Name;
use std::marker::Model;

/// The fields of a program: names, then constants.
#[derive(Drop)]
pub struct FieldTable<'a> {
    /// How many names there are.
    names: u16,
    /// The names that have a form. None if each definition has one; the index numbers them then.
    formed: Option<FormedNames>,
    /// The cards, which define the names and have the constants.
    source: &'a IndexedCards<'a>,
}

impl<'a> Model for FieldTable<'a> {
    ghost use Rattle.rpg_compile_program.specs.Numbered.{IsNumbered};
    ghost use Rattle.rpg_compile_program.specs.Table.{table_of, Table};

    ghost Value = { Table };

    ghost view = { λ t. table_of t.source.now };

    ghost invariant = { λ t. IsNumbered t.names t.formed t.source.now };
}

impl<'a> FieldTable<'a> {
    pub(crate) fn new(names: u16, formed: Option<FormedNames>, source: &'a IndexedCards<'a>) -> Self
        requires { IsNumbered names formed source.now }
        ensures { result ≡ table.table_of source.now }
    {
        FieldTable {
            names,
            formed,
            source,
        }
    }

    /// Returns the number of a name, 0 if it has no field.
    pub fn name_number(&self, name: &Name) -> u16
        ensures { result ≡ table.name_number self.now name.now }
    {
        match self.name_place(name) {
            None => 0,
            Some(place) => place as u16 + 1,
        }
    }

    /// Returns a name's place among the names that have fields, or None if it has no field.
    fn name_place(&self, name: &Name) -> Option<u64>
        ensures value { result ≡ position (pointwise nat_eq name.now) (keys_of self.now.names) }
        ensures few { IfSome result (λ place. place < 4000) }
    {
        match &self.formed {
            None => self.source.name_place(name),
            Some(formed) => Some(formed.place(name)? as u64),
        }
    }

    /// Returns the number of a constant, 0 if no card has it.
    pub fn constant_number(&self, constant: &Constant) -> u16
        ensures { result ≡ table.constant_number self.now constant.now }
    {
        match self.source.constant_place(constant) {
            None => 0,
            Some(place) => self.names + place as u16 + 1,
        }
    }

    /// Returns the operand of a factor.
    pub fn operand_of(&self, factor: &Factor) -> Operand<u16>
        ensures { result ≡ renamed_operand (table.key_number self.now) (keys.factor_operand factor.now) }
    {
        match factor {
            Factor::Entry(entry) => self.entry_of(entry),
            Factor::Literal(_) => Operand {
                field: match factor_constant(factor) {
                    None => 0,
                    Some(constant) => self.constant_number(&constant),
                },
                index: Index::Blank,
            },
        }
    }

    pub fn entry_of(&self, entry: &Entry) -> Operand<u16>
        ensures { result ≡ renamed_operand (table.key_number self.now) (keys.entry_operand entry.now) }
    {
        Operand {
            field: self.name_number(&entry.name),
            index: self.index_of(&entry.index),
        }
    }

    fn index_of(&self, index: &Option<EntryIndex>) -> Index<u16>
        ensures { result ≡ renamed_index (table.key_number self.now) (keys.key_index index.now) }
    {
        match index {
            None => Index::Blank,
            Some(EntryIndex::Literal(position)) => Index::Literal(*position),
            Some(EntryIndex::Name(name)) => Index::Field(self.name_number(name)),
        }
    }
}
