//! The places of entries among all entries of a program, for precomputed ones.
ghost use Rattle.std.specs.Prelude.{◌≡◌, IfOk};
ghost use Rattle.rpg_program.specs.Kept.{IsProgram};
ghost use Rattle.rpg_program.specs.Object.{seen};
ghost use Rattle.rpg_store.specs.Contents.{IsEntry, IsEntryAt};

use crate::slot::{Slot, place, slots_of};
use rpg_program::rows::Rows;
use std::alloc::{AllocError, Global};
use std::marker::Model;

/// Where the entries of each field are.
#[derive(Drop)]
pub struct EntryPlaces {
    slots: Vec<Slot>,
}

impl Model for EntryPlaces {
    ghost use Rattle.std.specs.Prelude.{List};
    ghost use Rattle.rpg_program.specs.declared.form.FieldForm.{FieldForm};
    ghost use Rattle.rpg_store.specs.Slots.{AreInOrder, forms_of};

    ghost Value = { List FieldForm };

    ghost view = { λ p. forms_of p.slots.items };

    ghost invariant = { λ p. AreInOrder 0 p.slots.items };
}

impl EntryPlaces {
    /// Computes the places for the fields of a program. Linear in the fields; allocates
    /// once.
    pub fn new(alloc: Global, rows: &Rows) -> Result<EntryPlaces, AllocError>
        requires { IsProgram (seen rows.now) }
        ensures { IfOk result (λ p. p ≡ rows.now.fields.items) }
    {
        let slots = slots_of(alloc, &rows.fields)?;
        Ok(EntryPlaces { slots })
    }

    /// Returns the place of an entry, counted from 0.
    pub fn place_of(&self, field: u16, position: u16) -> usize
        requires { IsEntry self.now (field, position) }
        ensures { IsEntryAt self.now result (field, position) }
    {
        place(&self.slots, field, position)
    }
}
