//! The table of fields: where the entries of each are.
ghost use Rattle.std.specs.Prelude.{◌≡◌, ◌≤◌, IfOk};
ghost use Rattle.rpg_store.specs.Contents.{IsEntry};
ghost use Rattle.rpg_store.specs.Slots.{entries_count, forms_of, slots_from, spot};

use rpg_program::form::FieldForm;
use std::alloc::{AllocError, Global};

/// A field, with the place of its first entry (the others follow it) and, for a table, its current
/// entry.
#[derive(Clone, Copy)]
pub struct Slot {
    pub form: FieldForm,
    pub first: u16,
    pub current: u16,
}

/// Returns the place of an entry among all entries.
pub fn place(slots: &[Slot], field: u16, position: u16) -> usize
    requires { IsEntry (forms_of slots.now) (field, position) }
    ensures { result ≡ spot slots.now (field, position) }
{
    let slot = &slots[field as usize - 1];
    slot.first as usize + (position as usize - 1)
}

/// Returns the table of these fields, in the order of their entries.
pub fn slots_of(alloc: Global, fields: &[FieldForm]) -> Result<Vec<Slot>, AllocError>
    requires { entries_count fields.now ≤ 65535 }
    ensures { IfOk result (λ slots. slots.items ≡ slots_from 0 fields.now) }
{
    let mut slots = Vec::new(alloc);
    let mut first = 0u16;
    for form in fields {
        slots.push(Slot {
            form: *form,
            first,
            current: 1,
        })?;
        first += form.entries;
    }
    Ok(slots)
}
