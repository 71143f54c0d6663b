//! A store in a single area of bytes.
ghost use Rattle.std.specs.Prelude.{◌≡◌, ◌+◌, ◌≤◌, All, length, map as along, slice_range, IfOk};
ghost use Rattle.std.specs.FinMap as map;
ghost use Rattle.rpg_program.specs.Values.{entries_held, held};
ghost use Rattle.rpg_program.specs.Kept.{IsFieldRow, storage_of};
ghost use Rattle.rpg_store.specs.Area.{all_number_bytes, area_slots, length_in, start, zeros};
ghost use Rattle.rpg_store.specs.Contents.{IsEntry};
ghost use Rattle.rpg_store.specs.Filling.{with_field_values, with_positions, MayTake, MayTakeAll, MayTakeFields};
ghost use Rattle.rpg_store.specs.First.{first_contents, first_currents};
ghost use Rattle.rpg_store.specs.Flat.{flat_contents, flat_with_text};
ghost use Rattle.rpg_store.specs.Slots.{currents, forms_of, slot_at};

use crate::slot::Slot;
use crate::store::Store;
use crate::written::read_written;
use rpg_decimal::write_zoned;
use rpg_program::Program;
use rpg_program::form::{FieldForm, Kind};
use rpg_program::value::{FieldValues, Value};
use std::alloc::{AllocError, Global};
use std::marker::Model;

/// All entries in one area: first the numbers, each as its zoned text, then the texts. No number comes after a lent text, so whatever is
/// written through that, all numbers stay the same.
#[derive(Drop)]
pub struct FlatStore {
    slots: Vec<Slot>,
    area: Vec<u8>,
}

impl Model for FlatStore {
    ghost use Rattle.rpg_store.specs.Area.{parts, IsArea};
    ghost use Rattle.rpg_store.specs.Flat.{Flat};

    ghost Value = { Flat };

    ghost view = { λ s. record { slots = s.slots.items; area = s.area.items } };

    ghost invariant = { λ s. IsArea (parts s.slots.items) s.area.items };
}

/// Returns how many bytes all numbers take.
#[tactic(auto, using(crate::proofs::Storage::all_bytes))]
fn digits_in(fields: &[FieldForm]) -> usize
    requires { storage_of fields.now ≤ 65535 }
    ensures { result ≡ all_number_bytes fields.now }
{
    let mut total = 0;
    for form in fields {
        match form.kind {
            Kind::Number => total += form.length as usize * form.entries as usize,
            Kind::Text => {}
        }
    }
    total
}

/// Returns how many bytes all entries take.
fn bytes_in(fields: &[FieldForm]) -> usize
    requires { storage_of fields.now ≤ 65535 }
    ensures { result ≡ storage_of fields.now }
{
    let mut total = 0;
    for form in fields {
        total += form.length as usize * form.entries as usize;
    }
    total
}

/// Returns the slot of a field whose entries begin at a place.
fn slot_from(form: FieldForm, first: usize) -> Slot
    requires { first ≤ 65535 }
    ensures { result ≡ record { form = form; first = first; current = 1 } }
{
    Slot {
        form,
        first: first as u16,
        current: 1,
    }
}

/// Returns the table of these fields, with numbers before texts.
#[tactic(auto, using(crate::proofs::Storage::all_bytes))]
fn area_slots_of(
    alloc: Global,
    fields: &[FieldForm],
    digits: usize,
) -> Result<Vec<Slot>, AllocError>
    requires few { storage_of fields.now ≤ 65535 }
    requires digits { digits ≡ all_number_bytes fields.now }
    ensures { IfOk result (λ slots. slots.items ≡ area_slots 0 digits fields.now) }
{
    let mut slots = Vec::new(alloc);
    let mut number = 0;
    let mut text = digits;
    for form in fields {
        let bytes = form.length as usize * form.entries as usize;
        match form.kind {
            Kind::Number => {
                slots.push(slot_from(*form, number))?;
                number += bytes;
            }
            Kind::Text => {
                slots.push(slot_from(*form, text))?;
                text += bytes;
            }
        }
    }
    Ok(slots)
}

/// Returns a store of these fields in which each byte is a zero.
fn zeroed(alloc: Global, fields: &[FieldForm]) -> Result<FlatStore, AllocError>
    requires rows { All IsFieldRow fields.now }
    requires few { storage_of fields.now ≤ 65535 }
    ensures slots { IfOk result (λ s. s.slots ≡ area_slots 0 (all_number_bytes fields.now) fields.now) }
    ensures area { IfOk result (λ s. s.area ≡ zeros (storage_of fields.now)) }
{
    let digits = digits_in(fields);
    let slots = area_slots_of(alloc, fields, digits)?;
    let area = vec![in alloc; b'0'; bytes_in(fields)]?;
    Ok(FlatStore { slots, area })
}

/// Stores a value in an entry.
fn put(store: &mut FlatStore, field: u16, position: u16, value: &Value)
    requires { MayTake (forms_of store.old.slots) (flat_contents store.old) field position (held value.now) }
    ensures contents { flat_contents store.new ≡ map.insert (flat_contents store.old) (field, position) (held value.now) }
    ensures currents { currents store.new.slots ≡ currents store.old.slots }
    ensures forms { forms_of store.new.slots ≡ forms_of store.old.slots }
{
    match value {
        Value::Number(n) => store.set_number(field, position, *n),
        Value::Text(text) => store.text_mut(field, position).copy_from_slice(text),
    }
}

/// Stores values in the positions of a field.
fn put_field(store: &mut FlatStore, field: u16, values: &[Value])
    requires { MayTakeAll (forms_of store.old.slots) (flat_contents store.old) field (along held values.now) }
    ensures contents { flat_contents store.new ≡ with_positions (flat_contents store.old) field 1 (along held values.now) }
    ensures currents { currents store.new.slots ≡ currents store.old.slots }
    ensures forms { forms_of store.new.slots ≡ forms_of store.old.slots }
{
    let mut position = 1u16;
    for value in values {
        put(store, field, position, value);
        position += 1;
    }
}

/// Stores values in all fields.
fn put_all(store: &mut FlatStore, values: &[FieldValues])
    requires few { length values.now ≤ 4000 }
    requires like { MayTakeFields (forms_of store.old.slots) (flat_contents store.old) (along entries_held values.now) }
    ensures contents { flat_contents store.new ≡ with_field_values (flat_contents store.old) 1 (along entries_held values.now) }
    ensures currents { currents store.new.slots ≡ currents store.old.slots }
    ensures forms { forms_of store.new.slots ≡ forms_of store.old.slots }
{
    let mut field = 1u16;
    for of_field in values {
        put_field(store, field, of_field.as_slice());
        field += 1;
    }
}

impl FlatStore {
    /// Returns a store with the first values of a program, and the first entry of each table current.
    pub fn new(alloc: Global, program: &Program) -> Result<FlatStore, AllocError>
        ensures forms { IfOk result (λ s. forms_of s.slots ≡ program.now.fields) }
        ensures contents { IfOk result (λ s. flat_contents s ≡ first_contents program.now) }
        ensures currents { IfOk result (λ s. currents s.slots ≡ first_currents program.now) }
    {
        let tables = program.rows();
        let mut store = zeroed(alloc, &tables.fields)?;
        put_all(&mut store, &tables.values);
        Ok(store)
    }

    /// Returns the bytes of all entries: the numbers, then the texts.
    pub fn bytes(&self) -> &[u8]
        ensures { result.now ≡ self.now.area }
    {
        &self.area
    }
}

/// Returns where the bytes of an entry begin and end.
fn part_of(slots: &[Slot], field: u16, position: u16) -> (usize, usize)
    requires { IsEntry (forms_of slots.now) (field, position) }
    ensures from { result.0 ≡ start slots.now (field, position) }
    ensures to { result.1 ≡ start slots.now (field, position) + length_in (slot_at slots.now field) }
{
    let slot = &slots[field as usize - 1];
    let length = slot.form.length as usize;
    let from = slot.first as usize + (position as usize - 1) * length;
    (from, from + length)
}

/// Returns the bytes of a range.
fn bytes_between(area: &[u8], from: usize, to: usize) -> &[u8]
    requires low { from ≤ to }
    requires high { to ≤ length area.now }
    ensures { result.now ≡ slice_range area.now from to }
{
    &area[from..to]
}

impl Store for FlatStore {
    ghost forms = { λ s. forms_of s.slots };

    ghost contents = { flat_contents };

    ghost currents = { λ s. currents s.slots };

    ghost written = { flat_with_text };

    fn number(&self, field: u16, position: u16) -> i64 {
        let (from, to) = part_of(&self.slots, field, position);
        read_written(bytes_between(&self.area, from, to))
    }

    fn set_number(&mut self, field: u16, position: u16, n: i64) {
        let (from, to) = part_of(&self.slots, field, position);
        write_zoned(n, self.area.slice_mut(from..to));
    }

    fn number_in(&self, _place: usize, field: u16, position: u16) -> i64 {
        self.number(field, position)
    }

    fn set_number_in(&mut self, _place: usize, field: u16, position: u16, n: i64) {
        self.set_number(field, position, n);
    }

    fn text(&self, field: u16, position: u16) -> &[u8] {
        let (from, to) = part_of(&self.slots, field, position);
        bytes_between(&self.area, from, to)
    }

    fn text_in(&self, _place: usize, field: u16, position: u16) -> &[u8] {
        self.text(field, position)
    }

    fn text_mut(&mut self, field: u16, position: u16) -> &mut [u8] {
        let (from, to) = part_of(&self.slots, field, position);
        self.area.slice_mut(from..to)
    }

    fn text_mut_in(&mut self, _place: usize, field: u16, position: u16) -> &mut [u8] {
        self.text_mut(field, position)
    }

    fn current(&self, table: u16) -> u16 {
        self.slots[table as usize - 1].current
    }

    fn set_current(&mut self, table: u16, position: u16) {
        self.slots[table as usize - 1].current = position;
    }
}
