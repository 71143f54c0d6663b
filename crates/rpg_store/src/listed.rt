//! A store that lists its values.
ghost use Rattle.std.specs.Prelude.{◌≡◌, ◌++◌, map as along, IfOk, OnOk};
ghost use Rattle.std.specs.List.{flat_map};
ghost use Rattle.rpg_program.specs.Values.{entries_held, held};
ghost use Rattle.rpg_store.specs.First.{first_contents, first_currents};
ghost use Rattle.rpg_store.specs.Listed.{listed_contents, listed_with_text, number_part, text_part};
ghost use Rattle.rpg_store.specs.Slots.{AreInOrder, currents, entries_count, forms_of};

use crate::slot::{Slot, place, slots_of};
use crate::store::Store;
use rpg_program::Program;
use rpg_program::value::{FieldValues, Value};
use std::alloc::{AllocError, Global};
use std::marker::Model;

/// The number and the text of each entry, in the order of fields and entries. An entry is a number if its text is empty, since each text
/// has at least one character; the number of a text is 0.
#[derive(Drop)]
pub struct ListedStore {
    slots: Vec<Slot>,
    numbers: Vec<i64>,
    texts: Vec<Vec<u8>>,
}

impl Model for ListedStore {
    ghost use Rattle.std.specs.Prelude.{map as along};
    ghost use Rattle.rpg_store.specs.Listed.{Listed, paired_values};
    ghost use Rattle.rpg_store.specs.Slots.{AreInOrder};

    ghost Value = { Listed };

    ghost view = { λ s. record { slots = s.slots.items; list = paired_values (along (λ t. t.items) s.texts.items) s.numbers.items } };

    ghost invariant = { λ s. AreInOrder 0 s.slots.items };
}

/// Returns the number of a value, 0 for a text.
fn number_of(value: &Value) -> i64
    ensures { result ≡ number_part (held value.now) }
{
    match value {
        Value::Number(n) => *n,
        Value::Text(_) => 0,
    }
}

/// Returns the text of a value, empty for a number.
fn text_of(alloc: Global, value: &Value) -> Result<Vec<u8>, AllocError>
    ensures { IfOk result (λ t. t.items ≡ text_part (held value.now)) }
{
    match value {
        Value::Number(_) => Ok(Vec::new(alloc)),
        Value::Text(text) => Vec::from_slice(alloc, text.as_slice()),
    }
}

fn add_numbers(values: &[Value], numbers: &mut Vec<i64>) -> Result<(), AllocError>
    ensures { OnOk result (numbers.new.items ≡ numbers.old.items ++ along number_part (along held values.now)) }
{
    for value in values {
        numbers.push(number_of(value))?;
    }
    Ok(())
}

fn add_texts(alloc: Global, values: &[Value], texts: &mut Vec<Vec<u8>>) -> Result<(), AllocError>
    ensures { OnOk result (along (λ t. t.items) texts.new.items ≡ along (λ t. t.items) texts.old.items ++ along text_part (along held values.now)) }
{
    for value in values {
        let text = text_of(alloc, value)?;
        texts.push(text)?;
    }
    Ok(())
}

/// Returns the numbers of all fields, one after another.
fn numbers_of(alloc: Global, count: usize, values: &[FieldValues]) -> Result<Vec<i64>, AllocError>
    ensures { IfOk result (λ ns. ns.items ≡ flat_map (λ us. along number_part (entries_held us)) values.now) }
{
    let mut numbers = Vec::with_capacity(alloc, count)?;
    for of_field in values {
        add_numbers(of_field.as_slice(), &mut numbers)?;
    }
    Ok(numbers)
}

/// Returns the texts of all fields, one after another.
fn texts_of(alloc: Global, count: usize, values: &[FieldValues]) -> Result<Vec<Vec<u8>>, AllocError>
    ensures { IfOk result (λ ts. along (λ t. t.items) ts.items ≡ flat_map (λ us. along text_part (entries_held us)) values.now) }
{
    let mut texts = Vec::with_capacity(alloc, count)?;
    for of_field in values {
        add_texts(alloc, of_field.as_slice(), &mut texts)?;
    }
    Ok(texts)
}

/// Returns how many entries all fields have.
fn entries_count(slots: &[Slot]) -> usize
    requires { AreInOrder 0 slots.now }
    ensures { result ≡ entries_count (forms_of slots.now) }
{
    match slots.last() {
        Some(slot) => slot.first as usize + slot.form.entries as usize,
        None => 0,
    }
}

impl ListedStore {
    /// Returns a store with the first values of a program, and the first entry of each table current.
    pub fn new(alloc: Global, program: &Program) -> Result<ListedStore, AllocError>
        ensures forms { IfOk result (λ s. forms_of s.slots ≡ program.now.fields) }
        ensures contents { IfOk result (λ s. listed_contents s ≡ first_contents program.now) }
        ensures currents { IfOk result (λ s. currents s.slots ≡ first_currents program.now) }
    {
        let tables = program.rows();
        let slots = slots_of(alloc, &tables.fields)?;
        let count = entries_count(&slots);
        let numbers = numbers_of(alloc, count, &tables.values)?;
        let texts = texts_of(alloc, count, &tables.values)?;
        Ok(ListedStore {
            slots,
            numbers,
            texts,
        })
    }
}

impl Store for ListedStore {
    ghost forms = { λ s. forms_of s.slots };

    ghost contents = { listed_contents };

    ghost currents = { λ s. currents s.slots };

    ghost written = { listed_with_text };

    fn number(&self, field: u16, position: u16) -> i64 {
        self.numbers[place(&self.slots, field, position)]
    }

    fn set_number(&mut self, field: u16, position: u16, n: i64) {
        let at = place(&self.slots, field, position);
        self.numbers[at] = n;
    }

    fn number_in(&self, place: usize, _field: u16, _position: u16) -> i64 {
        self.numbers[place]
    }

    fn set_number_in(&mut self, place: usize, _field: u16, _position: u16, n: i64) {
        self.numbers[place] = n;
    }

    fn text(&self, field: u16, position: u16) -> &[u8] {
        self.texts[place(&self.slots, field, position)].as_slice()
    }

    fn text_in(&self, place: usize, _field: u16, _position: u16) -> &[u8] {
        self.texts[place].as_slice()
    }

    fn text_mut(&mut self, field: u16, position: u16) -> &mut [u8] {
        let at = place(&self.slots, field, position);
        self.texts[at].as_mut_slice()
    }

    fn text_mut_in(&mut self, place: usize, _field: u16, _position: u16) -> &mut [u8] {
        self.texts[place].as_mut_slice()
    }

    fn current(&self, table: u16) -> u16 {
        self.slots[table as usize - 1].current
    }

    fn set_current(&mut self, table: u16, position: u16) {
        self.slots[table as usize - 1].current = position;
    }
}
