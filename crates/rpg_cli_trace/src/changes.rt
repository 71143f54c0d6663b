//! The fields that a cycle changed.

use crate::told::Told;
use rpg_cli_files::Listener;
use rpg_cli_show_fields::{write_quoted, write_value};
use rpg_memory::memory::Memory;
use rpg_program::form::{FieldForm, Kind};
use rpg_program::forms::form_at;
use rpg_program::value::Value;
use rpg_store::Store;
use std::alloc::{AllocError, Global};

/// A field, its form, and the values of its entries after the last cycle.
#[derive(Drop)]
struct FieldValues {
    field: u16,
    form: FieldForm,
    entries: Vec<Value>,
}

/// The values of all fields after the last cycle, in their order.
#[derive(Drop)]
pub(crate) struct Values {
    fields: Vec<FieldValues>,
}

#[derive(Clone, Copy)]
pub(crate) struct EntryAt {
    pub field: u16,
    pub form: FieldForm,
    pub position: u16,
}

fn number_at<S: Store + Drop>(memory: &Memory<'_, S>, field: u16, position: u16) -> Option<i64> {
    let form = form_at(memory.rows(), field)?;
    if position == 0 || position > form.entries {
        return None;
    }
    match form.kind {
        Kind::Number => Some(memory.number(field, position)),
        Kind::Text => None,
    }
}

fn text_at<'m, S: Store + Drop>(
    memory: &'m Memory<'_, S>,
    field: u16,
    position: u16,
) -> Option<&'m [u8]> {
    let form = form_at(memory.rows(), field)?;
    if position == 0 || position > form.entries {
        return None;
    }
    match form.kind {
        Kind::Number => None,
        Kind::Text => Some(memory.text(field, position)),
    }
}

/// Returns the values of a field, one for each entry.
fn values_of<S: Store + Drop>(
    alloc: Global,
    memory: &Memory<'_, S>,
    field: u16,
    entries: u16,
) -> Result<Vec<Value>, AllocError> {
    let mut values = Vec::new(alloc);
    for before in 0..entries {
        values.push(match text_at(memory, field, before + 1) {
            Some(text) => Value::Text(Vec::from_slice(alloc, text)?),
            None => Value::Number(number_at(memory, field, before + 1).unwrap_or(0)),
        })?;
    }
    Ok(values)
}

fn keep<S: Store + Drop>(memory: &Memory<'_, S>, field: u16, position: u16, value: &mut Value) {
    match value {
        Value::Number(old) => *old = number_at(memory, field, position).unwrap_or(*old),
        Value::Text(old) => {
            old.clear();
            let new = text_at(memory, field, position).unwrap_or(&[]);
            let _ = old.extend_from_slice(new);
        }
    }
}

impl<L: Listener> Told<'_, '_, L> {
    /// Begins the line of an entry, up to its new value.
    fn begin_entry(&mut self, at: EntryAt, old: &Value) {
        let names = self.names;
        self.out.fill("cycle {}: ", &[self.cycle.into()]);
        names.write_entry(&mut self.out, at);
        self.out.write_str(" was ");
        write_value(&mut self.out, old, at.form.decimals);
        self.out.write_str(", is ");
    }

    fn report_change<S: Store + Drop>(&mut self, memory: &Memory<S>, at: EntryAt, value: &Value) {
        match value {
            Value::Number(old) => {
                let new = number_at(memory, at.field, at.position).unwrap_or(*old);
                if new != *old {
                    self.begin_entry(at, value);
                    write_value(&mut self.out, &Value::Number(new), at.form.decimals);
                    self.end_line();
                }
            }
            Value::Text(old) => {
                let new = text_at(memory, at.field, at.position).unwrap_or(&[]);
                if new != old.as_slice() {
                    self.begin_entry(at, value);
                    write_quoted(&mut self.out, new);
                    self.end_line();
                }
            }
        }
    }

    fn report_field<S: Store + Drop>(&mut self, memory: &Memory<S>, values: &FieldValues) {
        let mut at = EntryAt {
            field: values.field,
            form: values.form,
            position: 0,
        };
        for value in &values.entries {
            at.position = at.position.saturating_add(1);
            self.report_change(memory, at, value);
        }
    }

    pub fn report_fields<S: Store + Drop>(&mut self, memory: &Memory<S>, values: &Values) {
        for field in &values.fields {
            self.report_field(memory, field);
        }
    }
}

impl FieldValues {
    fn keep<S: Store + Drop>(&mut self, memory: &Memory<'_, S>) {
        let mut position = 0u16;
        for value in self.entries.iter_mut() {
            position = position.saturating_add(1);
            keep(memory, self.field, position, value);
        }
    }
}

impl Values {
    pub fn of<S: Store + Drop>(alloc: Global, memory: &Memory<'_, S>) -> Result<Self, AllocError> {
        let mut fields = Vec::new(alloc);
        let mut field = 0u16;
        for form in &memory.rows().fields {
            field = field.saturating_add(1);
            let (form, entries) = (*form, values_of(alloc, memory, field, form.entries)?);
            fields.push(FieldValues {
                field,
                form,
                entries,
            })?;
        }
        Ok(Values { fields })
    }

    pub fn keep<S: Store + Drop>(&mut self, memory: &Memory<'_, S>) {
        for values in self.fields.iter_mut() {
            values.keep(memory);
        }
    }
}
