//! The names of columns.

use crate::fault::Fault;
use crate::field::{FileFields, field_named};
use crate::name::{FieldName, Label, Sample};
use rpg_csv_values::without_blanks;
use std::alloc::{AllocError, Global};

/// What each column is.
#[derive(Drop)]
pub struct Labels {
    labels: Vec<Label>,
    /// Whether all have names.
    has_names: bool,
}

impl FileFields {
    /// Whether a field or the position of a code has this name.
    fn has(&self, name: FieldName) -> bool {
        for kind in self.types.as_slice() {
            if kind.has(name) {
                return true;
            }
        }
        field_named(self.codes.as_slice(), name).is_some()
    }
}

impl Labels {
    pub fn as_slice(&self) -> &[Label] {
        self.labels.as_slice()
    }

    /// Whether all columns have names.
    pub fn are_named(&self) -> bool {
        self.has_names
    }

    /// Returns what a column is.
    pub fn label(&self, column: usize) -> Label {
        self.as_slice()
            .get(column)
            .copied()
            .unwrap_or(Label::Unnamed)
    }

    /// Returns the column with this name, from 0.
    pub(crate) fn column_of(&self, name: FieldName) -> Option<usize> {
        for (column, other) in self.labels.as_slice().iter().enumerate() {
            if *other == Label::Named(name) {
                return Some(column);
            }
        }
        None
    }

    pub fn new(alloc: Global) -> Self {
        Labels {
            labels: Vec::new(alloc),
            has_names: true,
        }
    }

    /// Adds the column with this name. `unnamed` is what a column without a name is. A name that is no field's is shown.
    pub fn add(
        &mut self,
        fields: &FileFields,
        text: &[u8],
        unnamed: Label,
        shown: &mut Sample,
    ) -> Result<(), Fault> {
        let text = without_blanks(text);
        let column = self.labels.len().saturating_add(1);
        if text.is_empty() {
            self.has_names = false;
            self.labels.push(unnamed)?;
            return Ok(());
        }
        let name = FieldName::upper(text);
        if !fields.has(name) {
            *shown = Sample::new(text);
            return Err(Fault::NoField { column });
        }
        if let Some(before) = self.column_of(name) {
            return Err(Fault::Both {
                first: before.saturating_add(1),
                second: column,
                name,
            });
        }
        self.labels.push(Label::Named(name))?;
        Ok(())
    }

    /// Adds a name, unless it is there.
    fn add_new(&mut self, name: FieldName) -> Result<(), AllocError> {
        if self.column_of(name).is_none() {
            self.labels.push(Label::Named(name))?;
        }
        Ok(())
    }
}

/// Returns the columns that an argument names, separated by commas. A name that is no field's is shown.
pub fn given_labels(
    alloc: Global,
    fields: &FileFields,
    names: &str,
    shown: &mut Sample,
) -> Result<Labels, Fault> {
    let mut labels = Labels::new(alloc);
    for name in names.split(',') {
        labels.add(fields, name.as_bytes(), Label::LeftOut, shown)?;
    }
    Ok(labels)
}

/// Returns the columns of rows without names: the positions of codes, if there are several types, and then the fields.
pub fn field_labels(alloc: Global, fields: &FileFields) -> Result<Labels, AllocError> {
    let mut labels = Labels::new(alloc);
    if fields.types.len() > 1 {
        for code in fields.codes.as_slice() {
            labels.add_new(code.name)?;
        }
    }
    for kind in fields.types.as_slice() {
        for field in kind.fields.as_slice() {
            labels.add_new(field.name)?;
        }
    }
    Ok(labels)
}
