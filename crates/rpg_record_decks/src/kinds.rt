//! The contents of a type's columns.

ghost use Rattle.std.specs.Prelude.{◌≡◌, ℕ, Bool, IfOk, length, map, vec_len, ◌+◌, ◌==◌, ◌≤◌};
ghost use Rattle.std.specs.List.{list_any, range_with_len};
ghost use Rattle.rpg_records.specs.Seen.{type_seen};
ghost use Rattle.rpg_record_decks.specs.Kinds.{AreCodeColumns, covers, hides, is_code, column_kind, column_kinds, shows_character, type_by};
ghost use Rattle.rpg_record_decks.specs.Reading.{type_read};

use crate::fields::FieldColumns;
use crate::types::TypeCards;
use rpg_records::{Code, Column, RecordType};
use std::alloc::{AllocError, Global};

impl FieldColumns {
    fn covers(&self, column: u16) -> bool
        ensures { result ≡ covers column self.now }
    {
        self.first <= column && column <= self.last
    }

    /// Whether a byte of a packed or binary field is in the column.
    fn hides(&self, column: u16) -> bool
        ensures { result ≡ hides column self.now }
    {
        self.form.is_some() && self.covers(column)
    }

    /// Whether a character of a text is in the column, or a digit of a number other than its last.
    fn shows(&self, column: u16) -> bool
        ensures { result ≡ shows_character column self.now }
    {
        self.covers(column) && !(self.has_decimals && column == self.last)
    }
}

/// Whether any packed or binary field has a column.
fn any_hides(fields: &[FieldColumns], column: u16) -> bool
    ensures { result ≡ list_any (hides column) fields.now }
{
    for field in fields {
        if field.hides(column) {
            return true;
        }
    }
    false
}

/// Whether any field has a character in a column.
fn any_shows(fields: &[FieldColumns], column: u16) -> bool
    ensures { result ≡ list_any (shows_character column) fields.now }
{
    for field in fields {
        if field.shows(column) {
            return true;
        }
    }
    false
}

/// Whether any field has a column.
fn any_covers(fields: &[FieldColumns], column: u16) -> bool
    ensures { result ≡ list_any (covers column) fields.now }
{
    for field in fields {
        if field.covers(column) {
            return true;
        }
    }
    false
}

/// Returns what fields have in a column, given whether it has a code.
fn kind_of(has_code: bool, fields: &[FieldColumns], column: u16) -> Column
    ensures { result ≡ column_kind has_code fields.now column }
{
    if any_hides(fields, column) {
        Column::Number
    } else if has_code || any_shows(fields, column) {
        Column::Text
    } else if any_covers(fields, column) {
        Column::LastPlace
    } else {
        Column::Unnamed
    }
}

/// Whether one of these codes is at a place, counted from 0.
fn is_place(codes: &[Code], place: usize) -> bool
    ensures { result ≡ list_any (λ c. c.place == place) codes.now }
{
    for code in codes {
        if code.place == place {
            return true;
        }
    }
    false
}

/// Whether a code of any type is in a column.
fn is_code(types: &[TypeCards], column: u16) -> bool
    ensures { result ≡ is_code (map type_read types.now) column }
{
    let place = usize::from(column).saturating_sub(1);
    for kind in types {
        if is_place(kind.codes.as_slice(), place) {
            return true;
        }
    }
    false
}

/// Returns, for each column of a record of this length, whether any type has a code there.
#[tactic(auto, using(crate::proofs::KindLemmas::one_more))]
pub(crate) fn code_columns(
    alloc: Global,
    length: u16,
    types: &[TypeCards],
) -> Result<Vec<bool>, AllocError>
    ensures columns { IfOk result (λ all. all.items ≡ map (is_code (map type_read types.now)) (range_with_len 1 length)) }
    ensures len { IfOk result (λ all. vec_len all ≡ length) }
{
    let mut all = Vec::new(alloc);
    for place in 0..length {
        all.push(is_code(types, place + 1))?;
    }
    Ok(all)
}

/// Returns what fields have in each column, given the columns of codes.
#[tactic(auto, using(crate::proofs::KindLemmas::one_more, crate::proofs::KindLemmas::at_place))]
fn kinds(
    alloc: Global,
    are_codes: &[bool],
    fields: &[FieldColumns],
) -> Result<Vec<Column>, AllocError>
    requires { length are_codes.now ≤ 65535 }
    ensures { (f : ℕ → Bool) → AreCodeColumns f are_codes.now
        → IfOk result (λ all. all.items ≡ column_kinds f (length are_codes.now) fields.now) }
{
    let mut all = Vec::new(alloc);
    for (place, is_code) in are_codes.iter().enumerate() {
        all.push(kind_of(*is_code, fields, place as u16 + 1))?;
    }
    Ok(all)
}

/// Returns a type with the contents of each column.
pub(crate) fn record_type(
    alloc: Global,
    are_codes: &[bool],
    kind: &TypeCards,
) -> Result<RecordType, AllocError>
    requires { length are_codes.now ≤ 65535 }
    ensures { (f : ℕ → Bool) → AreCodeColumns f are_codes.now
        → IfOk result (λ t. type_seen t ≡ type_by f (length are_codes.now) (type_read kind.now)) }
{
    let columns = kinds(alloc, are_codes, kind.fields.as_slice())?;
    let mut codes = Vec::new(alloc);
    codes.extend_from_slice(kind.codes.as_slice())?;
    let mut numbers = Vec::new(alloc);
    numbers.extend_from_slice(kind.numbers.as_slice())?;
    Ok(RecordType {
        card: kind.card,
        codes,
        columns,
        numbers,
    })
}
