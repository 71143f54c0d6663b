//! Fields by number, and requirements on their forms.

ghost use Rattle.std.specs.Prelude.{◌≡◌};
ghost use Rattle.rpg_program.specs.Forms as words;

use crate::form::{FieldForm, Kind, is_constant, is_plain, is_table, is_writable, same_kind};
use crate::rows::Rows;

/// Returns the form of a field, if it exists; the first field is 1.
pub fn form_at(rows: &Rows, field: u16) -> Option<FieldForm>
    ensures { result ≡ words.form_at rows.now.fields.items field }
{
    if field == 0 {
        return None;
    }
    rows.fields.get(usize::from(field) - 1).copied()
}

/// Returns the kind of a field; number if it doesn't exist.
pub fn kind_of(form: Option<FieldForm>) -> Kind
    ensures { result ≡ words.kind_of form }
{
    match form {
        None => Kind::Number,
        Some(form) => form.kind,
    }
}

/// Returns the length of a field, 0 if it doesn't exist.
pub fn length_of(form: Option<FieldForm>) -> u16
    ensures { result ≡ words.length_of form }
{
    match form {
        None => 0,
        Some(form) => form.length,
    }
}

/// Returns the decimals of a field, 0 if it doesn't exist.
pub fn decimals_of(form: Option<FieldForm>) -> u8
    ensures { result ≡ words.decimals_of form }
{
    match form {
        None => 0,
        Some(form) => form.decimals,
    }
}

/// Returns the entries of a field, 0 if it doesn't exist.
pub fn entries_of(form: Option<FieldForm>) -> u16
    ensures { result ≡ words.entries_of form }
{
    match form {
        None => 0,
        Some(form) => form.entries,
    }
}

pub fn may_write(form: Option<FieldForm>) -> bool
    ensures { result ≡ words.may_write form }
{
    match form {
        None => false,
        Some(form) => is_writable(form.class),
    }
}

pub fn is_table_form(form: Option<FieldForm>) -> bool
    ensures { result ≡ words.is_table_form form }
{
    match form {
        None => false,
        Some(form) => is_table(form.class),
    }
}

/// Whether it is a plain number without decimals.
pub fn is_index_form(form: Option<FieldForm>) -> bool
    ensures { result ≡ words.is_index_form form }
{
    match form {
        None => false,
        Some(form) => {
            same_kind(form.kind, Kind::Number) && (is_plain(form.class) && form.decimals == 0)
        }
    }
}

/// Whether it is a constant that is a text, as edit words are.
pub fn is_text_constant(form: Option<FieldForm>) -> bool
    ensures { result ≡ words.is_text_constant form }
{
    match form {
        None => false,
        Some(form) => same_kind(form.kind, Kind::Text) && is_constant(form.class),
    }
}
