//! F5: an index that is missing or not allowed, a literal out of range, or a field that can't be an index.

ghost use Rattle.std.specs.Prelude.{◌≡◌, false};
ghost use Rattle.std.specs.Option.{option_map_or};
ghost use Rattle.rpg_faults_operands.specs.Indexes as indexes;

use crate::forms::can_index;
use crate::names::index_name;
use crate::operands::{Operand, entry_form, form_in};
use rpg_card_index::IndexedCards;
use rpg_cards::Content;
use rpg_program::form::{FieldForm, fits_digits, is_array};
use rpg_sheet_specs::{Entry, EntryIndex};

pub(crate) fn is_badly_indexed(source: &IndexedCards, operand: &Option<Operand>) -> bool
    ensures { result ≡ option_map_or (indexes.bad_index_of source.now) operand.now false }
{
    let Some(operand) = operand else {
        return false;
    };
    let index_form = index_form(source, operand.field);
    is_bad_index_field(index_form)
        || match entry_form(source, operand.field) {
            None => false,
            Some(form) => is_misindexed(operand.content, &operand.field.index, index_form, form),
        }
}

/// Returns the form of the field that an index names.
fn index_form(source: &IndexedCards, entry: &Entry) -> Option<FieldForm>
    ensures { result ≡ indexes.index_form source.now entry.now }
{
    form_in(source.form_of_name(index_name(entry)?))
}

/// Whether an index, or its absence, is wrong for a field of this form. `index_form` is the form of the index field, if it is
/// known.
pub(crate) fn is_misindexed(
    content: Content,
    index: &Option<EntryIndex>,
    index_form: Option<FieldForm>,
    form: FieldForm,
) -> bool
    ensures { result ≡ indexes.misindexed content index.now index_form form }
{
    match index {
        None => needs_index(content, form),
        Some(EntryIndex::Literal(entry)) => {
            !takes_index(content, form) || !(1 <= *entry && *entry <= form.entries)
        }
        Some(EntryIndex::Name(_)) => {
            !takes_index(content, form) || lacks_digits(content, form, index_form)
        }
    }
}

/// An array isn't a value; only its entries are.
fn needs_index(content: Content, form: FieldForm) -> bool
    ensures { result ≡ indexes.needs_index content form }
{
    match content {
        Content::Value => is_array(form.class),
        Content::WholeArray
        | Content::Searched
        | Content::Table
        | Content::Label
        | Content::Subroutine => false,
    }
}

/// XFOOT takes an array without an index.
fn takes_index(content: Content, form: FieldForm) -> bool
    ensures { result ≡ indexes.takes_index content form }
{
    match content {
        Content::WholeArray => false,
        Content::Value
        | Content::Searched
        | Content::Table
        | Content::Label
        | Content::Subroutine => is_array(form.class),
    }
}

fn lacks_digits(content: Content, form: FieldForm, index_form: Option<FieldForm>) -> bool
    ensures { result ≡ option_map_or (indexes.is_too_short content form) index_form false }
{
    match index_form {
        None => false,
        Some(field) => is_too_short(content, form, field),
    }
}

/// Whether an index field that LOKUP writes is too short for the number of the last entry.
fn is_too_short(content: Content, form: FieldForm, field: FieldForm) -> bool
    ensures { result ≡ indexes.is_too_short content form field }
{
    matches!(content, Content::Searched)
        && is_array(form.class)
        && can_index(field)
        && !fits_digits(form.entries, field.length)
}

pub(crate) fn is_bad_index_field(form: Option<FieldForm>) -> bool
    ensures { result ≡ indexes.bad_index_field form }
{
    match form {
        None => false,
        Some(form) => !can_index(form),
    }
}
