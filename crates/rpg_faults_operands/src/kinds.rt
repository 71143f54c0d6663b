//! F4: an operand or output field of the wrong kind, a field that can't be written, a table with too few entries.

ghost use Rattle.std.specs.Prelude.{◌≡◌, false};
ghost use Rattle.std.specs.Option.{option_map_or};
ghost use Rattle.rpg_faults_operands.specs.Kinds as words;
ghost use Rattle.rpg_faults_operands.specs.Operands.{field_content};

use crate::forms::{is_text, is_unwritable};
use crate::operands::field_content;
use rpg_cards::{Content, Kinds, OperationColumns};
use rpg_program::form::{FieldForm, is_array, is_table, same_kind};
use rpg_sheet_specs::OutputField;

/// Whether the operands are of the wrong kind, given the forms of factor 1, factor 2 and the result field.
#[inline(always)]
pub(crate) fn are_wrong(
    columns: OperationColumns,
    factor_1: Option<FieldForm>,
    factor_2: Option<FieldForm>,
    result_field: Option<FieldForm>,
) -> bool
    ensures { result ≡ words.wrong_forms columns factor_1 factor_2 result_field }
{
    let result_content = field_content(columns.result_field);
    has_wrong_class(field_content(columns.factor_1), factor_1)
        || has_wrong_class(field_content(columns.factor_2), factor_2)
        || has_wrong_class(result_content, result_field)
        || are_wrong_kinds(columns.kinds, factor_1, factor_2, result_field)
        || is_wrong_result(result_content, factor_2, result_field)
}

fn has_wrong_class(content: Option<Content>, form: Option<FieldForm>) -> bool
    ensures { result ≡ words.has_wrong_class content form }
{
    let Some(content) = content else {
        return false;
    };
    match form {
        None => false,
        Some(form) => is_wrong_class(content, form),
    }
}

fn is_wrong_class(content: Content, form: FieldForm) -> bool
    ensures { result ≡ words.is_wrong_class content form }
{
    match content {
        Content::Value | Content::Label | Content::Subroutine => false,
        Content::WholeArray => !is_array(form.class),
        Content::Searched => !(is_array(form.class) || is_table(form.class)),
        Content::Table => !is_table(form.class),
    }
}

fn are_wrong_kinds(
    kinds: Kinds,
    factor_1: Option<FieldForm>,
    factor_2: Option<FieldForm>,
    result_field: Option<FieldForm>,
) -> bool
    ensures { result ≡ words.wrong_kinds kinds factor_1 factor_2 result_field }
{
    match kinds {
        Kinds::Numbers => has_text(factor_1) || has_text(factor_2) || has_text(result_field),
        Kinds::Alike => differ(factor_1, factor_2),
        Kinds::Any => false,
    }
}

fn has_text(form: Option<FieldForm>) -> bool
    ensures { result ≡ words.has_text form }
{
    match form {
        None => false,
        Some(form) => is_text(form),
    }
}

/// Whether one is a number and the other a text.
fn differ(first: Option<FieldForm>, second: Option<FieldForm>) -> bool
    ensures { result ≡ words.kinds_differ first second }
{
    let Some(first) = first else {
        return false;
    };
    match second {
        None => false,
        Some(second) => !same_kind(first.kind, second.kind),
    }
}

fn is_wrong_result(
    content: Option<Content>,
    searched: Option<FieldForm>,
    result_field: Option<FieldForm>,
) -> bool
    ensures { result ≡ option_map_or (λ c. words.wrong_result c searched result_field) content false }
{
    match content {
        None => false,
        Some(Content::Value) => match result_field {
            None => false,
            Some(form) => is_unwritable(form),
        },
        Some(Content::Table) => finds_too_few(searched, result_field),
        Some(Content::WholeArray | Content::Searched | Content::Label | Content::Subroutine) => {
            false
        }
    }
}

/// Whether the table of the result has fewer entries than the one that is searched.
fn finds_too_few(searched: Option<FieldForm>, found: Option<FieldForm>) -> bool
    ensures { result ≡ words.finds_too_few searched found }
{
    let Some(searched) = searched else {
        return false;
    };
    match found {
        None => false,
        Some(found) => {
            is_table(found.class)
                && (is_array(searched.class) || is_table(searched.class))
                && found.entries < searched.entries
        }
    }
}

/// Whether a text is edited, or the date is blanked.
pub(crate) fn is_wrong_as_output(field: &OutputField, form: FieldForm) -> bool
    ensures { result ≡ words.wrong_as_output field.now form }
{
    ((field.code.is_some() || field.text.is_some()) && is_text(form))
        || (field.blank_after && is_unwritable(form))
}
