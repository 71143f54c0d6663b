//! A quick test for cards with valid operands, which break neither F1, F4 nor F5: it looks each name up once.

ghost use Rattle.std.specs.Prelude.{◌≡◌, false, Some, IfSome};
ghost use Rattle.std.specs.Bool.{OnTrue};
ghost use Rattle.std.specs.Option.{option_map_or};
ghost use Rattle.rpg_cards.specs.Calculations.{card_ending};
ghost use Rattle.rpg_cards.specs.Cards.{output_field_on};
ghost use Rattle.rpg_faults_operands.specs.Valid.{HasValidOperands, IsValidCalculation, IsValidFactor, IsValidOperand, IsValidResult};
ghost use Rattle.rpg_faults_operands.specs.Indexes as indexes;
ghost use Rattle.rpg_faults_operands.specs.Kinds as kinds;
ghost use Rattle.rpg_faults_operands.specs.Operands as operands;

use crate::indexes::{is_bad_index_field, is_misindexed};
use crate::kinds::{are_wrong, is_wrong_as_output};
use crate::names::index_name;
use crate::operands::{field_content, form_in};
use rpg_card_index::IndexedCards;
use rpg_cards::{Column, Content, Defined, SpecCard, columns, last_card};
use rpg_program::form::FieldForm;
use rpg_sheet_specs::{CalculationSpec, Entry, Factor};

/// Whether all names on a card are defined and its operands are valid, so that it breaks neither F1, F4 nor F5. Inlined, since each card is
/// tested.
#[inline(always)]
pub fn has_valid_operands(source: &IndexedCards, card: &SpecCard, after: &[SpecCard]) -> bool
    ensures { OnTrue result (HasValidOperands source.now card.now after.now) }
{
    is_valid_ending(source, card, after) && is_valid_output(source, card)
}

/// The test for the calculation that ends on the card.
#[inline(always)]
fn is_valid_ending(source: &IndexedCards, card: &SpecCard, after: &[SpecCard]) -> bool
    ensures { OnTrue result (IfSome (card_ending card.now after.now) (IsValidCalculation source.now)) }
{
    match last_card(card, after) {
        None => true,
        Some(calculation) => is_valid_calculation(source, calculation),
    }
}

#[inline(never)]
fn is_valid_calculation(source: &IndexedCards, calculation: &CalculationSpec) -> bool
    ensures { OnTrue result (IsValidCalculation source.now calculation.now) }
{
    let Some(operation) = calculation.operation else {
        return true;
    };
    let columns = columns(operation);
    let Some(factor_1) = valid_factor(source, columns.factor_1, &calculation.factor_1) else {
        return false;
    };
    let Some(factor_2) = valid_factor(source, columns.factor_2, &calculation.factor_2) else {
        return false;
    };
    match valid_result(source, columns.result_field, &calculation.result_field) {
        None => false,
        Some(result_field) => !are_wrong(columns, factor_1, factor_2, result_field),
    }
}

/// Returns the form of a factor, if its column is for a field, or None if the factor may be bad.
#[inline(always)]
fn valid_factor(
    source: &IndexedCards,
    column: Column,
    factor: &Option<Factor>,
) -> Option<Option<FieldForm>>
    ensures { IfSome result (IsValidFactor source.now column factor.now) }
{
    let Some(content) = field_content(column) else {
        return Some(None);
    };
    let Some(factor) = factor else {
        return Some(None);
    };
    match factor {
        Factor::Entry(field) => valid_form(source, content, field).map(Some),
        Factor::Literal(_) => Some(form_in(source.form_of_factor(factor))),
    }
}

/// Like `valid_factor`, for a result field.
#[inline(always)]
fn valid_result(
    source: &IndexedCards,
    column: Column,
    field: &Option<Entry>,
) -> Option<Option<FieldForm>>
    ensures { IfSome result (IsValidResult source.now column field.now) }
{
    let Some(content) = field_content(column) else {
        return Some(None);
    };
    match field {
        None => Some(None),
        Some(field) => valid_form(source, content, field).map(Some),
    }
}

/// Returns the form of a field that is defined and validly indexed.
#[inline(always)]
fn valid_form(source: &IndexedCards, content: Content, field: &Entry) -> Option<FieldForm>
    ensures valid { IfSome result (λ form. IsValidOperand source.now (Some (operands.operand_with content field.now))) }
    ensures form { IfSome result (λ form. operands.card_entry_form source.now field.now ≡ Some form) }
{
    let Defined::Valid(form) = source.form_of_name(&field.name) else {
        return None;
    };
    if has_valid_index(source, content, field, form) {
        Some(form)
    } else {
        None
    }
}

/// Whether an index, or its absence, is valid for a field of this form.
#[inline(always)]
fn has_valid_index(source: &IndexedCards, content: Content, field: &Entry, form: FieldForm) -> bool
    requires { operands.card_entry_form source.now field.now ≡ Some form }
    ensures { OnTrue result (IsValidOperand source.now (Some (operands.operand_with content field.now))) }
{
    let Some(name) = index_name(field) else {
        return !is_misindexed(content, &field.index, None, form);
    };
    match source.form_of_name(name) {
        Defined::Missing | Defined::Bad => false,
        Defined::Valid(index_form) => {
            let index_form = Some(index_form);
            !is_bad_index_field(index_form)
                && !is_misindexed(content, &field.index, index_form, form)
        }
    }
}

/// The test for an output field.
#[inline(always)]
fn is_valid_output(source: &IndexedCards, card: &SpecCard) -> bool
    ensures operand { OnTrue result (IsValidOperand source.now (operands.output_operand_on card.now)) }
    ensures kind { OnTrue result (option_map_or (kinds.wrong_in_output source.now) (output_field_on card.now.spec) false ≡ false) }
{
    let Some(field) = card.output_field() else {
        return true;
    };
    let Some(entry) = &field.operand else {
        return true;
    };
    match valid_form(source, Content::Value, entry) {
        None => false,
        Some(form) => !is_wrong_as_output(field, form),
    }
}
