//! W4: results with fewer digits before the decimal point than their operands.

ghost use Rattle.std.specs.Prelude.{◌≡◌, ◌++◌, OnOk};
ghost use Rattle.std.specs.List.{filter_map};
ghost use Rattle.std.specs.Option.{option_to_list};
ghost use Rattle.rpg_card_index.specs.Index.{StandAt};
ghost use Rattle.rpg_cards.specs.Names.{defined_as, definition_by, definitions, definitions_on, sized_form};
ghost use Rattle.rpg_cli_warnings.specs.Digits as digits;

use rpg_card_index::IndexedCards;
use rpg_cards::{Defined, SpecCard, sized_form};
use rpg_program::form::{FieldForm, Kind};
use rpg_sheet_specs::{CalculationSpec, ColumnFault, Factor, Literal, Operation};
use rpg_warnings_lines::{Warning, WarningKind, put_warning};
use std::alloc::AllocError;

/// The columns of a result field.
const RESULT: ColumnFault = ColumnFault {
    column: 43,
    last: 48,
};

/// Returns how many digits a number has before its decimal point.
fn whole_digits(form: FieldForm) -> Option<u16>
    ensures { result ≡ digits.whole_digits form }
{
    match form.kind {
        Kind::Number => Some(form.length.saturating_sub(u16::from(form.decimals))),
        Kind::Text => None,
    }
}

fn digits_of(defined: Defined) -> Option<u16>
    ensures { result ≡ digits.whole_digits_of defined }
{
    match defined {
        Defined::Valid(form) => whole_digits(form),
        Defined::Missing | Defined::Bad => None,
    }
}

#[tactic(auto, unfolding(crate::specs::Digits::factor_digits))]
fn factor_digits(source: &IndexedCards, factor: &Option<Factor>) -> Option<u16>
    ensures { result ≡ digits.factor_digits source.now factor.now }
{
    match factor {
        None => None,
        Some(Factor::Entry(entry)) => digits_of(source.form_of_name(&entry.name)),
        Some(Factor::Literal(Literal::Number(number))) => {
            Some(u16::from(number.length().saturating_sub(number.decimals())))
        }
        Some(Factor::Literal(Literal::Text(_))) => None,
    }
}

/// Returns how many digits a result field of this length has before its decimal point; None for a text or an invalid size.
fn given_digits(length: u16, decimals: Option<u8>) -> Option<u16>
    ensures { result ≡ digits.whole_digits_of (defined_as (sized_form length decimals)) }
{
    match sized_form(length, decimals) {
        None => None,
        Some(form) => whole_digits(form),
    }
}

/// Returns how many digits the result field of a calculation has before its decimal point. Its definition, if it has one, is at `place`. If
/// that is the first of its name, no lookup is needed.
#[tactic(auto, unfolding(crate::specs::Digits::result_digits))]
fn result_digits(source: &IndexedCards, place: usize, calculation: &CalculationSpec) -> Option<u16>
    requires { StandAt place (option_to_list (definition_by calculation.now)) (definitions source.now) }
    ensures { result ≡ digits.result_digits source.now calculation.now.result_field }
{
    let entry = calculation.result_field.as_ref()?;
    match calculation.length {
        Some(length) if source.is_first_name(place) => {
            given_digits(length, calculation.decimals)
        }
        _ => digits_of(source.form_of_name(&entry.name)),
    }
}

fn greater_of(a: Option<u16>, b: Option<u16>) -> Option<u16>
    ensures { result ≡ digits.greater_of a b }
{
    match (a, b) {
        (Some(a), Some(b)) => Some(if a <= b { b } else { a }),
        (Some(a), None) => Some(a),
        (None, b) => b,
    }
}

fn is_fraction(whole: Option<u16>) -> bool
    ensures { result ≡ digits.is_fraction whole }
{
    match whole {
        None => false,
        Some(whole) => whole == 0,
    }
}

/// Returns how many digits the longer factor of a product has before its decimal point; None if one of them is a fraction.
fn product_digits(a: Option<u16>, b: Option<u16>) -> Option<u16>
    ensures { result ≡ digits.product_digits a b }
{
    if is_fraction(a) || is_fraction(b) {
        None
    } else {
        greater_of(a, b)
    }
}

/// Returns how many digits a result should have before its decimal point.
#[tactic(auto, unfolding(crate::specs::Digits::wanted_digits))]
fn wanted_digits(source: &IndexedCards, calculation: &CalculationSpec) -> Option<u16>
    ensures { result ≡ digits.wanted_digits source.now calculation.now }
{
    match calculation.operation {
        Some(Operation::Add | Operation::Subtract | Operation::ZeroAdd | Operation::ZeroSubtract) =>
            greater_of(
                factor_digits(source, &calculation.factor_1),
                factor_digits(source, &calculation.factor_2),
            ),
        Some(Operation::Multiply) => product_digits(
            factor_digits(source, &calculation.factor_1),
            factor_digits(source, &calculation.factor_2),
        ),
        _ => None,
    }
}

fn shorter(wanted: Option<u16>, result_field: Option<u16>) -> Option<WarningKind>
    ensures { result ≡ digits.shorter wanted result_field }
{
    match (wanted, result_field) {
        (Some(factor), Some(result)) if result < factor => {
            Some(WarningKind::Shorter { result, factor })
        }
        _ => None,
    }
}

/// Returns the warning of a card whose result is too short. The card's definitions are at `place`.
#[tactic(auto, unfolding(crate::specs::Digits::shorter_on))]
fn shorter_on(source: &IndexedCards, place: usize, card: &SpecCard) -> Option<Warning>
    requires { StandAt place (definitions_on card.now.spec) (definitions source.now) }
    ensures { result ≡ digits.shorter_on source.now card.now }
{
    let calculation = card.calculation()?;
    let wanted = wanted_digits(source, calculation)?;
    let kind = shorter(Some(wanted), result_digits(source, place, calculation))?;
    Some(Warning {
        card: card.number,
        columns: RESULT,
        kind,
    })
}

/// Appends the warnings of results that are too short, in the order of their cards.
pub(crate) fn put_shorter(
    warnings: &mut Vec<Warning>,
    source: &IndexedCards,
) -> Result<(), AllocError>
    ensures { OnOk result (warnings.new.items ≡ warnings.old.items ++ filter_map (digits.shorter_on source.now) source.now) }
{
    source.keeps_limit();
    let mut place = 0;
    for card in source.as_slice() {
        put_warning(warnings, shorter_on(source, place, card))?;
        place += card.definition_count();
    }
    Ok(())
}
