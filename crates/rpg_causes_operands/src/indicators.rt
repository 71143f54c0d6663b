//! F8: indicators that aren't allowed.

ghost use Rattle.std.specs.Prelude.{◌≡◌, is_some, false, option_and_then};
ghost use Rattle.std.specs.Option.{option_map_or};
ghost use Rattle.rpg_causes_operands.specs.Indicators as causes;
ghost use Rattle.rpg_faults_operands.specs.Indicators as rules;

use rpg_card_index::IndexedCards;
use rpg_cards::SpecCard;
use rpg_sheet_specs::{
    CalculationSpec, ColumnRange, ConditionSpec, Indicator, InputFieldSpec, InputSpec, OutputSpec,
    Spec, Three, Word,
};

/// Why an indicator isn't allowed.
#[derive(Drop)]
pub enum IndicatorCause {
    /// Record types don't turn it on.
    NotOfType(Indicator),
    /// Results and fields don't set it.
    NeverSet(Indicator),
    /// This input field is a text, and only blanks can be tested in it.
    TextField(Word<6>),
    /// A calculation tests 1P.
    FirstPage,
    /// A condition tests MR, but no field has a match level.
    NoMatchFields,
}

/// The columns of the indicators of an input field.
const INPUT: Three<ColumnRange> = Three {
    first: ColumnRange::InputPlus,
    second: ColumnRange::InputMinus,
    third: ColumnRange::InputZero,
};

/// The columns of resulting indicators.
const RESULT: Three<ColumnRange> = Three {
    first: ColumnRange::ResultPlus,
    second: ColumnRange::ResultMinus,
    third: ColumnRange::ResultZero,
};

/// An indicator that isn't allowed, with its columns.
#[derive(Drop)]
pub struct IndicatorFault {
    pub at: ColumnRange,
    pub cause: IndicatorCause,
}

/// F8: which indicator isn't allowed, and why.
pub fn indicator_cause(source: &IndexedCards, card: &SpecCard) -> Option<IndicatorFault>
    ensures cause { result ≡ causes.card_indicator_cause source.now card.now.spec }
    ensures rule { is_some result ≡ rules.bad_indicator source.now card.now }
{
    match &card.spec {
        Spec::Input(input) => on_input(input),
        Spec::Calculation(calculation) => on_calculation(source, calculation),
        Spec::Output(output) => on_output(source, output),
        _ => None,
    }
}

fn on_input(input: &InputSpec) -> Option<IndicatorFault>
    ensures cause { result ≡ causes.input_indicator_cause input.now }
    ensures rule { is_some result ≡ rules.bad_on_input input.now }
{
    match input {
        InputSpec::Type(record_type) => of_type(record_type.indicator?),
        InputSpec::And(_) => None,
        InputSpec::Field(field) => match first_never_set(INPUT, &field.indicators) {
            Some(cause) => Some(cause),
            None => of_text(field),
        },
    }
}

fn on_calculation(source: &IndexedCards, calculation: &CalculationSpec) -> Option<IndicatorFault>
    ensures cause { result ≡ causes.calculation_indicator_cause source.now calculation.now }
    ensures rule { is_some result ≡ rules.bad_on_calculation source.now calculation.now }
{
    match first_condition(source, &calculation.conditions) {
        Some(cause) => Some(cause),
        None => first_never_set(RESULT, &calculation.resulting_indicators),
    }
}

fn on_output(source: &IndexedCards, output: &OutputSpec) -> Option<IndicatorFault>
    ensures cause { result ≡ causes.output_indicator_cause source.now output.now }
    ensures rule { is_some result ≡ rules.bad_on_output source.now output.now }
{
    match output {
        OutputSpec::Record(line) => first_of_line(source, &line.conditions),
        OutputSpec::And(conditions) => first_of_line(source, conditions),
        OutputSpec::Or(conditions) => first_of_line(source, conditions),
        OutputSpec::Field(field) => first_of_line(source, &field.conditions),
    }
}

/// Returns the cause, unless it is 01 to 99, L1 to L9, LR or H1 to H9.
fn of_type(indicator: Indicator) -> Option<IndicatorFault>
    ensures cause { result ≡ causes.type_indicator_cause indicator }
    ensures rule { is_some result ≡ rules.cannot_mark_type indicator }
{
    match indicator.number() {
        1..=99 | 101..=110 | 120..=128 => None,
        _ => Some(IndicatorFault {
            at: ColumnRange::TypeIndicator,
            cause: IndicatorCause::NotOfType(indicator),
        }),
    }
}

/// A text is either blank or not.
fn of_text(field: &InputFieldSpec) -> Option<IndicatorFault>
    ensures { result ≡ causes.of_text field.now }
{
    let indicators = field.indicators;
    if field.decimals.is_none() && (indicators.first.is_some() || indicators.second.is_some()) {
        return Some(IndicatorFault {
            at: if indicators.first.is_some() {
                ColumnRange::InputPlus
            } else {
                ColumnRange::InputMinus
            },
            cause: IndicatorCause::TextField(Word::new(field.name.as_slice())),
        });
    }
    None
}

/// Returns the cause if it is L0, 1P or MR, which results and fields don't set.
fn of_setting(at: ColumnRange, indicator: Option<Indicator>) -> Option<IndicatorFault>
    ensures cause { result ≡ option_and_then (causes.of_setting at) indicator }
    ensures rule { is_some result ≡ option_map_or rules.cannot_be_set indicator false }
{
    let indicator = indicator?;
    match indicator.number() {
        100 | 111 | 129 => Some(IndicatorFault {
            at,
            cause: IndicatorCause::NeverSet(indicator),
        }),
        _ => None,
    }
}

fn first_never_set(
    at: Three<ColumnRange>,
    three: &Three<Option<Indicator>>,
) -> Option<IndicatorFault>
    ensures cause { result ≡ causes.first_cause_of_three causes.of_setting at three.now }
    ensures rule { is_some result ≡ rules.any_of rules.cannot_be_set three.now }
{
    match of_setting(at.first, three.first) {
        None => match of_setting(at.second, three.second) {
            None => of_setting(at.third, three.third),
            found => found,
        },
        found => found,
    }
}

fn of_line(
    source: &IndexedCards,
    at: ColumnRange,
    condition: Option<ConditionSpec>,
) -> Option<IndicatorFault>
    ensures cause { result ≡ option_and_then (causes.line_indicator_cause source.now at) condition }
    ensures rule { is_some result ≡ option_map_or (rules.bad_in_output source.now) condition false }
{
    if condition?.indicator.number() == 129 && !source.has_match_field() {
        return Some(IndicatorFault {
            at,
            cause: IndicatorCause::NoMatchFields,
        });
    }
    None
}

fn first_of_line(
    source: &IndexedCards,
    three: &Three<Option<ConditionSpec>>,
) -> Option<IndicatorFault>
    ensures cause { result ≡ causes.first_cause_of_three (causes.line_indicator_cause source.now) causes.line_columns three.now }
    ensures rule { is_some result ≡ rules.any_of (rules.bad_in_output source.now) three.now }
{
    match of_line(source, ColumnRange::FirstLineCondition, three.first) {
        None => match of_line(source, ColumnRange::SecondLineCondition, three.second) {
            None => of_line(source, ColumnRange::ThirdLineCondition, three.third),
            found => found,
        },
        found => found,
    }
}

fn of_condition(
    source: &IndexedCards,
    at: ColumnRange,
    condition: Option<ConditionSpec>,
) -> Option<IndicatorFault>
    ensures cause { result ≡ option_and_then (causes.of_condition source.now at) condition }
    ensures rule { is_some result ≡ option_map_or (rules.bad_in_calculation source.now) condition false }
{
    if condition?.indicator.number() == 111 {
        return Some(IndicatorFault {
            at,
            cause: IndicatorCause::FirstPage,
        });
    }
    of_line(source, at, condition)
}

fn first_condition(
    source: &IndexedCards,
    three: &Three<Option<ConditionSpec>>,
) -> Option<IndicatorFault>
    ensures cause { result ≡ causes.first_cause_of_three (causes.of_condition source.now) causes.condition_columns three.now }
    ensures rule { is_some result ≡ rules.any_of (rules.bad_in_calculation source.now) three.now }
{
    match of_condition(source, ColumnRange::FirstCondition, three.first) {
        None => match of_condition(source, ColumnRange::SecondCondition, three.second) {
            None => of_condition(source, ColumnRange::ThirdCondition, three.third),
            found => found,
        },
        found => found,
    }
}
