//! The indicators that cards test.

ghost use Rattle.std.specs.Prelude.{◌≡◌, ◌≤◌, option_copied, find};
ghost use Rattle.rpg_cli_warnings.specs.Indicators as indicators;

use rpg_cards::{SpecCard, line_conditions_on};
use rpg_sheet_specs::{ColumnFault, ConditionSpec, ControlLevel, Spec, Three};

/// The columns of a control level.
const LEVEL_COLUMNS: ColumnFault = ColumnFault { column: 7, last: 8 };

/// Returns the conditions of a card.
pub(crate) fn tested_on(card: &SpecCard) -> Option<Three<Option<ConditionSpec>>>
    ensures { result ≡ indicators.conditions_on_card card.now.spec }
{
    match &card.spec {
        Spec::Calculation(calculation) => Some(calculation.conditions),
        Spec::Output(output) => Some(line_conditions_on(output)),
        _ => None,
    }
}

fn total_of(level: ControlLevel) -> Option<u8>
    ensures { result ≡ indicators.total_of level }
{
    match level {
        ControlLevel::Total(level) => Some(level.number()),
        ControlLevel::Detail | ControlLevel::Subroutine | ControlLevel::And | ControlLevel::Or =>
            None,
    }
}

/// Returns the control level in columns 7-8 of a C card: the number of its indicator.
pub(crate) fn total_on(card: &SpecCard) -> Option<u8>
    ensures { result ≡ indicators.total_on card.now.spec }
{
    match &card.spec {
        Spec::Calculation(calculation) => total_of(calculation.control_level),
        _ => None,
    }
}

/// Returns the first column of a card's conditions.
fn conditions_begin(card: &SpecCard) -> u8
    ensures value { result ≡ indicators.conditions_begin card.now.spec }
    ensures within { result ≤ 23 }
{
    match &card.spec {
        Spec::Calculation(_) => 9,
        _ => 23,
    }
}

fn names(condition: Option<ConditionSpec>, indicator: u8) -> bool
    ensures { result ≡ indicators.one_tests indicator condition }
{
    match condition {
        None => false,
        Some(condition) => condition.indicator.number() == indicator,
    }
}

/// Whether the control level of a card is an indicator.
fn level_tests(card: &SpecCard, indicator: u8) -> bool
    ensures { result ≡ indicators.level_tests indicator card.now.spec }
{
    match total_on(card) {
        None => false,
        Some(level) => level == indicator,
    }
}

/// Whether a condition of a card tests an indicator, on or off.
fn condition_tests(card: &SpecCard, indicator: u8) -> bool
    ensures { result ≡ indicators.condition_tests indicator card.now.spec }
{
    match tested_on(card) {
        None => false,
        Some(conditions) => {
            names(conditions.first, indicator)
                || names(conditions.second, indicator)
                || names(conditions.third, indicator)
        }
    }
}

/// Whether a card tests an indicator: by its control level or a condition.
fn tests(card: &SpecCard, indicator: u8) -> bool
    ensures { result ≡ indicators.tests_indicator indicator card.now }
{
    level_tests(card, indicator) || condition_tests(card, indicator)
}

/// Returns the columns of the first condition of a card that tests an indicator.
fn condition_columns(card: &SpecCard, indicator: u8) -> ColumnFault
    ensures { result ≡ indicators.condition_columns indicator card.now.spec }
{
    let begin = conditions_begin(card);
    let place = match tested_on(card) {
        Some(conditions) if names(conditions.first, indicator) => 0,
        Some(conditions) if names(conditions.second, indicator) => 3,
        _ => 6,
    };
    let column = begin + place;
    ColumnFault {
        column,
        last: column + 2,
    }
}

/// Returns the first columns in which a card tests an indicator.
pub(crate) fn tested_columns(card: &SpecCard, indicator: u8) -> ColumnFault
    ensures { result ≡ indicators.tested_columns indicator card.now }
{
    if level_tests(card, indicator) {
        LEVEL_COLUMNS
    } else {
        condition_columns(card, indicator)
    }
}

/// Returns the first card that tests an indicator.
pub(crate) fn first_testing(cards: &[SpecCard], indicator: u8) -> Option<&SpecCard>
    ensures { option_copied result ≡ find (indicators.tests_indicator indicator) cards.now }
{
    for card in cards {
        if tests(card, indicator) {
            return Some(card);
        }
    }
    None
}
