//! The indicators that cards turn on.

ghost use Rattle.std.specs.Prelude.{◌≡◌, option_copied, find};
ghost use Rattle.std.specs.List.{list_any};
ghost use Rattle.rpg_cli_warnings.specs.Indicators as indicators;

use rpg_cards::SpecCard;
use rpg_sheet_specs::{CalculationSpec, ColumnFault, Indicator, InputSpec, Operation, Spec, Three};

fn is_of(shown: Option<Indicator>, indicator: u8) -> bool
    ensures { result ≡ indicators.is_number indicator shown }
{
    match shown {
        None => false,
        Some(shown) => shown.number() == indicator,
    }
}

fn any_is(shown: Three<Option<Indicator>>, indicator: u8) -> bool
    ensures { result ≡ indicators.any_is indicator shown }
{
    is_of(shown.first, indicator) || is_of(shown.second, indicator) || is_of(shown.third, indicator)
}

fn result_turns_on(calculation: &CalculationSpec, indicator: u8) -> bool
    ensures { result ≡ indicators.result_turns_on indicator calculation.now }
{
    match calculation.operation {
        Some(Operation::SetOff) => false,
        _ => any_is(calculation.resulting_indicators, indicator),
    }
}

fn input_turns_on(input: &InputSpec, indicator: u8) -> bool
    ensures { result ≡ indicators.input_turns_on indicator input.now }
{
    match input {
        InputSpec::Type(record_type) => is_of(record_type.indicator, indicator),
        InputSpec::And(_) => false,
        InputSpec::Field(field) => any_is(field.indicators, indicator),
    }
}

/// Whether a card turns on an indicator.
fn turns_on(card: &SpecCard, indicator: u8) -> bool
    ensures { result ≡ indicators.turns_on indicator card.now }
{
    match &card.spec {
        Spec::File(file) => match file.overflow {
            None => false,
            Some(overflow) => overflow.number() == indicator,
        },
        Spec::Input(input) => input_turns_on(input, indicator),
        Spec::Calculation(calculation) => result_turns_on(calculation, indicator),
        _ => false,
    }
}

/// Whether one of the cards turns on an indicator.
pub(crate) fn any_turns_on(cards: &[SpecCard], indicator: u8) -> bool
    ensures { result ≡ list_any (indicators.turns_on indicator) cards.now }
{
    for card in cards {
        if turns_on(card, indicator) {
            return true;
        }
    }
    false
}

/// Returns the indicators that a card turns on to be tested: those of an input field or of a result. A search requires one.
pub(crate) fn shown_on(card: &SpecCard) -> Option<Three<Option<Indicator>>>
    ensures { result ≡ indicators.shown_on card.now.spec }
{
    match &card.spec {
        Spec::Input(InputSpec::Field(field)) => Some(field.indicators),
        Spec::Calculation(calculation) => match calculation.operation {
            Some(Operation::SetOff | Operation::LookUp) => None,
            _ => Some(calculation.resulting_indicators),
        },
        _ => None,
    }
}

fn shows(card: &SpecCard, indicator: u8) -> bool
    ensures { result ≡ indicators.shows indicator card.now }
{
    match shown_on(card) {
        None => false,
        Some(shown) => any_is(shown, indicator),
    }
}

/// Returns the first card that turns on an indicator to be tested.
pub(crate) fn first_showing(cards: &[SpecCard], indicator: u8) -> Option<&SpecCard>
    ensures { option_copied result ≡ find (indicators.shows indicator) cards.now }
{
    for card in cards {
        if shows(card, indicator) {
            return Some(card);
        }
    }
    None
}

/// Returns the first columns in which a card turns on an indicator.
pub(crate) fn shown_columns(card: &SpecCard, indicator: u8) -> ColumnFault
    ensures { result ≡ indicators.shown_columns indicator card.now }
{
    let begin = match &card.spec {
        Spec::Calculation(_) => 54,
        _ => 65,
    };
    let place = match shown_on(card) {
        Some(shown) if is_of(shown.first, indicator) => 0,
        Some(shown) if is_of(shown.second, indicator) => 2,
        _ => 4,
    };
    let column = begin + place;
    ColumnFault {
        column,
        last: column + 1,
    }
}
