//! W1, W2 and W5: indicators that are tested but never turned on, or turned on but never tested, and levels that no field has.

ghost use Rattle.std.specs.Prelude.{◌≡◌, ◌++◌, OnOk};
ghost use Rattle.std.specs.List.{list_any};
ghost use Rattle.rpg_cli_warnings.specs.Indicators as indicators;

use crate::levels::any_has_level;
use crate::marks::{IndicatorMarks, marks_by};
use crate::testing::{first_testing, tested_columns};
use crate::turning::{any_turns_on, first_showing, shown_columns};
use rpg_cards::SpecCard;
use rpg_warnings_lines::{Warning, WarningKind, put_warning};
use std::alloc::AllocError;

/// Whether only cards turn an indicator on: 01 to 99, OA to OG, OV, and H1 to H9.
fn is_of_cards(indicator: u8) -> bool
    ensures { result ≡ indicators.is_of_cards indicator }
{
    indicator <= 99 || (112 <= indicator && indicator <= 128)
}

/// An indicator that is tested but never turned on, reported at the first card that tests it.
fn never_on(cards: &[SpecCard], indicator: u8) -> Option<Warning>
    ensures { result ≡ indicators.never_on indicator cards.now }
{
    if !is_of_cards(indicator) || any_turns_on(cards, indicator) {
        return None;
    }
    match first_testing(cards, indicator) {
        None => None,
        Some(card) => Some(Warning {
            card: card.number,
            columns: tested_columns(card, indicator),
            kind: WarningKind::NeverOn { indicator },
        }),
    }
}

/// An indicator from 01 to 99 that is turned on to be tested but never tested, reported at the first card that turns it on.
fn never_tested(cards: &[SpecCard], indicator: u8) -> Option<Warning>
    ensures { result ≡ indicators.never_tested indicator cards.now }
{
    if indicator > 99 || first_testing(cards, indicator).is_some() {
        return None;
    }
    match first_showing(cards, indicator) {
        None => None,
        Some(card) => Some(Warning {
            card: card.number,
            columns: shown_columns(card, indicator),
            kind: WarningKind::NeverTested { indicator },
        }),
    }
}

/// A level, L1 to L9, that is tested but that no card turns on and no field has, reported at the first card that tests it.
fn no_level(cards: &[SpecCard], indicator: u8) -> Option<Warning>
    ensures { result ≡ indicators.no_level indicator cards.now }
{
    if !(101 <= indicator && indicator <= 109)
        || any_turns_on(cards, indicator)
        || any_has_level(cards, indicator)
    {
        return None;
    }
    match first_testing(cards, indicator) {
        None => None,
        Some(card) => Some(Warning {
            card: card.number,
            columns: tested_columns(card, indicator),
            kind: WarningKind::NoLevel { indicator },
        }),
    }
}

/// Appends the warnings of an indicator, given whether a card tests it, and whether one turns it on to be tested.
fn put_of(
    warnings: &mut Vec<Warning>,
    cards: &[SpecCard],
    indicator: u8,
    is_tested: bool,
    is_shown: bool,
) -> Result<(), AllocError>
    requires tested { is_tested ≡ list_any (indicators.tests_indicator indicator) cards.now }
    requires shown { is_shown ≡ list_any (indicators.shows indicator) cards.now }
    ensures { OnOk result (warnings.new.items ≡ warnings.old.items ++ indicators.indicator_warnings indicator cards.now) }
{
    if is_tested {
        put_warning(warnings, never_on(cards, indicator))?;
        put_warning(warnings, no_level(cards, indicator))?;
    } else if is_shown {
        put_warning(warnings, never_tested(cards, indicator))?;
    }
    Ok(())
}

/// Appends the warnings of the indicators up to a number, in numeric order.
pub(crate) fn put_indicators(
    warnings: &mut Vec<Warning>,
    cards: &[SpecCard],
    last: u8,
) -> Result<(), AllocError>
    ensures { OnOk result (warnings.new.items ≡ warnings.old.items ++ indicators.warnings_up_to last cards.now) }
{
    let IndicatorMarks { tested, shown } = marks_by(cards);
    let mut indicator = 0;
    while indicator < last {
        indicator += 1;
        let number = usize::from(indicator);
        put_of(warnings, cards, indicator, tested[number], shown[number])?;
    }
    Ok(())
}
