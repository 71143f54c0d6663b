//! W7: halt indicators that SETON turns on.

ghost use Rattle.std.specs.Prelude.{◌≡◌, ◌++◌, OnOk};
ghost use Rattle.std.specs.List.{filter_map};
ghost use Rattle.rpg_cli_warnings.specs.Halts as halts;

use rpg_cards::SpecCard;
use rpg_sheet_specs::{ColumnFault, Indicator, Operation};
use rpg_warnings_lines::{Warning, WarningKind, put_warning};
use std::alloc::AllocError;

/// The columns of the three resulting indicators.
const PLUS: ColumnFault = ColumnFault {
    column: 54,
    last: 55,
};

const MINUS: ColumnFault = ColumnFault {
    column: 56,
    last: 57,
};

const ZERO: ColumnFault = ColumnFault {
    column: 58,
    last: 59,
};

fn is_set_on(operation: Option<Operation>) -> bool
    ensures { result ≡ halts.is_set_on operation }
{
    matches!(operation, Some(Operation::SetOn))
}

/// Whether an indicator is one of H1 to H9.
fn is_halt(indicator: u8) -> bool
    ensures { result ≡ halts.is_halt indicator }
{
    120 <= indicator && indicator <= 128
}

/// Returns the warning about columns of a card, if they hold a halt indicator.
fn halt_in(card: &SpecCard, columns: ColumnFault, shown: Option<Indicator>) -> Option<Warning>
    ensures { result ≡ halts.halt_in card.now columns shown }
{
    match shown {
        Some(shown) if is_halt(shown.number()) => Some(Warning {
            card: card.number,
            columns,
            kind: WarningKind::SetsHalt {
                indicator: shown.number(),
            },
        }),
        _ => None,
    }
}

fn first_of(first: Option<Warning>, second: Option<Warning>) -> Option<Warning>
    ensures { result ≡ halts.first_warning first second }
{
    match first {
        Some(first) => Some(first),
        None => second,
    }
}

#[tactic(auto, unfolding(crate::specs::Halts::halt_on))]
fn halt_on(card: &SpecCard) -> Option<Warning>
    ensures { result ≡ halts.halt_on card.now }
{
    let calculation = card.calculation()?;
    if !is_set_on(calculation.operation) {
        return None;
    }
    let indicators = calculation.resulting_indicators;
    let second = halt_in(card, MINUS, indicators.second);
    let third = halt_in(card, ZERO, indicators.third);
    first_of(
        halt_in(card, PLUS, indicators.first),
        first_of(second, third),
    )
}

/// Appends the warnings of halt indicators that SETON turns on, in the order of their cards.
pub(crate) fn put_halts(warnings: &mut Vec<Warning>, cards: &[SpecCard]) -> Result<(), AllocError>
    ensures { OnOk result (warnings.new.items ≡ warnings.old.items ++ filter_map halts.halt_on cards.now) }
{
    for card in cards {
        put_warning(warnings, halt_on(card))?;
    }
    Ok(())
}
