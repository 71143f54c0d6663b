//! Groups: a calculation card with the AN and OR cards that follow it.

ghost use Rattle.std.specs.Prelude.{◌≡◌, option_copied};
ghost use Rattle.rpg_cards.specs.Calculations as calculations;
ghost use Rattle.rpg_cards.specs.Groups as groups;

use crate::SpecCard;
use rpg_sheet_specs::{CalculationSpec, ControlLevel};

/// Whether a card has AN or OR in columns 7 and 8.
pub fn joins(calculation: &CalculationSpec) -> bool
    ensures { result ≡ groups.joins calculation.now.control_level }
{
    match calculation.control_level {
        ControlLevel::Detail | ControlLevel::Total(_) | ControlLevel::Subroutine => false,
        ControlLevel::And | ControlLevel::Or => true,
    }
}

/// Whether the next card is an AN or OR card.
pub fn continues(after: &[SpecCard]) -> bool
    ensures { result ≡ calculations.continues after.now }
{
    let Some((card, _)) = after.split_first() else {
        return false;
    };
    match card.calculation() {
        None => false,
        Some(calculation) => joins(calculation),
    }
}

/// Returns the last card of the group that a card belongs to.
pub fn group_end<'a>(card: &'a CalculationSpec, after: &'a [SpecCard]) -> &'a CalculationSpec
    ensures { result.now ≡ calculations.group_end card.now after.now }
{
    let Some((next, following)) = after.split_first() else {
        return card;
    };
    match next.calculation() {
        None => card,
        Some(next) => {
            if joins(next) {
                group_end(next, following)
            } else {
                card
            }
        }
    }
}

/// Returns the calculation on a card, if it is the last of its group: the card with the
/// operation.
pub fn last_card<'a>(card: &'a SpecCard, after: &[SpecCard]) -> Option<&'a CalculationSpec>
    ensures { option_copied result ≡ calculations.card_ending card.now after.now }
{
    let Some(calculation) = card.calculation() else {
        return None;
    };
    if continues(after) {
        None
    } else {
        Some(calculation)
    }
}
