//! The conditions of a calculation.

ghost use Rattle.std.specs.Prelude.{◌≡◌, IfSome};
ghost use Rattle.std.specs.Option.{ForSome, option_to_list};
ghost use Rattle.rpg_cards.specs.Calculations as calculations;
ghost use Rattle.rpg_program.specs.Kept.{AreConditions, IsConditionRow, IsIndicator};

use rpg_program::condition::{Condition, Conditions, has_conditions};
use rpg_sheet_specs::{CalculationSpec, ControlLevel, Three};

/// Returns the level indicator that a calculation waits for, 101 to 110 (L1 to L9 and LR). L0 is
/// always on.
pub fn level(control_level: ControlLevel) -> Option<u8>
    ensures value { result ≡ calculations.awaited_level control_level }
    ensures kept { ForSome result IsIndicator }
{
    match control_level {
        ControlLevel::Total(indicator) => {
            let number = indicator.number();
            if number == 100 { None } else { Some(number) }
        }
        ControlLevel::Detail | ControlLevel::Subroutine | ControlLevel::And | ControlLevel::Or =>
            None,
    }
}

/// Whether a card begins another alternative of its group.
pub fn is_or(calculation: &CalculationSpec) -> bool
    ensures { result ≡ calculations.is_or calculation.now.control_level }
{
    match calculation.control_level {
        ControlLevel::Or => true,
        ControlLevel::Detail
        | ControlLevel::Total(_)
        | ControlLevel::Subroutine
        | ControlLevel::And => false,
    }
}

/// Returns the conditions of columns 9 to 17, moved up to fill the first places.
pub fn conditions(calculation: &CalculationSpec) -> Conditions
    ensures value { result ≡ calculations.conditions_on calculation.now }
    ensures kept { AreConditions result }
{
    in_places(calculation.conditions)
}

/// Whether a card has conditions.
pub fn depends(calculation: &CalculationSpec) -> bool
    ensures { result ≡ calculations.depends calculation.now }
{
    has_conditions(conditions(calculation))
}

/// Returns the conditions of a card, if it has any.
pub fn test(calculation: &CalculationSpec) -> Option<Conditions>
    ensures value { option_to_list result ≡ calculations.tests_on calculation.now }
    ensures kept { IfSome result AreConditions }
{
    let conditions = conditions(calculation);
    if has_conditions(conditions) {
        Some(conditions)
    } else {
        None
    }
}

pub fn condition_of(condition: rpg_sheet_specs::ConditionSpec) -> Condition
    ensures value { result ≡ calculations.condition_of condition }
    ensures kept { IsConditionRow result }
{
    Condition {
        indicator: condition.indicator.number(),
        is_negated: condition.negated,
    }
}

/// Returns conditions in three places, moved up to fill the first ones.
pub fn in_places(conditions: Three<Option<rpg_sheet_specs::ConditionSpec>>) -> Conditions
    ensures value { result ≡ calculations.in_places (calculations.standing conditions) }
    ensures kept { AreConditions result }
{
    let first = conditions.first.map(condition_of);
    let second = conditions.second.map(condition_of);
    let third = conditions.third.map(condition_of);
    match (first, second) {
        (Some(_), Some(_)) => Conditions {
            first,
            second,
            third,
        },
        (Some(_), None) => Conditions {
            first,
            second: third,
            third: None,
        },
        (None, Some(_)) => Conditions {
            first: second,
            second: third,
            third: None,
        },
        (None, None) => Conditions {
            first: third,
            second: None,
            third: None,
        },
    }
}
