//! The calculation sheet (C).
#![tactic(auto, unfolding(rpg_sheet_specs::specs::Columns::values, rpg_sheet_specs::specs::Columns::at_with, rpg_sheet_specs::specs::Columns::also, rpg_sheet_specs::specs::Columns::past, rpg_sheet_specs::specs::Columns::blank, rpg_sheet_specs::specs::Tables::calculation_card))]

ghost use Rattle.std.specs.Prelude.{◌≡◌, Some};
ghost use Rattle.rpg_sheet.specs.Put.{put};
ghost use Rattle.rpg_sheet.specs.Rest.{rest_of_calculation};
ghost use Rattle.rpg_sheet_specs.specs.Columns.{mapped};
ghost use Rattle.rpg_sheet_specs.specs.Tables as tables;
ghost use Rattle.rpg_sheet_specs.specs.declared.spec.Spec.TheVariants as specs;

use crate::card::Card;
use crate::columns::{at, conditions, indicators};
use rpg_sheet_specs::{
    CalculationSpec, ColumnFault, ConditionSpec, ControlLevel, Spec, Three, ranges,
};

/// Reads a C card into `spec`, or returns the leftmost of its bad values.
#[inline(never)]
pub(crate) fn read_calculation(spec: &mut Option<Spec>, card: &Card) -> Result<(), ColumnFault>
    ensures { put spec.new result ≡ mapped (λ k. Some (specs.Calculation k)) (tables.calculation_card.reading card.now) }
{
    let text = card.columns(ranges::CONTROL_LEVEL);
    let control_level = at(ranges::CONTROL_LEVEL, rpg_sheet_values::control_level(text))?;
    let conditions = conditions(card, ranges::CONDITIONS)?;
    calculation_with(spec, card, control_level, conditions)
}

/// Reads the rest of a calculation with these conditions.
fn calculation_with(
    spec: &mut Option<Spec>,
    card: &Card,
    control_level: ControlLevel,
    conditions: Three<Option<ConditionSpec>>,
) -> Result<(), ColumnFault>
    ensures { put spec.new result ≡ mapped (λ k. Some (specs.Calculation k)) ((rest_of_calculation control_level conditions).reading card.now) }
{
    let (mut factor_1, mut factor_2, mut result_field) = (None, None, None);
    card.read_factor(&mut factor_1, ranges::FIRST_FACTOR)?;
    let operation = card.optional_operation(ranges::OPERATION)?;
    card.read_factor(&mut factor_2, ranges::SECOND_FACTOR)?;
    card.read_entry(&mut result_field, ranges::RESULT_NAME)?;
    let length = card.optional_number(ranges::RESULT_LENGTH)?;
    let decimals = card.optional_digit(ranges::RESULT_DECIMALS)?;
    let half_adjust = card.mark(ranges::HALF_ADJUST, b"H")?;
    let resulting_indicators = indicators(card, ranges::RESULTING_INDICATORS)?;
    *spec = Some(Spec::Calculation(CalculationSpec {
        control_level,
        conditions,
        factor_1,
        operation,
        factor_2,
        result_field,
        length,
        decimals,
        half_adjust,
        resulting_indicators,
    }));
    Ok(())
}
