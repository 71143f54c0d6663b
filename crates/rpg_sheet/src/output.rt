//! The output sheet (O).
#![tactic(auto, unfolding(rpg_sheet_specs::specs::Columns::values, rpg_sheet_specs::specs::Columns::at_with, rpg_sheet_specs::specs::Columns::also, rpg_sheet_specs::specs::Columns::past, rpg_sheet_specs::specs::Columns::blank, rpg_sheet_specs::specs::Columns::where_card, rpg_sheet_specs::specs::Values::blank_or, rpg_sheet_specs::specs::Tables::output_card, rpg_sheet_specs::specs::Tables::line_or_card, rpg_sheet_specs::specs::Tables::line_or_field_card, rpg_sheet_specs::specs::Tables::record_card, rpg_sheet_specs::specs::Tables::movement, rpg_sheet_specs::specs::Tables::line_conditions, rpg_sheet_specs::specs::Tables::output_field_card))]

ghost use Rattle.std.specs.Prelude.{◌≡◌, Some};
ghost use Rattle.rpg_sheet.specs.Put.{put};
ghost use Rattle.rpg_sheet_specs.specs.Columns.{mapped};
ghost use Rattle.rpg_sheet_specs.specs.Tables as tables;
ghost use Rattle.rpg_sheet_specs.specs.declared.output.OutputSpec.TheVariants as outputs;
ghost use Rattle.rpg_sheet_specs.specs.declared.spec.Spec.TheVariants as specs;

use crate::card::Card;
use crate::columns::{at, conditions, optional};
use crate::input::{is_and_card, is_field_card};
use rpg_sheet_specs::{
    ColumnFault, ConditionSpec, Movement, OutputField, OutputRecord, OutputSpec, Spec, Three,
    ranges,
};

/// Reads an O card into `spec`, or returns the leftmost of its bad values.
#[inline(never)]
pub(crate) fn read_output(spec: &mut Option<Spec>, card: &Card) -> Result<(), ColumnFault>
    ensures { put spec.new result ≡ mapped (λ o. Some (specs.Output o)) (tables.output_card.reading card.now) }
{
    if is_and_card(card) {
        *spec = Some(Spec::Output(OutputSpec::And(line_conditions(card)?)));
    } else if is_or_card(card) {
        card.blank(ranges::AFTER_TIME)?;
        *spec = Some(Spec::Output(OutputSpec::Or(line_conditions(card)?)));
    } else if is_field_card(card) {
        return read_field(spec, card);
    } else {
        *spec = Some(Spec::Output(OutputSpec::Record(record_card(card)?)));
    }
    Ok(())
}

/// Whether it has OR in columns 14 and 15, and nothing before.
fn is_or_card(card: &Card) -> bool
    ensures { result ≡ tables.is_or_card card.now }
{
    rpg_sheet_values::has_only_blanks(card.columns(ranges::BEFORE_WORD))
        && card.columns(ranges::OR_WORD) == b"OR".as_slice()
}

#[inline(never)]
fn record_card(card: &Card) -> Result<OutputRecord, ColumnFault>
    ensures { result ≡ tables.record_card.reading card.now }
{
    let file = card.optional_name(ranges::LINE_FILE)?;
    let text = card.columns(ranges::LINE_TIME);
    let time = at(ranges::LINE_TIME, rpg_sheet_values::line_time(text))?;
    card.blank(ranges::AFTER_TIME)?;
    let movement = movement(card)?;
    let conditions = conditions(card, ranges::LINE_CONDITIONS)?;
    card.blank(ranges::AFTER_CONDITIONS)?;
    Ok(OutputRecord {
        file,
        time,
        movement,
        conditions,
    })
}

fn movement(card: &Card) -> Result<Movement, ColumnFault>
    ensures { result ≡ tables.movement.reading card.now }
{
    let space_before = card.optional_space(ranges::SPACE_BEFORE)?;
    let space_after = card.optional_space(ranges::SPACE_AFTER)?;
    let skip_before = card.optional_skip(ranges::SKIP_BEFORE)?;
    let skip_after = card.optional_skip(ranges::SKIP_AFTER)?;
    Ok(Movement {
        space_before,
        space_after,
        skip_before,
        skip_after,
    })
}

/// Reads further conditions of a line.
#[inline(never)]
fn line_conditions(card: &Card) -> Result<Three<Option<ConditionSpec>>, ColumnFault>
    ensures { result ≡ tables.line_conditions.reading card.now }
{
    card.blank(ranges::MOVEMENT)?;
    let conditions = conditions(card, ranges::LINE_CONDITIONS)?;
    card.blank(ranges::AFTER_CONDITIONS)?;
    Ok(conditions)
}

/// Reads an output field into `spec`.
#[inline(never)]
fn read_field(spec: &mut Option<Spec>, card: &Card) -> Result<(), ColumnFault>
    ensures { put spec.new result ≡ mapped (λ f. Some (specs.Output (outputs.Field f))) (tables.output_field_card.reading card.now) }
{
    let (mut operand, mut text) = (None, None);
    card.blank(ranges::MOVEMENT)?;
    let conditions = conditions(card, ranges::LINE_CONDITIONS)?;
    card.read_entry(&mut operand, ranges::OUTPUT_NAME)?;
    let code = card.columns(ranges::OUTPUT_CODE);
    let code = optional(ranges::OUTPUT_CODE, code, rpg_sheet_values::edit_code(code))?;
    let blank_after = card.mark(ranges::BLANK_AFTER, b"B")?;
    let end = card.number(ranges::END_POSITION)?;
    card.blank(ranges::OUTPUT_FORMAT)?;
    card.read_text(&mut text, ranges::OUTPUT_TEXT)?;
    *spec = Some(Spec::Output(OutputSpec::Field(OutputField {
        conditions,
        operand,
        code,
        blank_after,
        end,
        text,
    })));
    Ok(())
}
