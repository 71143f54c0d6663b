//! What the types of cards guarantee, whatever faults they have. The functions do nothing: they are called only for their
//! contracts.

ghost use Rattle.std.specs.Option.{ForSome};
ghost use Rattle.rpg_cards.specs.Constants.{IsConstant, constant_of};
ghost use Rattle.rpg_program.specs.Kept.{IsIndicator, IsOverflowIndicator};
ghost use Rattle.rpg_compile_program.specs.Ranges as ranges;
ghost use Rattle.rpg_compile_program.specs.Ranges.{InThree};

use rpg_cards::SpecCard;
use rpg_sheet_specs::{
    CalculationSpec, ConditionSpec, ControlLevel, DataSpec, Factor, FileSpec, FormSpec, Indicator,
    InputFieldSpec, InputSpec, Literal, Movement, OutputField, OutputRecord, OutputSpec,
    RecordCode, RecordType, Spec, Three, Within,
};

pub fn cards_are_in_range(cards: &[SpecCard])
    ensures { ranges.AreCards cards.now }
{
    for card in cards {
        spec_in_range(&card.spec);
    }
}

fn spec_in_range(spec: &Spec)
    ensures { ranges.IsInRange spec.now }
{
    match spec {
        Spec::Header(_) | Spec::Extension(_) => {}
        Spec::File(file) => file_in_range(file),
        Spec::Form(form) => form_in_range(form),
        Spec::Input(input) => input_in_range(input),
        Spec::Calculation(calculation) => calculation_in_range(calculation),
        Spec::Output(output) => output_in_range(output),
        Spec::Data(data) => data_in_range(data),
    }
}

fn file_in_range(file: &FileSpec)
    ensures { ForSome file.now.overflow IsOverflowIndicator }
{
    if let Some(overflow) = file.overflow {
        overflow.number();
    }
}

fn form_in_range(form: &FormSpec)
    ensures { ranges.IsForm form.now }
{
    form.lines.number();
    form.overflow_line.number();
}

fn input_in_range(input: &InputSpec)
    ensures { ranges.IsInput input.now }
{
    match input {
        InputSpec::Type(record_type) => type_in_range(record_type),
        InputSpec::And(codes) => codes_in_range(*codes),
        InputSpec::Field(field) => field_in_range(field),
    }
}

fn type_in_range(record_type: &RecordType)
    ensures { ranges.IsType record_type.now }
{
    indicator_in_range(record_type.indicator);
    codes_in_range(record_type.codes);
}

fn codes_in_range(codes: Three<Option<RecordCode>>)
    ensures { InThree ranges.IsCode codes }
{
    code_in_range(codes.first);
    code_in_range(codes.second);
    code_in_range(codes.third);
}

fn code_in_range(code: Option<RecordCode>)
    ensures { ForSome code ranges.IsCode }
{
    if let Some(code) = code {
        code.character.number();
    }
}

fn field_in_range(field: &InputFieldSpec)
    ensures { ranges.IsInputField field.now }
{
    level_in_range(field.level);
    level_in_range(field.match_level);
    indicators_in_range(field.indicators);
}

fn level_in_range(level: Option<Within<1, 9>>)
    ensures { ForSome level ranges.IsFieldLevel }
{
    if let Some(level) = level {
        level.number();
    }
}

fn indicators_in_range(indicators: Three<Option<Indicator>>)
    ensures { InThree IsIndicator indicators }
{
    indicator_in_range(indicators.first);
    indicator_in_range(indicators.second);
    indicator_in_range(indicators.third);
}

fn indicator_in_range(indicator: Option<Indicator>)
    ensures { ForSome indicator IsIndicator }
{
    if let Some(indicator) = indicator {
        indicator.number();
    }
}

fn conditions_in_range(conditions: Three<Option<ConditionSpec>>)
    ensures { InThree ranges.IsCondition conditions }
{
    condition_in_range(conditions.first);
    condition_in_range(conditions.second);
    condition_in_range(conditions.third);
}

fn condition_in_range(condition: Option<ConditionSpec>)
    ensures { ForSome condition ranges.IsCondition }
{
    if let Some(condition) = condition {
        condition.indicator.number();
    }
}

fn calculation_in_range(calculation: &CalculationSpec)
    ensures { ranges.IsCalculation calculation.now }
{
    control_in_range(calculation.control_level);
    conditions_in_range(calculation.conditions);
    factor_in_range(&calculation.factor_1);
    factor_in_range(&calculation.factor_2);
    indicators_in_range(calculation.resulting_indicators);
}

fn control_in_range(control: ControlLevel)
    ensures { ranges.IsControl control }
{
    if let ControlLevel::Total(level) = control {
        level.number();
    }
}

fn factor_in_range(factor: &Option<Factor>)
    ensures { ForSome factor.now ranges.IsFactor }
{
    if let Some(Factor::Literal(literal)) = factor {
        literal_in_range(literal);
    }
}

fn literal_in_range(literal: &Literal)
    ensures { IsConstant (constant_of literal.now) }
{
    match literal {
        Literal::Number(number) => {
            number.value();
            number.length();
            number.decimals();
        }
        Literal::Text(text) => {
            text.as_slice();
        }
    }
}

fn output_in_range(output: &OutputSpec)
    ensures { ranges.IsOutput output.now }
{
    match output {
        OutputSpec::Record(record) => line_in_range(record),
        OutputSpec::And(conditions) | OutputSpec::Or(conditions) => conditions_in_range(
            *conditions,
        ),
        OutputSpec::Field(field) => output_field_in_range(field),
    }
}

fn line_in_range(record: &OutputRecord)
    ensures { ranges.IsLine record.now }
{
    movement_in_range(record.movement);
    conditions_in_range(record.conditions);
}

fn movement_in_range(movement: Movement)
    ensures { ranges.IsMovement movement }
{
    space_in_range(movement.space_before);
    space_in_range(movement.space_after);
}

fn space_in_range(lines: Option<Within<0, 3>>)
    ensures { ForSome lines ranges.IsSpace }
{
    if let Some(lines) = lines {
        lines.number();
    }
}

fn output_field_in_range(field: &OutputField)
    ensures { ranges.IsOutputField field.now }
{
    conditions_in_range(field.conditions);
    if let Some(text) = &field.text {
        text.as_slice();
    }
}

fn data_in_range(data: &DataSpec)
    ensures { ranges.IsData data.now }
{
    if let DataSpec::Card(card) = data {
        card.as_slice();
    }
}
