//! The input sheet (I).
#![tactic(auto, unfolding(rpg_sheet_specs::specs::Columns::values, rpg_sheet_specs::specs::Columns::at_with, rpg_sheet_specs::specs::Columns::also, rpg_sheet_specs::specs::Columns::past, rpg_sheet_specs::specs::Columns::blank, rpg_sheet_specs::specs::Columns::where_card, rpg_sheet_specs::specs::Tables::input_card, rpg_sheet_specs::specs::Tables::type_or_field_card, rpg_sheet_specs::specs::Tables::type_card, rpg_sheet_specs::specs::Tables::type_and_card, rpg_sheet_specs::specs::Tables::and_codes, rpg_sheet_specs::specs::Tables::record_codes, rpg_sheet_specs::specs::Tables::field_card))]

ghost use Rattle.std.specs.Prelude.{◌≡◌};
ghost use Rattle.rpg_sheet.specs.Rest.{rest_of_field};
ghost use Rattle.rpg_sheet_specs.specs.Tables as tables;

use crate::card::Card;
use crate::columns::{at, indicators};
use rpg_sheet_specs::{
    ColumnFault, InputFieldSpec, InputSpec, RecordCode, RecordType, Three, Word, ranges,
};

#[inline(always)]
pub(crate) fn input_card(card: &Card) -> Result<InputSpec, ColumnFault>
    ensures { result ≡ tables.input_card.reading card.now }
{
    if is_and_card(card) {
        return Ok(InputSpec::And(type_and_card(card)?));
    }
    if is_field_card(card) {
        return Ok(InputSpec::Field(field_card(card)?));
    }
    Ok(InputSpec::Type(type_card(card)?))
}

/// Whether it has AND in columns 14 to 16, and nothing before.
pub(crate) fn is_and_card(card: &Card) -> bool
    ensures { result ≡ tables.is_and_card card.now }
{
    rpg_sheet_values::has_only_blanks(card.columns(ranges::BEFORE_WORD))
        && card.columns(ranges::AND_WORD) == b"AND".as_slice()
}

pub(crate) fn is_field_card(card: &Card) -> bool
    ensures { result ≡ tables.is_field_card card.now }
{
    rpg_sheet_values::has_only_blanks(card.columns(ranges::TYPE_OR_LINE))
}

#[inline(never)]
fn type_card(card: &Card) -> Result<RecordType, ColumnFault>
    ensures { result ≡ tables.type_card.reading card.now }
{
    let file = card.optional_name(ranges::TYPE_FILE)?;
    let text = card.columns(ranges::TYPE_SEQUENCE);
    let sequence = at(ranges::TYPE_SEQUENCE, rpg_sheet_values::letters(text))?;
    card.blank(ranges::BEFORE_INDICATOR)?;
    let indicator = card.optional_indicator(ranges::TYPE_INDICATOR)?;
    let codes = record_codes(card)?;
    card.blank(ranges::AFTER_CODES)?;
    Ok(RecordType {
        file,
        sequence,
        indicator,
        codes,
    })
}

#[inline(never)]
fn type_and_card(card: &Card) -> Result<Three<Option<RecordCode>>, ColumnFault>
    ensures { result ≡ tables.type_and_card.reading card.now }
{
    card.blank(ranges::BEFORE_CODES)?;
    let codes = further_codes(card)?;
    card.blank(ranges::AFTER_CODES)?;
    Ok(codes)
}

/// Reads codes, at least one.
fn further_codes(card: &Card) -> Result<Three<Option<RecordCode>>, ColumnFault>
    ensures { result ≡ tables.and_codes.reading card.now }
{
    if rpg_sheet_values::has_only_blanks(card.columns(ranges::CODES)) {
        return at(ranges::CODES, None);
    }
    record_codes(card)
}

fn record_codes(card: &Card) -> Result<Three<Option<RecordCode>>, ColumnFault>
    ensures { result ≡ tables.record_codes.reading card.now }
{
    let first = card.optional_record_code(ranges::FIRST_CODE)?;
    let second = card.optional_record_code(ranges::SECOND_CODE)?;
    let third = card.optional_record_code(ranges::THIRD_CODE)?;
    Ok(Three {
        first,
        second,
        third,
    })
}

#[inline(never)]
fn field_card(card: &Card) -> Result<InputFieldSpec, ColumnFault>
    ensures { result ≡ tables.field_card.reading card.now }
{
    card.blank(ranges::BEFORE_FIELD)?;
    let from = card.number(ranges::FIRST_COLUMN)?;
    let to = card.number(ranges::LAST_COLUMN)?;
    let decimals = card.optional_digit(ranges::INPUT_DECIMALS)?;
    let name = card.name(ranges::INPUT_NAME)?;
    field_with(card, from, to, decimals, name)
}

/// Reads the rest of a field with these columns and this name.
fn field_with(
    card: &Card,
    from: u16,
    to: u16,
    decimals: Option<u8>,
    name: Word<6>,
) -> Result<InputFieldSpec, ColumnFault>
    ensures { result ≡ (rest_of_field from to decimals name).reading card.now }
{
    let level = card.optional_level(b'L', ranges::INPUT_LEVEL)?;
    let match_level = card.optional_level(b'M', ranges::INPUT_MATCH)?;
    card.blank(ranges::AFTER_MATCH)?;
    let indicators = indicators(card, ranges::INPUT_INDICATORS)?;
    card.blank(ranges::AFTER_INDICATORS)?;
    Ok(InputFieldSpec {
        from,
        to,
        decimals,
        name,
        level,
        match_level,
        indicators,
    })
}
