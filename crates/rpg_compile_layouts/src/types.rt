//! Record types, from the groups of I cards.

ghost use Rattle.std.specs.Prelude.{◌≡◌, All, map, IfOk};
ghost use Rattle.rpg_compile_layouts.specs.Parts.{inputs_after, type_following};
ghost use Rattle.rpg_compile_layouts.specs.Within.{IsTypeWithin};
ghost use Rattle.rpg_program.specs.Kept.{AreIndicators, IsInputRow, IsTypeRow};
ghost use Rattle.rpg_program.specs.Object.{type_row};
ghost use Rattle.rpg_program.specs.Naming.{renamed_input, renamed_type};
ghost use Rattle.rpg_compile_program.specs.Table.{key_number};
ghost use Rattle.rpg_compile_program.specs.Types as types;

use crate::codes::codes_of;
use crate::files::{own_or, read_from};
use crate::levels::levels_of;
use rpg_cards::{SpecCard, number_of, shows_of};
use rpg_compile_program::FieldTable;
use rpg_program::input::{InputField, InputFile};
use rpg_program::operation::Shows;
use rpg_program::rows::RecordType;
use rpg_sheet_specs::InputSpec;
use std::alloc::{AllocError, Global};

/// Returns a row for each group of I cards, with fields by number.
#[tactic(auto, using(crate::proofs::Followers::types_other))]
pub fn types_of(
    alloc: Global,
    table: &FieldTable,
    cards: &[SpecCard],
) -> Result<Vec<RecordType>, AllocError>
    requires { All IsTypeWithin (types.types_on cards.now) }
    ensures types { IfOk result (λ v. map type_row v.items ≡ map (renamed_type (key_number table.now)) (types.types_on cards.now)) }
    ensures rows { IfOk result (λ v. All IsTypeRow (map type_row v.items)) }
{
    let mut types = Vec::new(alloc);
    let nameless = None;
    let mut name = &nameless;
    let mut rest = cards;
    while let Some((card, following)) = rest.split_first() {
        if let Some(record_type) = card.record_type() {
            name = own_or(&record_type.file, name);
            let file = read_from(cards, name);
            types.push(type_of(alloc, table, file, record_type, following)?)?;
        }
        rest = following;
    }
    Ok(types)
}

/// Returns the type that a type card begins, with the cards after it.
fn type_of(
    alloc: Global,
    table: &FieldTable,
    file: InputFile,
    record_type: &rpg_sheet_specs::RecordType,
    following: &[SpecCard],
) -> Result<RecordType, AllocError>
    requires { IsTypeWithin (type_following file record_type.now following.now) }
    ensures row { IfOk result (λ t. type_row t ≡ renamed_type (key_number table.now) (type_following file record_type.now following.now)) }
    ensures kept { IfOk result (λ t. IsTypeRow (type_row t)) }
{
    let codes = codes_of(alloc, record_type.codes, following)?;
    let count = count_fields(following);
    let (levels, matches) = levels_of(alloc, count, following)?;
    let inputs = inputs_of(alloc, count, table, following)?;
    Ok(RecordType {
        file,
        indicator: number_of(record_type.indicator),
        codes,
        levels,
        inputs,
        matches,
    })
}

/// Counts the field cards up to the next type card.
fn count_fields(following: &[SpecCard]) -> usize {
    let mut count = 0usize;
    for card in following {
        match card.input() {
            Some(InputSpec::Type(_)) => return count,
            Some(InputSpec::Field(_)) => count = count.saturating_add(1),
            Some(InputSpec::And(_)) | None => {}
        }
    }
    count
}

/// Returns an input field for each field card up to the next type card.
#[tactic(auto, using(crate::proofs::Followers::next_input))]
fn inputs_of(
    alloc: Global,
    count: usize,
    table: &FieldTable,
    following: &[SpecCard],
) -> Result<Vec<InputField<u16>>, AllocError>
    ensures inputs { IfOk result (λ v. v.items ≡ map (renamed_input (key_number table.now)) (inputs_after following.now)) }
    ensures kept { IfOk result (λ v. All IsInputRow v.items) }
{
    let mut inputs = Vec::with_capacity(alloc, count)?;
    for card in following {
        let field = match card.input() {
            Some(InputSpec::Type(_)) => return Ok(inputs),
            Some(InputSpec::Field(field)) => field,
            Some(InputSpec::And(_)) | None => continue,
        };
        inputs.push(input_of(table, field))?;
    }
    Ok(inputs)
}

/// Returns the columns of a field, with the indicators that show its value.
fn input_of(table: &FieldTable, field: &rpg_sheet_specs::InputFieldSpec) -> InputField<u16>
    ensures value { result ≡ renamed_input (key_number table.now) (types.input_row field.now) }
    ensures kept { IsInputRow result }
{
    let number = table.name_number(&field.name);
    input_row(field.from, field.to, number, shows_of(field.indicators))
}

fn input_row(from: u16, to: u16, field: u16, shows: Shows) -> InputField<u16>
    requires { AreIndicators shows }
    ensures value { result ≡ record { from = from; to = to; field = field; shows = shows } }
    ensures kept { IsInputRow result }
{
    InputField {
        from,
        to,
        field,
        shows,
    }
}
