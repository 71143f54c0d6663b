//! Record types, with their codes, control fields and input fields.

ghost use Rattle.std.specs.Prelude.{◌≡◌, ℕ, ◌++◌, All, false, length, map, OnOk};
ghost use Rattle.rpg_program.specs.declared.input.ControlField as control;
ghost use Rattle.rpg_program.specs.declared.input.InputField as input;
ghost use Rattle.rpg_program.specs.declared.input.RecordCode as code;
ghost use Rattle.rpg_object_format.specs.Format.{table};
ghost use Rattle.rpg_object_format.specs.Reading.{ReadsAs};
ghost use Rattle.rpg_program.specs.Kept.{IsCodeRow, IsControlRow, IsInputRow, IsPlainType, IsTypeRow};
ghost use Rattle.rpg_program.specs.Object.{has_secondary, type_row};
ghost use Rattle.rpg_object_rows.specs.Types as rows;
ghost use Rattle.rpg_object_rows.specs.Types.{control_field_format, input_field_format, record_code_format};

use crate::table::{Row, put_rows, rows_at};
use rpg_object_format::fault::{Code, ReadFault};
use rpg_object_format::indicator::{indicator_at, indicator_number, shows_at};
use rpg_object_format::number::{
    any_number_at, byte_at, byte_between_at, count_at, flag_at, flag_number, high, low,
    only_byte_at, put_numbers,
};
use rpg_program::input::{ControlField, InputField, InputFile, RecordCode};
use rpg_program::rows::{RecordType, Version};
use std::alloc::{AllocError, Global};

#[tactic(auto, unfolding(rpg_object_format::specs::Format::byte, rpg_object_format::specs::Format::two_bytes, rpg_object_format::specs::Format::pair, rpg_object_format::specs::Format::row, crate::specs::Types::record_code_format))]
fn record_code_at(bytes: &[u8]) -> Result<(RecordCode, &[u8]), ReadFault>
    ensures { ReadsAs (λ x. (x.0, x.1.now)) result (record_code_format.reading bytes.now) }
{
    let (position, rest) = any_number_at(bytes)?;
    let (is_negated, rest) = flag_at(rest)?;
    let (character, rest) = byte_between_at(rest, b' ', b'~')?;
    Ok((
        RecordCode {
            position,
            is_negated,
            character,
        },
        rest,
    ))
}

impl Row for RecordCode {
    ghost Seen = { code.RecordCode };

    ghost seen = { λ c. c };

    ghost Keeps = { IsCodeRow };

    ghost read = { record_code_format.reading };

    ghost spell = { record_code_format.spelling };

    fn read_row(_alloc: Global, bytes: &[u8]) -> Result<(Self, &[u8]), ReadFault> {
        record_code_at(bytes)
    }

    #[tactic(auto, unfolding(rpg_object_format::specs::Format::byte, rpg_object_format::specs::Format::two_bytes, rpg_object_format::specs::Format::pair, rpg_object_format::specs::Format::row, crate::specs::Types::record_code_format))]
    fn put_row(&self, out: &mut Vec<u8>) -> Result<(), AllocError> {
        let row = [
            high(self.position),
            low(self.position),
            flag_number(self.is_negated),
            self.character,
        ];
        out.extend_from_slice(&row)?;
        Ok(())
    }
}

#[tactic(auto, unfolding(rpg_object_format::specs::Format::byte, rpg_object_format::specs::Format::two_bytes, rpg_object_format::specs::Format::pair, rpg_object_format::specs::Format::row, crate::specs::Types::control_field_format))]
fn control_field_at(bytes: &[u8]) -> Result<(ControlField, &[u8]), ReadFault>
    ensures { ReadsAs (λ x. (x.0, x.1.now)) result (control_field_format.reading bytes.now) }
{
    let (level, rest) = byte_between_at(bytes, 1, 9)?;
    let (is_numeric, rest) = flag_at(rest)?;
    let (from, rest) = any_number_at(rest)?;
    let (to, rest) = any_number_at(rest)?;
    Ok((
        ControlField {
            level,
            is_numeric,
            from,
            to,
        },
        rest,
    ))
}

impl Row for ControlField {
    ghost Seen = { control.ControlField };

    ghost seen = { λ c. c };

    ghost Keeps = { IsControlRow };

    ghost read = { control_field_format.reading };

    ghost spell = { control_field_format.spelling };

    fn read_row(_alloc: Global, bytes: &[u8]) -> Result<(Self, &[u8]), ReadFault> {
        control_field_at(bytes)
    }

    #[tactic(auto, unfolding(rpg_object_format::specs::Format::byte, rpg_object_format::specs::Format::two_bytes, rpg_object_format::specs::Format::pair, rpg_object_format::specs::Format::row, crate::specs::Types::control_field_format))]
    fn put_row(&self, out: &mut Vec<u8>) -> Result<(), AllocError> {
        let row = [
            self.level,
            flag_number(self.is_numeric),
            high(self.from),
            low(self.from),
            high(self.to),
            low(self.to),
        ];
        out.extend_from_slice(&row)?;
        Ok(())
    }
}

#[tactic(auto, unfolding(rpg_object_format::specs::Format::byte, rpg_object_format::specs::Format::two_bytes, rpg_object_format::specs::Format::pair, rpg_object_format::specs::Format::row, crate::specs::Types::input_field_format))]
fn input_field_at(bytes: &[u8]) -> Result<(InputField<u16>, &[u8]), ReadFault>
    ensures { ReadsAs (λ x. (x.0, x.1.now)) result (input_field_format.reading bytes.now) }
{
    let (from, rest) = any_number_at(bytes)?;
    let (to, rest) = any_number_at(rest)?;
    let (field, rest) = any_number_at(rest)?;
    let (shows, rest) = shows_at(rest)?;
    let (_, rest) = only_byte_at(rest, 0, Code::Unused)?;
    Ok((
        InputField {
            from,
            to,
            field,
            shows,
        },
        rest,
    ))
}

impl Row for InputField<u16> {
    ghost Seen = { input.InputField ℕ };

    ghost seen = { λ f. f };

    ghost Keeps = { IsInputRow };

    ghost read = { input_field_format.reading };

    ghost spell = { input_field_format.spelling };

    fn read_row(_alloc: Global, bytes: &[u8]) -> Result<(Self, &[u8]), ReadFault> {
        input_field_at(bytes)
    }

    #[tactic(auto, unfolding(rpg_object_format::specs::Format::byte, rpg_object_format::specs::Format::two_bytes, rpg_object_format::specs::Format::pair, rpg_object_format::specs::Format::row, rpg_object_format::specs::Indicators::shows_format, crate::specs::Types::input_field_format))]
    fn put_row(&self, out: &mut Vec<u8>) -> Result<(), AllocError> {
        let row = [
            high(self.from),
            low(self.from),
            high(self.to),
            low(self.to),
            high(self.field),
            low(self.field),
            indicator_number(self.shows.plus),
            indicator_number(self.shows.minus),
            indicator_number(self.shows.zero),
            0,
        ];
        out.extend_from_slice(&row)?;
        Ok(())
    }
}

fn input_file_of(n: u8) -> Result<InputFile, Code>
    ensures { result ≡ rows.input_file_by_number n }
{
    match n {
        0 => Ok(InputFile::Primary),
        1 => Ok(InputFile::Secondary),
        _ => Err(Code::NotAllowed),
    }
}

fn input_file_number(file: InputFile) -> u8
    ensures { result ≡ rows.input_file_number file }
{
    match file {
        InputFile::Primary => 0,
        InputFile::Secondary => 1,
    }
}

#[tactic(auto, unfolding(rpg_object_format::specs::Format::read_byte, rpg_object_format::specs::Format::byte, rpg_object_format::specs::Shapes::row_where))]
fn input_file_at(version: Version, bytes: &[u8]) -> Result<(InputFile, &[u8]), ReadFault>
    ensures { ReadsAs (λ x. (x.0, x.1.now)) result ((rows.input_file_format version).reading bytes.now) }
{
    if version.has_secondary() {
        return byte_at(bytes, input_file_of);
    }
    let (_, rest) = only_byte_at(bytes, 0, Code::Unused)?;
    Ok((InputFile::Primary, rest))
}

#[tactic(auto, unfolding(rpg_object_format::specs::Format::two_bytes, rpg_object_format::specs::Shapes::row_where, rpg_object_format::specs::Shapes::no_number))]
fn match_count_at(version: Version, bytes: &[u8]) -> Result<(u16, &[u8]), ReadFault>
    ensures { ReadsAs (λ x. (x.0, x.1.now)) result ((rows.match_count version).reading bytes.now) }
{
    if version.has_secondary() {
        count_at(bytes, 9)
    } else {
        Ok((0, bytes))
    }
}

#[tactic(auto, unfolding(rpg_object_format::specs::Format::two_bytes, rpg_object_format::specs::Shapes::row_where, rpg_object_format::specs::Shapes::no_number))]
fn put_match_count(out: &mut Vec<u8>, version: Version, count: u16) -> Result<(), AllocError>
    ensures { OnOk result (out.new.items ≡ out.old.items ++ (rows.match_count version).spelling count) }
{
    if version.has_secondary() {
        put_numbers(out, &[count])
    } else {
        Ok(())
    }
}

/// Reads a record type, in the encoding of the version. B7 for more than 100 codes, 100 control fields, 500 input fields or 9 match fields.
#[tactic(auto, unfolding(rpg_object_format::specs::Format::byte, rpg_object_format::specs::Format::two_bytes, rpg_object_format::specs::Format::pair, rpg_object_format::specs::Format::row, rpg_object_format::specs::Format::times_with, crate::specs::Types::type_parts, crate::specs::Types::record_type_format))]
pub fn record_type_at(
    alloc: Global,
    version: Version,
    bytes: &[u8],
) -> Result<(RecordType, &[u8]), ReadFault>
    ensures { ReadsAs (λ x. (type_row x.0, x.1.now)) result ((rows.record_type_format version).reading bytes.now) }
{
    let (indicator, rest) = indicator_at(bytes)?;
    let (file, rest) = input_file_at(version, rest)?;
    let (code_count, rest) = count_at(rest, 100)?;
    let (level_count, rest) = count_at(rest, 100)?;
    let (input_count, rest) = count_at(rest, 500)?;
    let (match_count, rest) = match_count_at(version, rest)?;
    let (codes, rest) = rows_at(alloc, code_count, rest)?;
    let (levels, rest) = rows_at(alloc, level_count, rest)?;
    let (inputs, rest) = rows_at(alloc, input_count, rest)?;
    let (matches, rest) = rows_at(alloc, match_count, rest)?;
    Ok((
        RecordType {
            file,
            indicator,
            codes,
            levels,
            inputs,
            matches,
        },
        rest,
    ))
}

/// Writes the numbers of a record type before its tables.
fn put_type_head(
    out: &mut Vec<u8>,
    version: Version,
    record_type: &RecordType,
) -> Result<(), AllocError>
    requires { IsTypeRow (type_row record_type.now) }
    ensures { OnOk result (out.new.items ≡ out.old.items ++ rows.type_head version (type_row record_type.now)) }
{
    let code_count = record_type.codes.len() as u16;
    let level_count = record_type.levels.len() as u16;
    let input_count = record_type.inputs.len() as u16;
    let row = [
        indicator_number(record_type.indicator),
        input_file_number(record_type.file),
        high(code_count),
        low(code_count),
        high(level_count),
        low(level_count),
        high(input_count),
        low(input_count),
    ];
    out.extend_from_slice(&row)?;
    put_match_count(out, version, record_type.matches.len() as u16)
}

/// Writes a record type, in the encoding of the version.
pub fn put_record_type(
    out: &mut Vec<u8>,
    version: Version,
    record_type: &RecordType,
) -> Result<(), AllocError>
    requires row { IsTypeRow (type_row record_type.now) }
    requires plain { has_secondary version ≡ false → IsPlainType (type_row record_type.now) }
    ensures { OnOk result (out.new.items ≡ out.old.items ++ (rows.record_type_format version).spelling (type_row record_type.now)) }
{
    put_type_head(out, version, record_type)?;
    put_rows(&record_type.codes, out)?;
    put_rows(&record_type.levels, out)?;
    put_rows(&record_type.inputs, out)?;
    put_rows(&record_type.matches, out)?;
    Ok(())
}

/// Reads `count` record types. The caller checks the count.
pub fn record_types_at(
    alloc: Global,
    version: Version,
    count: u16,
    bytes: &[u8],
) -> Result<(Vec<RecordType>, &[u8]), ReadFault>
    ensures { ReadsAs (λ x. (map type_row x.0.items, x.1.now)) result ((table count (rows.record_type_format version)).reading bytes.now) }
{
    let mut types = Vec::with_capacity(alloc, count as usize)?;
    let mut rest = bytes;
    for _ in 0..count {
        let (record_type, after) = record_type_at(alloc, version, rest)?;
        types.push(record_type)?;
        rest = after;
    }
    Ok((types, rest))
}

/// Writes record types.
pub fn put_record_types(
    out: &mut Vec<u8>,
    version: Version,
    types: &[RecordType],
) -> Result<(), AllocError>
    requires rows { All IsTypeRow (map type_row types.now) }
    requires plain { has_secondary version ≡ false → All IsPlainType (map type_row types.now) }
    ensures { OnOk result (out.new.items ≡ out.old.items ++ (table (length types.now) (rows.record_type_format version)).spelling (map type_row types.now)) }
{
    for record_type in types {
        put_record_type(out, version, record_type)?;
    }
    Ok(())
}
