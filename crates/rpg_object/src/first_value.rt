//! First values of fields, each in as many bytes as its field has digits or characters.

ghost use Rattle.std.specs.Prelude.{◌≡◌, ◌++◌, ◌<◌, ◌≤◌, ◌^◌, unsigned_abs, All, length, map, OnOk};
ghost use Rattle.rpg_decimal_words.specs.Zoned.{number_in, zoned_text};
ghost use Rattle.rpg_program.specs.declared.form.Kind.TheVariants as kinds;
ghost use Rattle.rpg_program.specs.Values.{entries_held, held};
ghost use Rattle.rpg_object_format.specs.Reading.{ReadsAs};
ghost use Rattle.rpg_program.specs.Kept.{AreEntriesOf, AreValuesOf, IsValueOf};
ghost use Rattle.rpg_object.specs.FirstValues as spec;
ghost use Rattle.rpg_object.specs.FirstValues.{as_written, read_value, value, value_text, values_format, HasLength};

use rpg_decimal::{read_zoned, write_zoned};
use rpg_object_format::fault::{Code, ReadFault};
use rpg_object_format::number::{ends_early, fault_at};
use rpg_program::form::{FieldForm, Kind};
use rpg_program::value::{FieldValues, Value};
use rpg_text::has_only_characters;
use std::alloc::{AllocError, Global};

/// The most digits that a number has.
const DIGITS: usize = 15;

/// The bytes that are copied for a number: a power of 2, which takes one instruction.
const PLACES: usize = 16;

/// Returns the number that a text encodes. The text has no blank for a zero, no letter for a plus sign, and no minus sign on a zero.
#[inline(always)]
fn number_written(text: &[u8]) -> Result<i64, Code>
    requires low { 1 ≤ length text.now }
    requires high { length text.now ≤ 15 }
    ensures { result ≡ as_written text.now (number_in text.now) }
{
    let Ok(number) = read_zoned(text) else {
        return Err(Code::NotAllowed);
    };
    let mut places = [0u8; DIGITS];
    let written = &mut places[..text.len()];
    write_zoned(number, written);
    if &*written == text {
        Ok(number)
    } else {
        Err(Code::NotAllowed)
    }
}

/// Reads a number of `len` digits.
#[inline(always)]
fn number_value_at(bytes: &[u8], len: u16) -> Result<(Value, &[u8]), ReadFault>
    requires low { 1 ≤ len }
    requires high { len ≤ 15 }
    ensures { ReadsAs (λ x. (held x.0, x.1.now)) result (read_value kinds.Number len bytes.now) }
{
    let len = len as usize;
    if bytes.len() < len {
        return Err(ends_early());
    }
    let (text, rest) = bytes.split_at(len);
    match number_written(text) {
        Ok(number) => Ok((Value::Number(number), rest)),
        Err(code) => Err(fault_at(bytes, code)),
    }
}

/// Reads a text of `len` characters.
#[inline(always)]
fn text_value_at(alloc: Global, bytes: &[u8], len: u16) -> Result<(Value, &[u8]), ReadFault>
    ensures { ReadsAs (λ x. (held x.0, x.1.now)) result (read_value kinds.Text len bytes.now) }
{
    let len = len as usize;
    if bytes.len() < len {
        return Err(ends_early());
    }
    let (text, rest) = bytes.split_at(len);
    if !has_only_characters(text) {
        return Err(fault_at(bytes, Code::NotAllowed));
    }
    let characters = Vec::from_slice(alloc, text)?;
    Ok((Value::Text(characters), rest))
}

#[inline(always)]
#[tactic(auto, unfolding(crate::specs::FirstValues::value))]
fn value_at(alloc: Global, bytes: &[u8], form: FieldForm) -> Result<(Value, &[u8]), ReadFault>
    requires { HasLength form }
    ensures { ReadsAs (λ x. (held x.0, x.1.now)) result ((value form.kind form.length).reading bytes.now) }
{
    match form.kind {
        Kind::Number => number_value_at(bytes, form.length),
        Kind::Text => text_value_at(alloc, bytes, form.length),
    }
}

/// Reads a value for each entry of an array or a table.
fn entries_at(
    alloc: Global,
    form: FieldForm,
    bytes: &[u8],
) -> Result<(Vec<Value>, &[u8]), ReadFault>
    requires { HasLength form }
    ensures { ReadsAs (λ x. (map held x.0.items, x.1.now)) result ((spec.entries_format form).reading bytes.now) }
{
    let mut entries = Vec::with_capacity(alloc, form.entries as usize)?;
    let mut rest = bytes;
    for _ in 0..form.entries {
        let (value, after) = value_at(alloc, rest, form)?;
        entries.push(value)?;
        rest = after;
    }
    Ok((entries, rest))
}

/// Reads the values of a field.
fn field_values_at(
    alloc: Global,
    form: FieldForm,
    bytes: &[u8],
) -> Result<(FieldValues, &[u8]), ReadFault>
    requires { HasLength form }
    ensures { ReadsAs (λ x. (entries_held x.0, x.1.now)) result ((spec.entries_format form).reading bytes.now) }
{
    if form.entries == 1 {
        let (value, rest) = value_at(alloc, bytes, form)?;
        return Ok((FieldValues::One(value), rest));
    }
    let (entries, rest) = entries_at(alloc, form, bytes)?;
    Ok((FieldValues::Many(entries), rest))
}

/// Reads the values of each field.
pub fn values_at<'a>(
    alloc: Global,
    fields: &[FieldForm],
    bytes: &'a [u8],
) -> Result<(Vec<FieldValues>, &'a [u8]), ReadFault>
    requires { All HasLength fields.now }
    ensures { ReadsAs (λ x. (map entries_held x.0.items, x.1.now)) result ((values_format fields.now).reading bytes.now) }
{
    let mut values = Vec::with_capacity(alloc, fields.len())?;
    let mut rest = bytes;
    for field in fields {
        let (entries, after) = field_values_at(alloc, *field, rest)?;
        values.push(entries)?;
        rest = after;
    }
    Ok((values, rest))
}

/// Writes a number in `length` bytes. Copying a fixed number of bytes and taking back the rest is cheaper than copying `length` bytes.
fn put_number(out: &mut Vec<u8>, number: i64, length: u16) -> Result<(), AllocError>
    requires low { 1 ≤ length }
    requires high { length ≤ 15 }
    requires fits { unsigned_abs number < 10 ^ length }
    ensures { OnOk result (out.new.items ≡ out.old.items ++ zoned_text length number) }
{
    let mut places = [0u8; PLACES];
    write_zoned(number, &mut places[..length as usize]);
    out.extend_from_slice(&places)?;
    out.truncate(out.len() - (PLACES - length as usize));
    Ok(())
}

/// Writes a value in as many bytes as its field is long.
fn put_value(out: &mut Vec<u8>, value: &Value, form: FieldForm) -> Result<(), AllocError>
    requires length { HasLength form }
    requires value { IsValueOf form.kind form.length (held value.now) }
    ensures { OnOk result (out.new.items ≡ out.old.items ++ value_text form.length (held value.now)) }
{
    match value {
        Value::Number(number) => put_number(out, *number, form.length),
        Value::Text(text) => {
            out.extend_from_slice(text)?;
            Ok(())
        }
    }
}

/// Writes the values of a field's entries.
fn put_entries(out: &mut Vec<u8>, entries: &[Value], form: FieldForm) -> Result<(), AllocError>
    requires length { HasLength form }
    requires entries { AreEntriesOf form (map held entries.now) }
    ensures { OnOk result (out.new.items ≡ out.old.items ++ (spec.entries_format form).spelling (map held entries.now)) }
{
    for value in entries {
        put_value(out, value, form)?;
    }
    Ok(())
}

/// Writes the values of each field.
pub fn put_values(
    out: &mut Vec<u8>,
    fields: &[FieldForm],
    list: &[FieldValues],
) -> Result<(), AllocError>
    requires lengths { All HasLength fields.now }
    requires number { length list.now ≡ length fields.now }
    requires values { AreValuesOf fields.now (map entries_held list.now) }
    ensures { OnOk result (out.new.items ≡ out.old.items ++ (values_format fields.now).spelling (map entries_held list.now)) }
{
    for (i, field) in fields.iter().enumerate() {
        put_entries(out, list[i].as_slice(), *field)?;
    }
    Ok(())
}
