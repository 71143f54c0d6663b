//! Fields, 8 bytes each.

ghost use Rattle.std.specs.Prelude.{◌≡◌, ◌++◌, All, length, Result, IfOk, OnOk};
ghost use Rattle.rpg_program.specs.Forms.{is_date};
ghost use Rattle.rpg_object_format.specs.declared.fault.Code.{Code};
ghost use Rattle.rpg_object_format.specs.Format.{read_byte, read_two};
ghost use Rattle.rpg_object_format.specs.Numbers.{allowed};
ghost use Rattle.rpg_object_format.specs.Reading.{ReadsAs};
ghost use Rattle.rpg_program.specs.Kept.{may_have_entries};
ghost use Rattle.rpg_object.specs.Fields.{class_number, class_of, entries_within, field, fields, is_decimals, kind_by_number, kind_number, longest_field, most_decimals, most_entries, sequence_of, shortest};
ghost use Rattle.rpg_object.specs.FirstValues.{HasLength};

use rpg_object_format::fault::{Code, ReadFault};
use rpg_object_format::number::{byte_at, flag_number, high, low, number_at, number_between_at};
use rpg_program::form::{Class, FieldForm, Kind};
use std::alloc::{AllocError, Global};

/// The bytes of storage that all fields have together.
const STORAGE: u32 = 65_535;

fn kind_of(n: u8) -> Result<Kind, Code>
    ensures { result ≡ kind_by_number n }
{
    match n {
        1 => Ok(Kind::Number),
        2 => Ok(Kind::Text),
        _ => Err(Code::NotAllowed),
    }
}

fn kind_number(kind: Kind) -> u8
    ensures { result ≡ kind_number kind }
{
    match kind {
        Kind::Number => 1,
        Kind::Text => 2,
    }
}

/// Returns the class of a number or a text. A text can't be a date.
fn class_of(kind: Kind, n: u8) -> Result<Class, Code>
    ensures { result ≡ class_of kind n }
{
    match (kind, n) {
        (_, 0) => Ok(Class::Plain),
        (_, 1) => Ok(Class::Array),
        (_, 2) => Ok(Class::Table),
        (_, 3) => Ok(Class::Constant),
        (Kind::Number, 4) => Ok(Class::Date),
        _ => Err(Code::NotAllowed),
    }
}

fn class_number(class: Class) -> u8
    ensures { result ≡ class_number class }
{
    match class {
        Class::Plain => 0,
        Class::Array => 1,
        Class::Table => 2,
        Class::Constant => 3,
        Class::Date => 4,
    }
}

fn is_date(class: Class) -> bool
    ensures { result ≡ is_date class }
{
    match class {
        Class::Date => true,
        Class::Plain | Class::Array | Class::Table | Class::Constant => false,
    }
}

fn has_entries(class: Class) -> bool
    ensures { result ≡ may_have_entries class }
{
    match class {
        Class::Array | Class::Table => true,
        Class::Plain | Class::Constant | Class::Date => false,
    }
}

fn shortest(class: Class) -> u16
    ensures { result ≡ shortest class }
{
    if is_date(class) { 6 } else { 1 }
}

fn longest(kind: Kind, class: Class) -> u16
    ensures { result ≡ longest_field kind class }
{
    if is_date(class) {
        return 6;
    }
    match kind {
        Kind::Number => 15,
        Kind::Text => 256,
    }
}

fn most_decimals(kind: Kind, class: Class) -> u8
    ensures { result ≡ most_decimals kind class }
{
    match kind {
        Kind::Number => { if is_date(class) { 0 } else { 9 } }
        Kind::Text => 0,
    }
}

fn most_entries(class: Class) -> u16
    ensures { result ≡ most_entries class }
{
    if has_entries(class) { 9_999 } else { 1 }
}

fn sequence_of(class: Class, n: u8) -> Result<bool, Code>
    ensures { result ≡ sequence_of class n }
{
    match n {
        0 => Ok(false),
        1 if has_entries(class) => Ok(true),
        _ => Err(Code::NotAllowed),
    }
}

fn decimals_of(most: u8, length: u16, n: u8) -> Result<u8, Code>
    ensures { result ≡ allowed (is_decimals most length) n }
{
    if n <= most && u16::from(n) <= length {
        Ok(n)
    } else {
        Err(Code::NotAllowed)
    }
}

/// Checks the number of entries of a field, whose bytes must fit in the remaining storage.
fn entries_within(most: u16, length: u16, storage: u32, n: u16) -> Result<u16, Code>
    ensures { result ≡ entries_within most length storage n }
{
    if n < 1 || most < n {
        Err(Code::NotAllowed)
    } else if (length as u32) * (n as u32) <= storage {
        Ok(n)
    } else {
        Err(Code::PastLimit)
    }
}

#[tactic(auto, unfolding(rpg_object_format::specs::Format::read_byte))]
fn kind_at(bytes: &[u8]) -> Result<(Kind, &[u8]), ReadFault>
    ensures { ReadsAs (λ x. (x.0, x.1.now)) result (read_byte kind_by_number bytes.now) }
{
    byte_at(bytes, kind_of)
}

#[tactic(auto, unfolding(rpg_object_format::specs::Format::read_byte))]
fn class_at(bytes: &[u8], kind: Kind) -> Result<(Class, &[u8]), ReadFault>
    ensures { ReadsAs (λ x. (x.0, x.1.now)) result (read_byte (class_of kind) bytes.now) }
{
    byte_at(bytes, |n| class_of(kind, n))
}

#[tactic(auto, unfolding(rpg_object_format::specs::Format::read_byte))]
fn sequence_at(bytes: &[u8], class: Class) -> Result<(bool, &[u8]), ReadFault>
    ensures { ReadsAs (λ x. (x.0, x.1.now)) result (read_byte (sequence_of class) bytes.now) }
{
    byte_at(bytes, |n| sequence_of(class, n))
}

#[tactic(auto, unfolding(rpg_object_format::specs::Format::read_byte))]
fn decimals_at(bytes: &[u8], most: u8, length: u16) -> Result<(u8, &[u8]), ReadFault>
    ensures { ReadsAs (λ x. (x.0, x.1.now)) result (read_byte (allowed (is_decimals most length)) bytes.now) }
{
    byte_at(bytes, |n| decimals_of(most, length, n))
}

#[tactic(auto, unfolding(rpg_object_format::specs::Format::read_two))]
fn entries_at(bytes: &[u8], most: u16, length: u16, storage: u32) -> Result<(u16, &[u8]), ReadFault>
    ensures { ReadsAs (λ x. (x.0, x.1.now)) result (read_two (entries_within most length storage) bytes.now) }
{
    number_at(bytes, |n| entries_within(most, length, storage, n))
}

/// Reads a field, which takes its bytes from the remaining storage.
#[tactic(auto, unfolding(rpg_object_format::specs::Format::byte, rpg_object_format::specs::Format::two_bytes, rpg_object_format::specs::Format::pair, rpg_object_format::specs::Format::row, crate::specs::Fields::field))]
fn field_at(bytes: &[u8], storage: u32) -> Result<(FieldForm, &[u8]), ReadFault>
    ensures { ReadsAs (λ x. (x.0, x.1.now)) result ((field storage).reading bytes.now) }
{
    let (kind, rest) = kind_at(bytes)?;
    let (class, rest) = class_at(rest, kind)?;
    let (length, rest) = number_between_at(rest, shortest(class), longest(kind, class))?;
    let (decimals, rest) = decimals_at(rest, most_decimals(kind, class), length)?;
    let (is_ascending, rest) = sequence_at(rest, class)?;
    let (entries, rest) = entries_at(rest, most_entries(class), length, storage)?;
    Ok((
        FieldForm {
            kind,
            class,
            length,
            decimals,
            is_ascending,
            entries,
        },
        rest,
    ))
}

/// Reads `count` fields.
pub fn fields_at(
    alloc: Global,
    count: u16,
    bytes: &[u8],
) -> Result<(Vec<FieldForm>, &[u8]), ReadFault>
    ensures read { ReadsAs (λ x. (x.0.items, x.1.now)) result ((fields count).reading bytes.now) }
    ensures lengths { IfOk result (λ x. All HasLength x.0.items) }
{
    let mut fields = Vec::with_capacity(alloc, count as usize)?;
    let mut rest = bytes;
    let mut storage = STORAGE;
    for _ in 0..count {
        let (field, after) = field_at(rest, storage)?;
        storage = storage.saturating_sub((field.length as u32) * (field.entries as u32));
        fields.push(field)?;
        rest = after;
    }
    Ok((fields, rest))
}

/// Writes a field.
#[tactic(auto, unfolding(rpg_object_format::specs::Format::byte, rpg_object_format::specs::Format::two_bytes, rpg_object_format::specs::Format::pair, rpg_object_format::specs::Format::row, crate::specs::Fields::field))]
fn put_field(out: &mut Vec<u8>, f: &FieldForm) -> Result<(), AllocError>
    ensures { OnOk result (out.new.items ≡ out.old.items ++ (field 65535).spelling f.now) }
{
    let row = [
        kind_number(f.kind),
        class_number(f.class),
        high(f.length),
        low(f.length),
        f.decimals,
        flag_number(f.is_ascending),
        high(f.entries),
        low(f.entries),
    ];
    out.extend_from_slice(&row)?;
    Ok(())
}

/// Writes all fields.
pub fn put_fields(out: &mut Vec<u8>, forms: &[FieldForm]) -> Result<(), AllocError>
    ensures { OnOk result (out.new.items ≡ out.old.items ++ (fields (length forms.now)).spelling forms.now) }
{
    for form in forms {
        put_field(out, form)?;
    }
    Ok(())
}
