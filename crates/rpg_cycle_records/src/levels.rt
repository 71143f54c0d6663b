//! Control levels.
ghost use Rattle.std.specs.Prelude.{◌≡◌, ◌∷◌, [], ◌++◌, ◌+◌, ◌-◌, ◌≤◌, ◌<◌, IfOk, OnOk, ℕ, length, map, slice_index_or, slice_range, slice_set, Some, None, true, false, option_map, if◌then◌else◌};
ghost use Rattle.std.specs.List.{All};
ghost use Rattle.rpg_cycle_records.specs.Fitting.{IsControlIn};
ghost use Rattle.rpg_cycle_records.specs.Earlier.{or_before};
ghost use Rattle.rpg_cycle_records.specs.Keeping.{renewed, seen_bytes, seen_levels};
ghost use Rattle.rpg_cycle_records.specs.Levels as spec;
ghost use Rattle.rpg_cycle_records.specs.Fronts.{rest_following};
ghost use Rattle.rpg_cycle_records.specs.Lasting.{are_last, is_last};

use crate::matching::{is_plain, replace};
use rpg_program::input::ControlField;
use std::alloc::AllocError;

/// Returns the digit of a byte in a numeric control field.
fn digit_of(byte: u8) -> u8
    ensures { result ≡ spec.unsigned_digit byte }
{
    match byte {
        b' ' | b'{' | b'}' => b'0',
        b'A'..=b'I' => byte - 16,
        b'J'..=b'R' => byte - 25,
        _ => byte,
    }
}

fn byte_of(is_numeric: bool, byte: u8) -> u8
    ensures { result ≡ spec.compared_byte is_numeric byte }
{
    if is_numeric { digit_of(byte) } else { byte }
}

/// The columns of a control field.
pub(crate) fn columns_of(text: &[u8], field: ControlField) -> &[u8]
    requires { IsControlIn (length text.now) field }
    ensures { result.now ≡ slice_range text.now (field.from - 1) field.to }
{
    &text[field.from as usize - 1..field.to as usize]
}

/// Returns what follows the first byte, if it is `first`.
fn after_one(bytes: &[u8], first: u8) -> Option<&[u8]>
    ensures { option_map (λ r. r.now) result ≡ rest_following (first ∷ []) bytes.now }
{
    match bytes {
        [byte, others @ ..] if *byte == first => Some(others),
        _ => None,
    }
}

/// Returns what follows a control field's bytes, if `bytes` begins with them.
fn following<'a>(bytes: &'a [u8], text: &[u8], field: ControlField) -> Option<&'a [u8]>
    requires { IsControlIn (length text.now) field }
    ensures { option_map (λ r. r.now) result ≡ rest_following (spec.compared text.now field) bytes.now }
{
    let columns = columns_of(text, field);
    let mut rest = bytes;
    for byte in columns {
        match after_one(rest, byte_of(field.is_numeric, *byte)) {
            Some(others) => rest = others,
            None => return None,
        }
    }
    Some(rest)
}

/// Like `following`, but skips a control field of another level.
fn after_level<'a>(bytes: &'a [u8], text: &[u8], field: ControlField, level: u8) -> Option<&'a [u8]>
    requires { IsControlIn (length text.now) field }
    ensures { option_map (λ r. r.now) result ≡ rest_following (spec.at_level text.now level field) bytes.now }
{
    if field.level == level {
        following(bytes, text, field)
    } else {
        Some(bytes)
    }
}

/// Whether these are the bytes of a level.
#[tactic(auto, using(crate::proofs::Fronts::same_after))]
fn is_joined(bytes: &[u8], fields: &[ControlField], text: &[u8], level: u8) -> bool
    requires { All (IsControlIn (length text.now)) fields.now }
    ensures { result ≡ spec.same_bytes bytes.now (spec.joined_bytes fields.now text.now level) }
{
    let mut rest = bytes;
    for field in fields {
        match after_level(rest, text, *field, level) {
            Some(others) => rest = others,
            None => return false,
        }
    }
    rest.is_empty()
}

/// Appends the digits of numeric columns.
fn add_digits(bytes: &mut Vec<u8>, columns: &[u8]) -> Result<(), AllocError>
    ensures { OnOk result (bytes.new.items ≡ bytes.old.items ++ map spec.unsigned_digit columns.now) }
{
    for byte in columns {
        bytes.push(digit_of(*byte))?;
    }
    Ok(())
}

/// Appends the bytes of a control field, in one piece if it isn't numeric.
#[inline(always)]
#[tactic(auto, using(crate::proofs::Lasting::plain_columns))]
pub(crate) fn add(bytes: &mut Vec<u8>, text: &[u8], field: ControlField) -> Result<(), AllocError>
    requires { IsControlIn (length text.now) field }
    ensures { OnOk result (bytes.new.items ≡ bytes.old.items ++ spec.compared text.now field) }
{
    let columns = columns_of(text, field);
    if field.is_numeric {
        add_digits(bytes, columns)
    } else {
        bytes.extend_from_slice(columns)
    }
}

/// Appends the bytes of a level.
pub(crate) fn join(
    bytes: &mut Vec<u8>,
    fields: &[ControlField],
    text: &[u8],
    level: u8,
) -> Result<(), AllocError>
    requires { All (IsControlIn (length text.now)) fields.now }
    ensures { OnOk result (bytes.new.items ≡ bytes.old.items ++ spec.joined_bytes fields.now text.now level) }
{
    for field in fields {
        if field.level == level {
            add(bytes, text, *field)?;
        }
    }
    Ok(())
}

/// The bytes of a level in the last record that has it.
#[derive(Drop)]
pub struct LastBytes {
    /// Whether a record had the level.
    pub is_known: bool,
    pub bytes: Vec<u8>,
}

/// Compares a level's bytes with the last ones and replaces these. Returns whether they differ.
fn renew(
    last: &mut LastBytes,
    fields: &[ControlField],
    text: &[u8],
    level: u8,
) -> Result<bool, AllocError>
    requires { All (IsControlIn (length text.now)) fields.now }
    ensures differs { IfOk result (λ b. b ≡ spec.differs (seen_bytes last.old) (Some (spec.joined_bytes fields.now text.now level))) }
    ensures kept { OnOk result (seen_bytes last.new ≡ Some (spec.joined_bytes fields.now text.now level)) }
{
    if last.is_known && is_joined(&last.bytes, fields, text, level) {
        return Ok(false);
    }
    last.bytes.clear();
    join(&mut last.bytes, fields, text, level)?;
    last.is_known = true;
    Ok(true)
}

fn has_level(fields: &[ControlField], level: u8) -> bool
    ensures { result ≡ spec.has_level fields.now level }
{
    fields.iter().any(|f| f.level == level)
}

/// Like `renew`, if the fields have the level.
fn renew_if_there(
    last: &mut LastBytes,
    fields: &[ControlField],
    text: &[u8],
    level: u8,
) -> Result<bool, AllocError>
    requires { All (IsControlIn (length text.now)) fields.now }
    ensures differs { IfOk result (λ b. b ≡ spec.differs (seen_bytes last.old) (spec.level_bytes fields.now text.now level)) }
    ensures kept { OnOk result (seen_bytes last.new ≡ or_before (seen_bytes last.old) (spec.level_bytes fields.now text.now level)) }
{
    if !has_level(fields, level) {
        return Ok(false);
    }
    renew(last, fields, text, level)
}

fn higher(is_broken: bool, level: usize, lower: usize) -> usize
    ensures { result ≡ if is_broken then level else lower }
{
    if is_broken { level } else { lower }
}

/// Returns the highest level of the control fields, 0 if there are none.
fn highest_level(fields: &[ControlField]) -> u8
    ensures { (k : ℕ) → result < k → spec.has_level fields.now k ≡ false }
{
    let mut highest = 0;
    for field in fields {
        if field.level > highest {
            highest = field.level;
        }
    }
    highest
}

/// Whether these are the digits of numeric columns.
fn are_digits_of(bytes: &[u8], columns: &[u8]) -> bool
    requires { length bytes.now ≡ length columns.now }
    ensures { result ≡ spec.same_bytes bytes.now (map spec.unsigned_digit columns.now) }
{
    for i in 0..bytes.len() {
        if bytes[i] != digit_of(columns[i]) {
            return false;
        }
    }
    true
}

/// Whether these are the bytes of a control field.
#[inline(always)]
fn are_bytes_of(bytes: &[u8], text: &[u8], field: &ControlField) -> bool
    requires { IsControlIn (length text.now) field.now }
    ensures { result ≡ spec.same_bytes bytes.now (spec.compared text.now field.now) }
{
    let columns = columns_of(text, *field);
    if field.is_numeric {
        bytes.len() == columns.len() && are_digits_of(bytes, columns)
    } else {
        bytes == columns
    }
}

/// Whether these are the last bytes of a control field's level.
#[inline(always)]
fn has_last_bytes(levels: &[LastBytes], text: &[u8], field: &ControlField) -> bool
    requires nine { length levels.now ≡ 9 }
    requires field { IsControlIn (length text.now) field.now }
    ensures { result ≡ is_last (seen_levels levels.now) text.now field.now }
{
    if field.level == 0 || field.level > 9 {
        return false;
    }
    let last = &levels[usize::from(field.level) - 1];
    last.is_known && are_bytes_of(&last.bytes, text, field)
}

/// Whether each control field is the only one of its level and has the last bytes, as in most records.
#[inline(always)]
fn are_all_last(levels: &[LastBytes], fields: &[ControlField], text: &[u8]) -> bool
    requires nine { length levels.now ≡ 9 }
    requires fields { All (IsControlIn (length text.now)) fields.now }
    ensures { result ≡ are_last (seen_levels levels.now) text.now fields.now }
{
    for i in 0..fields.len() {
        let field = &fields[i];
        if has_level(&fields[i + 1..], field.level) || !has_last_bytes(levels, text, field) {
            return false;
        }
    }
    true
}

/// Compares the levels with the last bytes, L1 first, and keeps the record's.
#[inline(never)]
fn renew_all(
    levels: &mut [LastBytes],
    fields: &[ControlField],
    text: &[u8],
) -> Result<usize, AllocError>
    requires nine { length levels.old ≡ 9 }
    requires fields { All (IsControlIn (length text.now)) fields.now }
    ensures broken { IfOk result (λ n. n ≡ spec.broken_in fields.now text.now (seen_levels levels.old)) }
    ensures low { IfOk result (λ n. n ≤ 9) }
    ensures kept { OnOk result (seen_levels levels.new ≡ renewed fields.now text.now 9 (seen_levels levels.old)) }
{
    let mut broken = 0;
    for i in 0..usize::from(highest_level(fields).min(9)) {
        let is_broken = renew_if_there(&mut levels[i], fields, text, i as u8 + 1)?;
        broken = higher(is_broken, i + 1, broken);
    }
    Ok(broken)
}

/// Replaces the last bytes of the level of a control field that isn't numeric. Returns the level.
#[inline(always)]
fn renew_plain(
    levels: &mut [LastBytes],
    field: ControlField,
    text: &[u8],
) -> Result<usize, AllocError>
    requires nine { length levels.old ≡ 9 }
    requires inside { IsControlIn (length text.now) field }
    requires low { 1 ≤ field.level }
    requires high { field.level ≤ 9 }
    requires plain { field.is_numeric ≡ false }
    ensures level { IfOk result (λ n. n ≡ field.level) }
    ensures kept { OnOk result (seen_levels levels.new ≡ slice_set (seen_levels levels.old) (field.level - 1) (Some (spec.compared text.now field))) }
{
    let level = usize::from(field.level);
    let last = &mut levels[level - 1];
    replace(&mut last.bytes, text, field)?;
    last.is_known = true;
    Ok(level)
}

/// Like `renew_all`, for a record that doesn't have all the last bytes: at once, if it has one control field that isn't numeric.
#[inline(never)]
fn renew_changed(
    levels: &mut [LastBytes],
    fields: &[ControlField],
    text: &[u8],
) -> Result<usize, AllocError>
    requires nine { length levels.old ≡ 9 }
    requires fields { All (IsControlIn (length text.now)) fields.now }
    requires changed { are_last (seen_levels levels.old) text.now fields.now ≡ false }
    ensures broken { IfOk result (λ n. n ≡ spec.broken_in fields.now text.now (seen_levels levels.old)) }
    ensures low { IfOk result (λ n. n ≤ 9) }
    ensures kept { OnOk result (seen_levels levels.new ≡ renewed fields.now text.now 9 (seen_levels levels.old)) }
{
    if let [field] = fields {
        if is_plain(*field) {
            return renew_plain(levels, *field, text);
        }
    }
    renew_all(levels, fields, text)
}

/// Compares the levels of a record, padded to its length, with the last bytes, L1 first, and keeps the record's. Returns the highest level
/// that differs, 1 to 9, or 0. Allocates only if a level's buffer is too small; after an error some levels may be kept and others not.
#[inline(always)]
pub fn compare(
    levels: &mut [LastBytes],
    fields: &[ControlField],
    text: &[u8],
) -> Result<usize, AllocError>
    requires nine { length levels.old ≡ 9 }
    requires fields { All (IsControlIn (length text.now)) fields.now }
    ensures broken { IfOk result (λ n. n ≡ spec.broken_in fields.now text.now (seen_levels levels.old)) }
    ensures low { IfOk result (λ n. n ≤ 9) }
    ensures kept { OnOk result (seen_levels levels.new ≡ renewed fields.now text.now 9 (seen_levels levels.old)) }
{
    if are_all_last(levels, fields, text) {
        return Ok(0);
    }
    renew_changed(levels, fields, text)
}
