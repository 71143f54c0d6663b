//! Match values: a record's value, and how values compare.
ghost use Rattle.std.specs.Prelude.{◌≡◌, ◌++◌, ◌≤◌, All, IsTrue, OnOk, Some, false, length};
ghost use Rattle.rpg_cycle_records.specs.Fitting.{IsControlIn};
ghost use Rattle.rpg_cycle_records.specs.Keeping.{seen_value};
ghost use Rattle.rpg_cycle_records.specs.Levels.{compared};
ghost use Rattle.rpg_cycle_records.specs.Matching as spec;
ghost use Rattle.rpg_decimal_words.specs.Order.{character_cmp};

use crate::levels::{columns_of, join};
use crate::program::{file_of, match_fields};
use rpg_decimal::rank;
use rpg_program::input::{ControlField, InputFile};
use rpg_verify::Verified;
use std::alloc::{AllocError, Global};
use std::cmp::Ordering;

/// The most bytes that the match fields of a type have together.
pub(crate) const LONGEST_VALUE: usize = 256;

/// The match value of a record; none if its type has no match fields.
#[derive(Drop)]
pub struct MatchValue {
    pub is_there: bool,
    pub bytes: Vec<u8>,
}

impl MatchValue {
    ghost use Rattle.std.specs.Prelude.{None, IfOk};

    /// No value, with room for one of `room` bytes.
    pub fn none(alloc: Global, room: usize) -> Result<MatchValue, AllocError>
        ensures { IfOk result (λ v. seen_value v ≡ None) }
    {
        Ok(MatchValue {
            is_there: false,
            bytes: Vec::with_capacity(alloc, room)?,
        })
    }

    /// Replaces the value by that of a record, which is padded to its length. Allocates only if the buffer is too small; after an error the
    /// value is unusable.
    #[inline(always)]
    pub fn take(&mut self, fields: &[ControlField], text: &[u8]) -> Result<(), AllocError>
        requires { All (IsControlIn (length text.now)) fields.now }
        ensures { OnOk result (seen_value self.new ≡ spec.match_value_in fields.now text.now) }
    {
        if fields.is_empty() {
            self.is_there = false;
            return Ok(());
        }
        self.is_there = true;
        take_value(&mut self.bytes, fields, text)
    }

    /// Whether both values exist and this one is greater than the other.
    #[inline(always)]
    pub fn exceeds(&self, other: &MatchValue) -> bool
        ensures { result ≡ spec.exceeds (seen_value self.now) (seen_value other.now) }
    {
        other.is_there
            && self.is_there
            && compare_values(&self.bytes, &other.bytes) == Ordering::Greater
    }

    /// Whether both values exist and are equal.
    #[tactic(auto, using(crate::proofs::Order::same_is_equal))]
    pub fn agrees(&self, other: &MatchValue) -> bool
        ensures { result ≡ spec.agrees (seen_value self.now) (seen_value other.now) }
    {
        self.is_there
            && other.is_there
            && compare_values(&self.bytes, &other.bytes) == Ordering::Equal
    }
}

/// The match values of the last record in each file that has one.
#[derive(Drop)]
pub struct LastValues {
    pub primary: MatchValue,
    pub secondary: MatchValue,
}

impl LastValues {
    ghost use Rattle.std.specs.Prelude.{◌<◌, IfOk, None};
    ghost use Rattle.rpg_cycle_records.specs.Fitting.{IsFilledAs};
    ghost use Rattle.rpg_cycle_records.specs.Keeping.{value_following};
    ghost use Rattle.rpg_program.specs.declared.input.InputFile.TheVariants as files;

    /// No values, with room for 256 bytes each.
    pub fn none(alloc: Global) -> Result<LastValues, AllocError>
        ensures primary { IfOk result (λ l. seen_value l.primary ≡ None) }
        ensures secondary { IfOk result (λ l. seen_value l.secondary ≡ None) }
    {
        Ok(LastValues {
            primary: MatchValue::none(alloc, LONGEST_VALUE)?,
            secondary: MatchValue::none(alloc, LONGEST_VALUE)?,
        })
    }

    /// Keeps the match value of a record of a type, counted from 0, as the last one of its file, if the type has match fields. The record
    /// is padded to its length. Allocates only if the buffer is too small; after an error the value is unusable.
    #[inline(always)]
    pub fn keep(&mut self, program: &Verified, row: usize, text: &[u8]) -> Result<(), AllocError>
        requires there { row < length program.now.types }
        requires filled { IsFilledAs program.now row text.now }
        ensures primary { OnOk result (seen_value self.new.primary ≡ value_following program.now files.Primary row text.now (seen_value self.old.primary)) }
        ensures secondary { OnOk result (seen_value self.new.secondary ≡ value_following program.now files.Secondary row text.now (seen_value self.old.secondary)) }
    {
        let fields = match_fields(program, row);
        if fields.is_empty() {
            return Ok(());
        }
        match file_of(program, row) {
            InputFile::Primary => self.primary.take(fields, text),
            InputFile::Secondary => self.secondary.take(fields, text),
        }
    }
}

/// Replaces bytes by those of all levels, from L9 down: in one piece if there is one field that isn't numeric, as in most types.
#[inline(never)]
fn take_value(bytes: &mut Vec<u8>, fields: &[ControlField], text: &[u8]) -> Result<(), AllocError>
    requires { All (IsControlIn (length text.now)) fields.now }
    ensures { OnOk result (bytes.new.items ≡ spec.joined_down fields.now text.now 9) }
{
    if fields.len() == 1 && is_plain(fields[0]) {
        return replace(bytes, text, fields[0]);
    }
    bytes.clear();
    join_down(bytes, fields, text)
}

/// Whether a control field is of a level, L1 to L9, and isn't numeric.
pub(crate) fn is_plain(field: ControlField) -> bool
    ensures low { IsTrue result → 1 ≤ field.level }
    ensures high { IsTrue result → field.level ≤ 9 }
    ensures plain { IsTrue result → field.is_numeric ≡ false }
{
    field.level >= 1 && field.level <= 9 && !field.is_numeric
}

/// Replaces bytes by those of a control field that isn't numeric. They usually have its length.
#[inline(always)]
#[tactic(auto, using(crate::proofs::Lasting::plain_columns))]
pub(crate) fn replace(
    bytes: &mut Vec<u8>,
    text: &[u8],
    field: ControlField,
) -> Result<(), AllocError>
    requires inside { IsControlIn (length text.now) field }
    requires plain { field.is_numeric ≡ false }
    ensures { OnOk result (bytes.new.items ≡ compared text.now field) }
{
    let columns = columns_of(text, field);
    if bytes.len() == columns.len() {
        bytes.as_mut_slice().copy_from_slice(columns);
        return Ok(());
    }
    refill(bytes, columns)
}

/// Replaces bytes by others of any length. Separate from those of the same length, which need no allocator.
#[inline(never)]
fn refill(bytes: &mut Vec<u8>, others: &[u8]) -> Result<(), AllocError>
    ensures { OnOk result (bytes.new.items ≡ others.now) }
{
    bytes.clear();
    bytes.extend_from_slice(others)
}

/// Appends the bytes of all levels, from L9 down.
#[inline(never)]
fn join_down(bytes: &mut Vec<u8>, fields: &[ControlField], text: &[u8]) -> Result<(), AllocError>
    requires { All (IsControlIn (length text.now)) fields.now }
    ensures { OnOk result (bytes.new.items ≡ bytes.old.items ++ spec.joined_down fields.now text.now 9) }
{
    for i in 0..9u8 {
        join(bytes, fields, text, 9 - i)?;
    }
    Ok(())
}

/// Compares two bytes by their ranks.
#[inline(always)]
#[tactic(auto, using(crate::proofs::Order::same_byte))]
fn compare_bytes(a: u8, b: u8) -> Ordering
    ensures { result ≡ character_cmp a b }
{
    if a == b {
        return Ordering::Equal;
    }
    rank(a).cmp(&rank(b))
}

/// Compares two values at the first byte where their ranks differ; if there is none, compares their lengths.
#[inline(never)]
fn compare_values(a: &[u8], b: &[u8]) -> Ordering
    ensures { result ≡ spec.value_cmp a.now b.now }
{
    for place in 0..a.len().min(b.len()) {
        let order = compare_bytes(a[place], b[place]);
        if order != Ordering::Equal {
            return order;
        }
    }
    a.len().cmp(&b.len())
}
