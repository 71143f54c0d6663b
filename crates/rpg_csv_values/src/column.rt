//! The contents of cells, by the columns of a line.

ghost use Rattle.std.specs.Prelude.{◌≡◌, ◌<◌, ◌^◌, ◌++◌, length, unsigned_abs, IfOk, IfSome, OnOk, None, Some, if◌then◌else◌, option_map};
ghost use Rattle.rpg_csv_values.specs.Contents.{ContentsAreReadBack, HasMade, column_content, columns_number, minus_of, number_content, pointed, without_leading_zeros};

use crate::cell::CellKind;
use rpg_decimal::{read_zoned, write_zoned};
use rpg_text::{is_blank, trimmed};
use std::alloc::AllocError;

/// The most digits of a number.
const MOST_DIGITS: usize = 15;

/// Returns digits without the zeros before the last one.
fn without_leading_zeros(digits: &[u8]) -> &[u8]
    ensures { result.now ≡ without_leading_zeros digits.now }
{
    for (place, digit) in digits.iter().enumerate() {
        if *digit != b'0' || place + 1 == digits.len() {
            return &digits[place..];
        }
    }
    &[]
}

/// Appends fifteen digits with a point before the decimals, without zeros before the last whole digit.
fn add_pointed(decimals: u8, point: u8, digits: &[u8], out: &mut Vec<u8>) -> Result<(), AllocError>
    requires { length digits.now ≡ 15 }
    ensures { OnOk result (out.new.items ≡ out.old.items ++ pointed decimals point digits.now) }
{
    let (whole, part) = digits.split_at(MOST_DIGITS - usize::from(decimals.min(14)));
    out.extend_from_slice(without_leading_zeros(whole))?;
    if decimals == 0 {
        return Ok(());
    }
    out.push(point)?;
    out.extend_from_slice(part)
}

/// Appends a minus for a number below zero.
#[tactic(auto, using(crate::proofs::NumberLemmas::nothing_more))]
fn add_minus(number: i64, out: &mut Vec<u8>) -> Result<(), AllocError>
    ensures { OnOk result (out.new.items ≡ out.old.items ++ minus_of number) }
{
    if number < 0 {
        out.push(b'-')?;
    }
    Ok(())
}

/// Appends a number with all its decimals.
pub(crate) fn add_number(
    number: i64,
    decimals: u8,
    point: u8,
    out: &mut Vec<u8>,
) -> Result<(), AllocError>
    requires { unsigned_abs number < 10 ^ 15 }
    ensures { OnOk result (out.new.items ≡ out.old.items ++ number_content decimals point number) }
{
    let mut room = [b'0'; MOST_DIGITS];
    write_zoned(number.unsigned_abs() as i64, &mut room);
    add_minus(number, out)?;
    add_pointed(decimals, point, &room, out)?;
    Ok(())
}

/// Returns the number that columns have, if they have one. A blank is a zero.
#[tactic(auto, using(crate::proofs::NumberLemmas::few_digits))]
pub(crate) fn columns_number(columns: &[u8]) -> Option<i64>
    ensures value { result ≡ columns_number columns.now }
    ensures few { IfSome result (λ number. unsigned_abs number < 10 ^ 15) }
{
    if columns.is_empty() || columns.len() > MOST_DIGITS {
        return None;
    }
    read_zoned(columns).ok()
}

/// Appends the number that columns have. Returns whether they have one.
fn add_number_of(
    decimals: u8,
    point: u8,
    columns: &[u8],
    out: &mut Vec<u8>,
) -> Result<bool, AllocError>
    ensures { IfOk result (λ is_made. HasMade out.old.items out.new.items (option_map (number_content decimals point) (columns_number columns.now)) is_made) }
{
    match columns_number(columns) {
        Some(number) => {
            add_number(number, decimals, point, out)?;
            Ok(true)
        }
        None => Ok(false),
    }
}

/// Appends the content of the cell that these columns have: a text without blanks at its end, or a number. Returns whether they have one:
/// blank columns have an empty one, but not where blanks aren't digits.
pub fn add_content_of(
    kind: CellKind,
    point: u8,
    columns: &[u8],
    out: &mut Vec<u8>,
) -> Result<bool, AllocError>
    ensures { IfOk result (λ is_made. HasMade out.old.items out.new.items (column_content kind point columns.now) is_made) }
{
    match kind {
        CellKind::Code | CellKind::Text => {
            out.extend_from_slice(trimmed(columns))?;
            Ok(true)
        }
        CellKind::Number(_) if is_blank(columns) => Ok(true),
        CellKind::Digits(_) if columns.contains(&b' ') => Ok(false),
        CellKind::Number(decimals) | CellKind::Digits(decimals) => {
            add_number_of(decimals, point, columns, out)
        }
    }
}

/// A law of the definitions: the content of columns that a cell filled fills them again. Does nothing.
pub fn contents_are_read_back()
    ensures { ContentsAreReadBack }
{}
