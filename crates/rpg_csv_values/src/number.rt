//! The numbers of cells.

ghost use Rattle.std.specs.Prelude.{◌≡◌, ◌≤◌, ◌<◌, ◌^◌, ◌+◌, ◌*◌, length, true, unsigned_abs, IfOk, Ok};
ghost use Rattle.rpg_csv_values.specs.Numbers.{after_point, before_point, cell_number, counted, digits_number, digits_with_point, has_minus, is_grouped, is_separator, number_size, parts_number, signed_size, whole_number, without_blanks, without_sign, without_zeros};

use crate::cell::CellFault;
use rpg_records::power_of_ten;
use rpg_text::trimmed;

/// How the numbers of cells are written.
#[derive(Clone, Copy)]
pub struct NumberFormat {
    /// The decimal point.
    pub decimal: u8,
    /// What separates groups of three digits.
    pub group: Option<u8>,
}

/// Returns a text without blanks at its ends.
pub fn without_blanks(text: &[u8]) -> &[u8]
    ensures { result.now ≡ without_blanks text.now }
{
    for (place, byte) in text.iter().enumerate() {
        if *byte != b' ' {
            return trimmed(&text[place..]);
        }
    }
    &[]
}

/// A text without its sign.
#[derive(Clone, Copy)]
struct Signed<'a> {
    is_minus: bool,
    digits: &'a [u8],
}

/// Splits a sign off: before the digits, or a minus after them.
fn split_sign(text: &[u8]) -> Signed<'_>
    ensures minus { result.is_minus ≡ has_minus text.now }
    ensures digits { result.digits.now ≡ without_sign text.now }
{
    match text {
        [b'-', digits @ ..] => Signed {
            is_minus: true,
            digits,
        },
        [b'+', digits @ ..] => Signed {
            is_minus: false,
            digits,
        },
        [digits @ .., b'-'] => Signed {
            is_minus: true,
            digits,
        },
        _ => Signed {
            is_minus: false,
            digits: text,
        },
    }
}

/// The digits before the decimal point, and those after it.
#[derive(Clone, Copy)]
struct Parts<'a> {
    whole: &'a [u8],
    part: &'a [u8],
}

/// Splits digits at the decimal point.
fn split_point(digits: &[u8], decimal: u8) -> Parts<'_>
    ensures whole { result.whole.now ≡ before_point decimal digits.now }
    ensures part { result.part.now ≡ after_point decimal digits.now }
{
    for (place, byte) in digits.iter().enumerate() {
        if *byte == decimal {
            return Parts {
                whole: &digits[..place],
                part: &digits[place + 1..],
            };
        }
    }
    Parts {
        whole: digits,
        part: &[],
    }
}

/// Returns digits without zeros at their end.
fn without_zeros(part: &[u8]) -> &[u8]
    ensures { result.now ≡ without_zeros part.now }
{
    let mut end = part.len();
    while end > 0 && part[end - 1] == b'0' {
        end -= 1;
    }
    &part[..end]
}

/// Whether separators stand between groups of three digits, the first of one to three.
fn is_grouped(text: &[u8], group: u8) -> bool
    ensures { result ≡ is_grouped group true 0 text.now }
{
    let mut is_first = true;
    let mut digits = 0u8;
    for byte in text {
        if *byte != group {
            if digits >= 3 {
                return false;
            }
            digits += 1;
        } else if digits == 3 || (is_first && digits > 0) {
            is_first = false;
            digits = 0;
        } else {
            return false;
        }
    }
    digits == 3
}

/// Whether a byte separates groups.
fn is_separator(group: Option<u8>, byte: u8) -> bool
    ensures { result ≡ is_separator group byte }
{
    match group {
        Some(group) => byte == group,
        None => false,
    }
}

/// Returns a number with one more digit, at most the largest of 64 bits. Short numbers need no test of each step.
#[inline(always)]
fn with_digit(number: u64, digit: u8) -> u64
    ensures { result ≡ counted (counted (number * 10) + digit) }
{
    if number < 1_000_000_000_000_000_000 {
        return number * 10 + u64::from(digit);
    }
    number.saturating_mul(10).saturating_add(u64::from(digit))
}

/// Returns the number of a text's digits, at most the largest of 64 bits, if all but the separators are digits.
#[tactic(auto, using(crate::proofs::NumberLemmas::all_digits))]
fn digits_number(text: &[u8], group: Option<u8>) -> Option<u64>
    ensures { result ≡ digits_number group text.now }
{
    let mut number = 0u64;
    for byte in text {
        if is_separator(group, *byte) {
            continue;
        }
        if !byte.is_ascii_digit() {
            return None;
        }
        number = with_digit(number, *byte - b'0');
    }
    Some(number)
}

/// Returns a number in units of the last of a field's decimals, which has `before` digits before these.
fn number_size(
    before: u8,
    decimals: u8,
    whole: u64,
    part_length: usize,
    part: u64,
) -> Result<u64, CellFault>
    requires before_in { before ≤ 15 }
    requires decimals_in { decimals ≤ 15 }
    ensures { result ≡ number_size before decimals whole part_length part }
{
    if part_length > usize::from(decimals) {
        return Err(CellFault::Decimals(decimals));
    }
    if whole >= power_of_ten(before) {
        return Err(CellFault::Digits(before));
    }
    let unit = power_of_ten(decimals - part_length as u8);
    Ok(
        whole
            .saturating_mul(power_of_ten(decimals))
            .saturating_add(part.saturating_mul(unit)),
    )
}

/// Returns a number under its sign, if it has at most so many digits.
fn signed_size(before: u8, width: u8, is_minus: bool, size: u64) -> Result<i64, CellFault>
    requires { width ≤ 15 }
    ensures value { result ≡ signed_size before width is_minus (Ok size) }
    ensures few { IfOk result (λ number. unsigned_abs number < 10 ^ width) }
{
    if size >= power_of_ten(width) {
        return Err(CellFault::Digits(before));
    }
    let number = size as i64;
    Ok(if is_minus { -number } else { number })
}

/// Returns the number of what stands before the point and after it.
fn parts_number(
    decimals: u8,
    width: u8,
    is_minus: bool,
    whole: Option<u64>,
    part_length: usize,
    part: Option<u64>,
) -> Result<i64, CellFault>
    requires ordered { decimals ≤ width }
    requires within { width ≤ 15 }
    ensures value { result ≡ parts_number decimals width is_minus whole part_length part }
    ensures few { IfOk result (λ number. unsigned_abs number < 10 ^ width) }
{
    let Some(whole) = whole else {
        return Err(CellFault::NoNumber);
    };
    let Some(part) = part else {
        return Err(CellFault::NoNumber);
    };
    let before = width - decimals;
    match number_size(before, decimals, whole, part_length, part) {
        Ok(size) => signed_size(before, width, is_minus, size),
        Err(fault) => Err(fault),
    }
}

impl NumberFormat {
    /// Returns the number before the point.
    fn whole_number(self, text: &[u8]) -> Option<u64>
        ensures { result ≡ whole_number self.group text.now }
    {
        match self.group {
            None => digits_number(text, None),
            Some(group) => {
                if text.contains(&group) && !is_grouped(text, group) {
                    return None;
                }
                digits_number(text, Some(group))
            }
        }
    }

    /// Returns the number of digits with a point.
    fn digits_with_point(
        self,
        decimals: u8,
        width: u8,
        is_minus: bool,
        digits: &[u8],
    ) -> Result<i64, CellFault>
        requires ordered { decimals ≤ width }
        requires within { width ≤ 15 }
        ensures value { result ≡ digits_with_point self decimals width is_minus digits.now }
        ensures few { IfOk result (λ number. unsigned_abs number < 10 ^ width) }
    {
        let parts = split_point(digits, self.decimal);
        if parts.whole.is_empty() && parts.part.is_empty() {
            return Err(CellFault::NoNumber);
        }
        let whole = self.whole_number(parts.whole);
        let part = without_zeros(parts.part);
        let rest = digits_number(part, None);
        parts_number(decimals, width, is_minus, whole, part.len(), rest)
    }

    /// Returns the number of a cell that isn't blank, in units of the last of its field's decimals. The field has `width` digits.
    pub(crate) fn cell_number(self, decimals: u8, width: u8, text: &[u8]) -> Result<i64, CellFault>
        requires ordered { decimals ≤ width }
        requires within { width ≤ 15 }
        ensures value { result ≡ cell_number self decimals width text.now }
        ensures few { IfOk result (λ number. unsigned_abs number < 10 ^ width) }
    {
        let signed = split_sign(text);
        self.digits_with_point(decimals, width, signed.is_minus, signed.digits)
    }
}
