//! Zoned numbers: a digit in each place, with the sign over the last one: `}` and J to R are minus 0 to 9, `{` and A to I plus 0 to 9.
ghost use Rattle.std.specs.Prelude.{◌≡◌, ◌+◌, ◌-◌, ◌/◌, ◌%◌, ◌<◌, ◌≤◌, ◌^◌, true, unsigned_abs, length, map, set, IfOk, IfErr, OnOk, EachIndex};
ghost use Rattle.std.specs.Int.{is_negative};
ghost use Rattle.std.specs.Result.{result_ok};
ghost use Rattle.rpg_decimal_words.specs.Place.{lowest_digits, place_value};
ghost use Rattle.rpg_decimal_words.specs.Zoned.{digit_of, is_minus, may_stand, last_character, number_in, zoned_text, IsValidAt, Spells, IsFirstBad};

use crate::pairs::pair_of;
use thiserror::Error;

/// A character that isn't allowed at its place, counted from 0.
#[derive(Clone, Copy, Debug, Error)]
#[error("a bad digit at {spot}")]
pub struct BadDigit {
    pub spot: usize,
}

/// Returns the digit of a character.
fn digit_of(c: u8) -> u8
    ensures value { result ≡ digit_of c }
    ensures below { result < 10 }
{
    if c.is_ascii_digit() {
        return c - b'0';
    }
    match c {
        b'A'..=b'I' => c - b'@',
        b'J'..=b'R' => c - b'I',
        _ => 0,
    }
}

/// Whether a character has a minus sign.
fn is_minus(c: u8) -> bool
    ensures { result ≡ is_minus c }
{
    matches!(c, b'}' | b'J'..=b'R')
}

/// Whether a number may have this character in its last place, or before it.
fn may_stand(last: bool, c: u8) -> bool
    ensures { result ≡ may_stand last c }
{
    if c.is_ascii_digit() {
        return true;
    }
    match c {
        b' ' => true,
        b'{' | b'}' | b'A'..=b'R' => last,
        _ => false,
    }
}

/// Returns the last character of a negative number.
fn last_character(n: i64) -> u8
    requires { is_negative n ≡ true }
    ensures { result ≡ last_character n }
{
    match (n.unsigned_abs() % 10) as u8 {
        0 => b'}',
        digit => b'I' + digit,
    }
}

/// Reads a zoned number. A blank is a zero, and the last character has the sign. The rule is this profile's.
pub fn read_zoned(text: &[u8]) -> Result<i64, BadDigit>
    requires low { 1 ≤ length text.now }
    requires high { length text.now ≤ 15 }
    ensures ok { IfOk result (Spells text.now) }
    ensures fits { IfOk result (λ n. unsigned_abs n < 10 ^ length text.now) }
    ensures bad { IfErr result (λ e. IsFirstBad text.now e.spot) }
    ensures number { result_ok result ≡ number_in text.now }
{
    let size = read_digits(text)?;
    if is_minus(text[text.len() - 1]) {
        return Ok(-(size as i64));
    }
    Ok(size as i64)
}

/// Reads the digits of a text, without its sign.
fn read_digits(text: &[u8]) -> Result<u64, BadDigit>
    requires { length text.now ≤ 15 }
    ensures value { IfOk result (λ size. size ≡ place_value (map digit_of text.now)) }
    ensures fits { IfOk result (λ size. size < 10 ^ length text.now) }
    ensures valid { OnOk result (EachIndex text.now (IsValidAt text.now)) }
    ensures bad { IfErr result (λ e. IsFirstBad text.now e.spot) }
{
    let mut size = 0u64;
    for (spot, c) in text.iter().enumerate() {
        if !may_stand(spot + 1 == text.len(), *c) {
            return Err(BadDigit { spot });
        }
        size = size * 10 + u64::from(digit_of(*c));
    }
    Ok(size)
}

/// Returns the last digit of a number, given the number before that digit.
fn last_digit(size: u64, front: u64) -> u8
    requires { front ≡ size / 10 }
    ensures { result ≡ 48 + size % 10 }
{
    b'0' + (size - front * 10) as u8
}

/// Writes the lowest two digits of a number before a place. Returns the number before them.
#[inline(always)]
fn write_pair(size: u64, text: &mut [u8], place: usize) -> u64
    requires low { 2 ≤ place }
    requires within { place ≤ length text.old }
    ensures front { result ≡ size / 100 }
    ensures digits { text.new ≡ set (set text.old (place - 1) (48 + size % 10)) (place - 2) (48 + size / 10 % 10) }
{
    let front = size / 100;
    let (tens, ones) = pair_of((size - front * 100) as u8);
    text[place - 1] = ones;
    text[place - 2] = tens;
    front
}

/// Writes the lowest digits of a number, filling the text.
fn write_digits(size: u64, text: &mut [u8])
    ensures { text.new ≡ map (λ d. 48 + d) (lowest_digits (length text.old) size) }
{
    let mut rest = size;
    let mut place = text.len();
    while place >= 2 {
        rest = write_pair(rest, text, place);
        place -= 2;
    }
    if place == 1 {
        text[0] = last_digit(rest, rest / 10);
    }
}

/// Writes a zoned number with plain digits, and a letter in the last place if it is negative.
pub fn write_zoned(n: i64, text: &mut [u8])
    requires low { 1 ≤ length text.old }
    requires high { length text.old ≤ 15 }
    requires fits { unsigned_abs n < 10 ^ length text.old }
    ensures text { text.new ≡ zoned_text (length text.old) n }
    ensures spells { Spells text.new n }
{
    write_digits(n.unsigned_abs(), text);
    if n < 0 {
        let last = text.len() - 1;
        text[last] = last_character(n);
    }
}
