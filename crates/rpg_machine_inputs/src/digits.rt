//! Reads the numbers of input fields. Nearly all have digits, perhaps after blanks, which are read four at a time.
ghost use Rattle.std.specs.Prelude.{◌≡◌, ◌+◌, ◌<◌, ◌≤◌, ◌^◌, length, unsigned_abs, IfOk, IfSome, IsTrue};
ghost use Rattle.std.specs.Result.{result_ok};
ghost use Rattle.rpg_decimal_words.specs.Zoned.{number_in};
ghost use Rattle.rpg_machine_inputs.specs.Digits.{AreFour, ArePlainTo, IsMinusDigit};

use rpg_decimal::{BadDigit, read_zoned};

/// The high half of each of four bytes.
const HIGH_HALVES: u32 = 0xF0F0_F0F0;

/// Four zeros as characters. All digits have the high half of a zero.
const ZEROS: u32 = 0x3030_3030;

/// Six in each of four bytes, which takes what has the high half of a zero and is no digit to another high half.
const SIXES: u32 = 0x0606_0606;

/// Returns the number with these four digits, unless one of the characters is no digit. Of a word with the four, a digit and ten times the one
/// before it are added in each byte, and then a pair and a hundred times the one before it.
#[inline(always)]
fn number_of_four(a: u8, b: u8, c: u8, d: u8) -> Option<u64>
    ensures { IfSome result (AreFour a b c d) }
{
    let word = u32::from(a)
        + u32::from(b) * 0x100
        + u32::from(c) * 0x1_0000
        + u32::from(d) * 0x100_0000;
    if word & HIGH_HALVES != ZEROS {
        return None;
    }
    if (word + SIXES) & HIGH_HALVES != ZEROS {
        return None;
    }
    let digits = word - ZEROS;
    let pairs = digits * 10 + digits / 0x100;
    Some(u64::from(pairs % 0x100 * 100 + pairs / 0x1_0000 % 0x100))
}

/// Returns how many blanks are in front.
#[inline(always)]
fn blanks_in_front(text: &[u8]) -> usize
    requires { 1 ≤ length text.now }
    ensures { ArePlainTo text.now result 0 }
{
    if text[0] != b' ' {
        return 0;
    }
    let mut spot = 1;
    'blanks: while spot < text.len() && text[spot] == b' ' {
        spot += 1;
    }
    spot
}

/// Reads the digits from a place in fours, as long as there are four. Returns the place after them, and their number.
#[inline(always)]
fn number_by_fours(text: &[u8], from: usize) -> (usize, u64)
    requires few { length text.now ≤ 15 }
    requires front { ArePlainTo text.now from 0 }
    ensures { ArePlainTo text.now result.0 result.1 }
{
    let mut size = 0u64;
    let mut spot = from;
    'fours: while text.len() - spot >= 4 {
        match number_of_four(text[spot], text[spot + 1], text[spot + 2], text[spot + 3]) {
            Some(four) => {
                size = size * 10_000 + four;
                spot += 4;
            }
            None => break,
        }
    }
    (spot, size)
}

/// Reads the digits in front, perhaps after blanks. Returns the place after them, and their number.
#[inline(always)]
fn number_in_front(text: &[u8]) -> (usize, u64)
    requires low { 1 ≤ length text.now }
    requires high { length text.now ≤ 15 }
    ensures { ArePlainTo text.now result.0 result.1 }
{
    let (mut spot, mut size) = number_by_fours(text, blanks_in_front(text));
    'digits: while spot < text.len() {
        let character = text[spot];
        if !character.is_ascii_digit() {
            break;
        }
        size = size * 10 + u64::from(character - b'0');
        spot += 1;
    }
    (spot, size)
}

/// Returns the digit of a character with a minus sign.
fn minus_digit(character: u8) -> Option<u8>
    ensures { IfSome result (IsMinusDigit character) }
{
    match character {
        b'}' => Some(0),
        b'J'..=b'R' => Some(character - b'I'),
        _ => None,
    }
}

/// Reads a number, of which the digits in front were read. Separate from the loop over fields, which seldom calls it.
#[inline(never)]
fn read_rest(text: &[u8], spot: usize, size: u64) -> Result<i64, BadDigit>
    requires low { 1 ≤ length text.now }
    requires high { length text.now ≤ 15 }
    requires front { ArePlainTo text.now spot size }
    ensures fits { IfOk result (λ n. unsigned_abs n < 10 ^ length text.now) }
    ensures number { result_ok result ≡ number_in text.now }
{
    if spot + 1 == text.len() {
        if let Some(digit) = minus_digit(text[spot]) {
            let whole = size * 10 + u64::from(digit);
            return Ok(-(whole as i64));
        }
    }
    read_zoned(text)
}

/// Reads a zoned number.
#[inline(always)]
pub fn read_number(text: &[u8]) -> Result<i64, BadDigit>
    requires low { 1 ≤ length text.now }
    requires high { length text.now ≤ 15 }
    ensures fits { IfOk result (λ n. unsigned_abs n < 10 ^ length text.now) }
    ensures number { result_ok result ≡ number_in text.now }
{
    let (spot, size) = number_in_front(text);
    if spot == text.len() {
        return Ok(size as i64);
    }
    read_rest(text, spot, size)
}
