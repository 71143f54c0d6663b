//! Numbers on cards: blanks, then digits.

ghost use Rattle.std.specs.Prelude.{◌≡◌, ◌-◌, ◌^◌, ◌≤◌, ◌<◌, length};
ghost use Rattle.std.specs.List.{list_all};
ghost use Rattle.std.specs.Char.{is_ascii_digit};
ghost use Rattle.std.specs.Str.Parse.{digits_value_after};
ghost use Rattle.rpg_sheet_specs.specs.Values as values;

use rpg_sheet_specs::Within;

/// Returns a text without its leading blanks.
fn right_part(text: &[u8]) -> &[u8]
    ensures { result.now ≡ values.right_part text.now }
{
    let mut start = 0;
    while start < text.len() && text[start] == b' ' {
        start += 1;
    }
    &text[start..]
}

/// Returns the number that these digits make after those of `before`; None if they aren't all digits.
#[inline(always)]
pub(crate) fn number_after(before: u64, digits: &[u8]) -> Option<u64>
    requires short { length digits.now ≤ 10 }
    requires room { before < 10 ^ (10 - length digits.now) }
    ensures { result ≡ values.when (list_all is_ascii_digit digits.now) (digits_value_after 10 before digits.now) }
{
    let mut value = before;
    for digit in digits {
        if !digit.is_ascii_digit() {
            return None;
        }
        value = value * 10 + (*digit - b'0') as u64;
    }
    Some(value)
}

/// Reads digits in every column, four at most.
#[tactic(auto, unfolding(rpg_sheet_specs::specs::Values::digits))]
pub(crate) fn digits(text: &[u8]) -> Option<u16>
    requires { length text.now ≤ 4 }
    ensures { result ≡ values.digits text.now }
{
    if text.is_empty() {
        return None;
    }
    let value = number_after(0, text)?;
    Some(value as u16)
}

/// Reads right-aligned digits after blanks, in four columns at most.
#[tactic(auto, unfolding(rpg_sheet_specs::specs::Values::number))]
pub fn number(text: &[u8]) -> Option<u16>
    requires { length text.now ≤ 4 }
    ensures { result ≡ values.number text.now }
{
    digits(right_part(text))
}

/// Reads a number within these bounds, in four columns at most.
#[tactic(auto, unfolding(rpg_sheet_specs::specs::Values::number_within))]
pub fn number_within<const FIRST: u8, const LAST: u8>(text: &[u8]) -> Option<Within<FIRST, LAST>>
    requires { length text.now ≤ 4 }
    ensures { result ≡ values.number_within FIRST LAST text.now }
{
    let number = number(text)?;
    if u16::from(FIRST) <= number && number <= u16::from(LAST) {
        Some(Within::new(number as u8))
    } else {
        None
    }
}

/// Reads one digit.
#[tactic(auto, unfolding(rpg_sheet_specs::specs::Values::digits))]
pub fn digit(text: &[u8]) -> Option<u8>
    requires { length text.now ≡ 1 }
    ensures { result ≡ values.digits text.now }
{
    match text {
        [c @ b'0'..=b'9'] => Some(*c - b'0'),
        _ => None,
    }
}
