//! Indicators, and the conditions that name them.

ghost use Rattle.std.specs.Prelude.{◌≡◌, length};
ghost use Rattle.rpg_sheet_specs.specs.Values as values;

use crate::marks::marked;
use rpg_sheet_specs::{ConditionSpec, Indicator, Within};

/// Reads an indicator of two characters.
#[tactic(auto, unfolding(rpg_sheet_specs::specs::Values::indicator))]
pub fn indicator(text: &[u8]) -> Option<Indicator>
    ensures { result ≡ values.indicator text.now }
{
    match text {
        [first, second] => spelled(*first, *second),
        _ => None,
    }
}

/// Returns the indicator with these two characters.
fn spelled(first: u8, second: u8) -> Option<Indicator>
    ensures { result ≡ values.indicator_spelled first second }
{
    match (first, second) {
        (b'0', b'0') => None,
        (b'0'..=b'9', b'0'..=b'9') => Some(Indicator::new(10 * (first - b'0') + (second - b'0'))),
        (b'L', b'0'..=b'9') => Some(Indicator::new(100 + (second - b'0'))),
        (b'O', b'A'..=b'G') => Some(Indicator::new(112 + (second - b'A'))),
        (b'H', b'1'..=b'9') => Some(Indicator::new(119 + (second - b'0'))),
        (b'L', b'R') => Some(Indicator::new(110)),
        (b'1', b'P') => Some(Indicator::new(111)),
        (b'O', b'V') => Some(Indicator::new(119)),
        (b'M', b'R') => Some(Indicator::new(129)),
        _ => None,
    }
}

/// Reads a blank or N, and an indicator.
#[tactic(auto, unfolding(rpg_sheet_specs::specs::Values::condition))]
pub fn condition(text: &[u8]) -> Option<ConditionSpec>
    requires { length text.now ≡ 3 }
    ensures { result ≡ values.condition text.now }
{
    let negated = marked(b"N", &text[..1])?;
    let indicator = indicator(&text[1..])?;
    Some(ConditionSpec { negated, indicator })
}

/// Reads an indicator whose number is within these bounds.
#[tactic(auto, unfolding(rpg_sheet_specs::specs::Values::indicator_within))]
pub fn indicator_within<const FIRST: u8, const LAST: u8>(text: &[u8]) -> Option<Within<FIRST, LAST>>
    ensures { result ≡ values.indicator_within FIRST LAST text.now }
{
    let number = indicator(text)?.number();
    if FIRST <= number && number <= LAST {
        Some(Within::new(number))
    } else {
        None
    }
}

/// Reads a level: its letter, then 1 to 9.
#[tactic(auto, unfolding(rpg_sheet_specs::specs::Values::level))]
pub fn level(letter: u8, text: &[u8]) -> Option<Within<1, 9>>
    ensures { result ≡ values.level letter text.now }
{
    match text {
        [first, level @ b'1'..=b'9'] if *first == letter => Some(Within::new(*level - b'0')),
        _ => None,
    }
}
