//! The three conditions of a line's field or of a branch.

ghost use Rattle.std.specs.Prelude.{◌≡◌, ◌<◌};
ghost use Rattle.rpg_object_format.specs.Format.{read_byte};
ghost use Rattle.rpg_object_format.specs.Indicators.{are_negations, bit, condition_with, conditions_format, conditions_of, has_bit, indicator_in, indicators_of, is_negation, may_negate, negations_of};
ghost use Rattle.rpg_object_format.specs.Numbers.{allowed};
ghost use Rattle.rpg_object_format.specs.Reading.{ReadsAs};

use crate::fault::{Code, ReadFault};
use crate::indicator::shows_at;
use crate::number::byte_at;
use rpg_program::condition::{Condition, Conditions};
use rpg_program::operation::Shows;

// ---- N bits

fn has_bit(weight: u8, n: u8) -> bool
    requires { 0 < weight }
    ensures { result ≡ has_bit weight n }
{
    n / weight % 2 == 1
}

fn may_negate(indicator: Option<u8>, is_negated: bool) -> bool
    ensures { result ≡ may_negate indicator is_negated }
{
    match indicator {
        None => !is_negated,
        Some(_) => true,
    }
}

fn negations_for(shows: Shows, n: u8) -> Result<u8, Code>
    ensures { result ≡ allowed (are_negations shows) n }
{
    if n <= 7
        && (may_negate(shows.plus, has_bit(1, n))
            && (may_negate(shows.minus, has_bit(2, n)) && may_negate(shows.zero, has_bit(4, n))))
    {
        Ok(n)
    } else {
        Err(Code::NotAllowed)
    }
}

/// Reads the N bits of conditions with these indicators.
#[tactic(auto, unfolding(crate::specs::Format::read_byte))]
pub(crate) fn negations_at(bytes: &[u8], shows: Shows) -> Result<(u8, &[u8]), ReadFault>
    ensures { ReadsAs (λ x. (x.0, x.1.now)) result (read_byte (allowed (are_negations shows)) bytes.now) }
{
    byte_at(bytes, |n| negations_for(shows, n))
}

fn negation_bit(weight: u8, condition: Option<Condition>) -> u8
    ensures { result ≡ bit weight (is_negation condition) }
{
    match condition {
        None => 0,
        Some(condition) => { if condition.is_negated { weight } else { 0 } }
    }
}

/// Which of the conditions are negated, as a number.
pub fn negations_of(conditions: Conditions) -> u8
    ensures { result ≡ negations_of conditions }
{
    negation_bit(1, conditions.first)
        + negation_bit(2, conditions.second)
        + negation_bit(4, conditions.third)
}

// ---- three conditions

fn condition_with(is_negated: bool, indicator: Option<u8>) -> Option<Condition>
    ensures { result ≡ condition_with is_negated indicator }
{
    match indicator {
        None => None,
        Some(indicator) => Some(Condition {
            indicator,
            is_negated,
        }),
    }
}

/// Builds the conditions from these indicators and N bits.
pub(crate) fn conditions_of(shows: Shows, negations: u8) -> Conditions
    ensures { result ≡ conditions_of shows negations }
{
    Conditions {
        first: condition_with(has_bit(1, negations), shows.plus),
        second: condition_with(has_bit(2, negations), shows.minus),
        third: condition_with(has_bit(4, negations), shows.zero),
    }
}

fn indicator_in(condition: Option<Condition>) -> Option<u8>
    ensures { result ≡ indicator_in condition }
{
    match condition {
        None => None,
        Some(condition) => Some(condition.indicator),
    }
}

/// Returns the indicators of three conditions.
pub fn indicators_of(conditions: Conditions) -> Shows
    ensures { result ≡ indicators_of conditions }
{
    Shows {
        plus: indicator_in(conditions.first),
        minus: indicator_in(conditions.second),
        zero: indicator_in(conditions.third),
    }
}

/// Reads three conditions.
#[tactic(auto, unfolding(crate::specs::Format::byte, crate::specs::Format::pair, crate::specs::Format::row, crate::specs::Indicators::conditions_format))]
pub fn conditions_at(bytes: &[u8]) -> Result<(Conditions, &[u8]), ReadFault>
    ensures { ReadsAs (λ x. (x.0, x.1.now)) result (conditions_format.reading bytes.now) }
{
    let (shows, rest) = shows_at(bytes)?;
    let (negations, rest) = negations_at(rest, shows)?;
    Ok((conditions_of(shows, negations), rest))
}
