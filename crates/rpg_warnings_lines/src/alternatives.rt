//! The conditions of a line: those of its card with its AND cards, or those of an OR card with its AND cards.

ghost use Rattle.std.specs.Prelude.{◌≡◌};
ghost use Rattle.rpg_warnings_lines.specs.Alternatives as alternatives;

use rpg_cards::SpecCard;
use rpg_sheet_specs::{ConditionSpec, OutputRecord, OutputSpec, Three};

/// The indicators L0, LR and 1P.
const L0: u8 = 100;

const LR: u8 = 110;

const FIRST_PAGE: u8 = 111;

/// What each condition of an alternative must be.
#[derive(Clone, Copy)]
pub enum ConditionTest {
    /// It is met before the first record, and isn't 1P.
    Open,
    /// It is L0, which is always met.
    Always,
    /// It is neither 1P nor LR.
    Repeated,
}

fn passes(test: ConditionTest, condition: ConditionSpec) -> bool
    ensures { result ≡ alternatives.passes test condition }
{
    let number = condition.indicator.number();
    match test {
        ConditionTest::Open => {
            if condition.negated {
                number != L0 && number != FIRST_PAGE
            } else {
                number == L0
            }
        }
        ConditionTest::Always => !condition.negated && number == L0,
        ConditionTest::Repeated => condition.negated || (number != LR && number != FIRST_PAGE),
    }
}

fn one_passes(test: ConditionTest, condition: Option<ConditionSpec>) -> bool
    ensures { result ≡ alternatives.one_passes test condition }
{
    match condition {
        None => true,
        Some(condition) => passes(test, condition),
    }
}

/// Whether each of a card's conditions passes.
fn all_pass(test: ConditionTest, conditions: Three<Option<ConditionSpec>>) -> bool
    ensures { result ≡ alternatives.all_pass test conditions }
{
    one_passes(test, conditions.first)
        && one_passes(test, conditions.second)
        && one_passes(test, conditions.third)
}

/// Returns the conditions of an AND card.
fn and_on(card: &SpecCard) -> Option<Three<Option<ConditionSpec>>>
    ensures { result ≡ alternatives.and_on card.now.spec }
{
    match card.output()? {
        OutputSpec::And(conditions) => Some(*conditions),
        OutputSpec::Record(_) | OutputSpec::Or(_) | OutputSpec::Field(_) => None,
    }
}

/// Returns the conditions of an OR card.
fn or_on(card: &SpecCard) -> Option<Three<Option<ConditionSpec>>>
    ensures { result ≡ alternatives.or_on card.now.spec }
{
    match card.output()? {
        OutputSpec::Or(conditions) => Some(*conditions),
        OutputSpec::Record(_) | OutputSpec::And(_) | OutputSpec::Field(_) => None,
    }
}

/// Whether the conditions of the AND cards that come next pass.
fn rest_passes(test: ConditionTest, after: &[SpecCard]) -> bool
    ensures { result ≡ alternatives.rest_passes test after.now }
{
    for card in after {
        let Some(conditions) = and_on(card) else {
            return true;
        };
        if !all_pass(test, conditions) {
            return false;
        }
    }
    true
}

/// Whether a card begins an alternative that passes.
fn or_passes(test: ConditionTest, card: &SpecCard, after: &[SpecCard]) -> bool
    ensures { result ≡ alternatives.or_passes test card.now after.now }
{
    match or_on(card) {
        None => false,
        Some(conditions) => all_pass(test, conditions) && rest_passes(test, after),
    }
}

/// Whether a card is an AND or OR card.
fn continues(card: &SpecCard) -> bool
    ensures { result ≡ alternatives.continues card.now.spec }
{
    and_on(card).is_some() || or_on(card).is_some()
}

/// Whether one of the next alternatives of a line passes.
fn any_or_passes(test: ConditionTest, after: &[SpecCard]) -> bool
    ensures { result ≡ alternatives.any_or_passes test after.now }
{
    let mut rest = after;
    while let Some((card, following)) = rest.split_first() {
        if !continues(card) {
            return false;
        }
        if or_passes(test, card, following) {
            return true;
        }
        rest = following;
    }
    false
}

/// Whether an alternative of a line passes: each of its conditions does. The line's card comes before `after`.
pub(crate) fn line_passes(test: ConditionTest, line: &OutputRecord, after: &[SpecCard]) -> bool
    ensures { result ≡ alternatives.line_passes test line.now after.now }
{
    all_pass(test, line.conditions) && rest_passes(test, after) || any_or_passes(test, after)
}

fn is_first_page(condition: Option<ConditionSpec>) -> bool
    ensures { result ≡ alternatives.is_first_page condition }
{
    match condition {
        None => false,
        Some(condition) => !condition.negated && condition.indicator.number() == FIRST_PAGE,
    }
}

fn names_first_page(conditions: Three<Option<ConditionSpec>>) -> bool
    ensures { result ≡ alternatives.names_first_page conditions }
{
    is_first_page(conditions.first)
        || is_first_page(conditions.second)
        || is_first_page(conditions.third)
}

/// Whether one of the AND and OR cards that come next names 1P.
fn rest_names_first_page(after: &[SpecCard]) -> bool
    ensures { result ≡ alternatives.rest_names_first_page after.now }
{
    for card in after {
        let Some(conditions) = and_on(card).or(or_on(card)) else {
            return false;
        };
        if names_first_page(conditions) {
            return true;
        }
    }
    false
}

/// Whether a condition of a line is 1P. The line's card comes before `after`.
pub(crate) fn line_names_first_page(line: &OutputRecord, after: &[SpecCard]) -> bool
    ensures { result ≡ alternatives.line_names_first_page line.now after.now }
{
    names_first_page(line.conditions) || rest_names_first_page(after)
}
