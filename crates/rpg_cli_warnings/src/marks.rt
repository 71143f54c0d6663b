//! Which indicators cards test, and which they turn on to be tested. Each card is read once.

ghost use Rattle.std.specs.Prelude.{◌≡◌, ℕ, ◌||◌};
ghost use Rattle.std.specs.List.{list_any};
ghost use Rattle.rpg_cli_warnings.specs.Indicators as indicators;
ghost use Rattle.rpg_cli_warnings.specs.Marks.{is_marked};

use crate::testing::{tested_on, total_on};
use crate::turning::shown_on;
use rpg_cards::SpecCard;
use rpg_sheet_specs::{ConditionSpec, Indicator};

/// Marks the number of a condition's indicator.
#[tactic(auto, using(crate::proofs::Marking::mark_one, crate::proofs::Marking::or_false))]
fn mark_tested(marks: &mut [bool; 256], condition: Option<ConditionSpec>)
    ensures { (n : ℕ) → is_marked n marks.new ≡ (is_marked n marks.old || indicators.one_tests n condition) }
{
    if let Some(condition) = condition {
        marks[usize::from(condition.indicator.number())] = true;
    }
}

/// Marks the control level of a card.
#[tactic(auto, using(crate::proofs::Marking::mark_one, crate::proofs::Marking::or_false))]
fn note_level(marks: &mut [bool; 256], card: &SpecCard)
    ensures { (n : ℕ) → is_marked n marks.new ≡ (is_marked n marks.old || indicators.level_tests n card.now.spec) }
{
    if let Some(level) = total_on(card) {
        marks[usize::from(level)] = true;
    }
}

/// Marks the indicators of a card's conditions.
#[tactic(auto, using(crate::proofs::Marking::or_false))]
fn note_conditions(marks: &mut [bool; 256], card: &SpecCard)
    ensures { (n : ℕ) → is_marked n marks.new ≡ (is_marked n marks.old || indicators.condition_tests n card.now.spec) }
{
    if let Some(conditions) = tested_on(card) {
        mark_tested(marks, conditions.first);
        mark_tested(marks, conditions.second);
        mark_tested(marks, conditions.third);
    }
}

/// Marks the indicators that a card tests.
fn note_tested(marks: &mut [bool; 256], card: &SpecCard)
    ensures { (n : ℕ) → is_marked n marks.new ≡ (is_marked n marks.old || indicators.tests_indicator n card.now) }
{
    note_level(marks, card);
    note_conditions(marks, card);
}

/// Marks the number of an indicator.
#[tactic(auto, using(crate::proofs::Marking::mark_one, crate::proofs::Marking::or_false))]
fn mark_shown(marks: &mut [bool; 256], shown: Option<Indicator>)
    ensures { (n : ℕ) → is_marked n marks.new ≡ (is_marked n marks.old || indicators.is_number n shown) }
{
    if let Some(shown) = shown {
        marks[usize::from(shown.number())] = true;
    }
}

/// Marks the indicators that a card turns on to be tested.
#[tactic(auto, using(crate::proofs::Marking::or_false))]
fn note_shown(marks: &mut [bool; 256], card: &SpecCard)
    ensures { (n : ℕ) → is_marked n marks.new ≡ (is_marked n marks.old || indicators.shows n card.now) }
{
    if let Some(shown) = shown_on(card) {
        mark_shown(marks, shown.first);
        mark_shown(marks, shown.second);
        mark_shown(marks, shown.third);
    }
}

/// Which indicators cards test, and which they turn on to be tested, by their numbers.
#[derive(Drop)]
pub(crate) struct IndicatorMarks {
    pub(crate) tested: [bool; 256],
    pub(crate) shown: [bool; 256],
}

/// Marks the indicators of all cards.
pub(crate) fn marks_by(cards: &[SpecCard]) -> IndicatorMarks
    ensures tested { (n : ℕ) → is_marked n result.tested ≡ list_any (indicators.tests_indicator n) cards.now }
    ensures shown { (n : ℕ) → is_marked n result.shown ≡ list_any (indicators.shows n) cards.now }
{
    let mut tested = [false; 256];
    let mut shown = [false; 256];
    for card in cards {
        note_tested(&mut tested, card);
        note_shown(&mut shown, card);
    }
    IndicatorMarks { tested, shown }
}
