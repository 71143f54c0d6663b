//! The fields of total lines, and the control levels of their lines.

ghost use Rattle.std.specs.Prelude.{◌≡◌, ◌++◌, ◌≤◌, OnOk};
ghost use Rattle.rpg_warnings_lines.specs.Totals as totals;

use crate::marks::{Mark, NONE, put_mark};
use crate::uses::entry_place;
use rpg_card_index::IndexedCards;
use rpg_cards::SpecCard;
use rpg_sheet_specs::{ConditionSpec, LineTime, OutputRecord, OutputSpec, Three};
use std::alloc::AllocError;

/// The line that a field belongs to, by the cards so far.
#[derive(Clone, Copy)]
pub struct LineSoFar {
    pub is_total: bool,
    /// The least level of its alternatives but the last.
    pub least: u16,
    /// The level of the last.
    pub own: u16,
}

/// What is noted for the fields of total lines.
#[derive(Clone, Copy)]
pub enum Noted {
    /// The number of the field's card.
    Card,
    /// The level of its line.
    Level,
}

/// Returns the control level that a condition waits for, 1 to 9; 0 if it waits for none.
fn level_of(condition: Option<ConditionSpec>) -> u16
    ensures { result ≡ totals.level_of condition }
{
    let Some(condition) = condition else {
        return 0;
    };
    let number = condition.indicator.number();
    if !condition.negated && 101 <= number && number <= 109 {
        u16::from(number) - 100
    } else {
        0
    }
}

/// Returns the greatest control level that conditions wait for.
fn level_in(conditions: Three<Option<ConditionSpec>>) -> u16
    ensures { result ≡ totals.level_in conditions }
{
    let rest = level_of(conditions.second).max(level_of(conditions.third));
    level_of(conditions.first).max(rest)
}

fn is_total(time: LineTime) -> bool
    ensures { result ≡ totals.is_total time }
{
    matches!(time, LineTime::Total)
}

fn begun(line: &OutputRecord) -> LineSoFar
    ensures { result ≡ totals.begun line.now }
{
    LineSoFar {
        is_total: is_total(line.time),
        least: NONE,
        own: level_in(line.conditions),
    }
}

/// Returns the line with one more card.
fn line_with(line: LineSoFar, card: &SpecCard) -> LineSoFar
    ensures { result ≡ totals.line_with line card.now.spec }
{
    match card.output() {
        Some(OutputSpec::Record(record)) => begun(record),
        Some(OutputSpec::And(conditions)) => LineSoFar {
            own: line.own.max(level_in(*conditions)),
            ..line
        },
        Some(OutputSpec::Or(conditions)) => LineSoFar {
            least: line.least.min(line.own),
            own: level_in(*conditions),
            ..line
        },
        Some(OutputSpec::Field(_)) | None => line,
    }
}

fn total_place(source: &IndexedCards, line: LineSoFar, card: &SpecCard) -> Option<u64>
    ensures { result ≡ totals.total_place source.now line card.now.spec }
{
    let field = card.output_field()?;
    if line.is_total {
        entry_place(source, &field.operand)
    } else {
        None
    }
}

fn value_of(noted: Noted, line: LineSoFar, card: &SpecCard) -> u16
    ensures { result ≡ totals.value_of noted line card.now }
{
    match noted {
        Noted::Card => card.number,
        Noted::Level => line.least.min(line.own),
    }
}

/// Notes the fields of total lines.
pub(crate) fn put_totals(
    marks: &mut Vec<Mark>,
    source: &IndexedCards,
    noted: Noted,
) -> Result<(), AllocError>
    ensures { OnOk result (marks.new.items ≡ marks.old.items ++ totals.totals_of noted source.now) }
{
    let mut line = LineSoFar {
        is_total: false,
        least: NONE,
        own: 0,
    };
    for card in source.as_slice() {
        line = line_with(line, card);
        let value = value_of(noted, line, card);
        put_mark(marks, total_place(source, line, card), value)?;
    }
    Ok(())
}
