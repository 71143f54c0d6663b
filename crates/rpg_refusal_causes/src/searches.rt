//! V19 and V20: the indicators of an operation, and what LOKUP searches.

ghost use Rattle.std.specs.Prelude.{◌≡◌, true};
ghost use Rattle.rpg_program.specs.Forms as forms;
ghost use Rattle.rpg_program.specs.Rows as rows_words;
ghost use Rattle.rpg_program.specs.Object.{seen};
ghost use Rattle.rpg_refusal_causes.specs.PlaceCauses as words;

use crate::cause::RefusalCause;
use rpg_program::columns::holds_positions;
use rpg_program::forms::{entries_of, form_at};
use rpg_program::operation::{Instruction, Operand};
use rpg_program::row::{Marks, Row, Shape, Use};
use rpg_program::rows::Rows;
use rpg_verify_rules::places::{are_marked, columns_of_kind, is_ascending_if_any, is_two_sided};

// ---- V19

fn unordered_cause(
    rows: &Rows,
    marks: Marks,
    factor2: Option<Use<Operand<u16>>>,
) -> Option<RefusalCause>
    ensures { result ≡ words.unordered_cause (seen rows.now) marks factor2 }
{
    let used = factor2?;
    if is_ascending_if_any(rows, Some(used)) {
        None
    } else {
        Some(RefusalCause::Unordered { marks, used })
    }
}

/// Returns the indicators of an operation or, if these are allowed, factor 2, which is searched by them.
pub(crate) fn shows_cause(rows: &Rows, instruction: Instruction<u16>) -> Option<RefusalCause>
    ensures { result ≡ words.shows_cause (seen rows.now) instruction }
{
    let row = columns_of_kind(rows, instruction);
    let marks = row.marks;
    if !are_marked(marks) || is_two_sided(marks) {
        return Some(RefusalCause::Marked { marks });
    }
    unordered_cause(rows, marks, row.factor2)
}

// ---- V20

/// Whether the index of the searched operand can hold the number of its entries.
#[tactic(auto, unfolding(rpg_program::specs::Rows::holds_positions))]
fn can_hold(rows: &Rows, used: Use<Operand<u16>>) -> bool
    requires { rows_words.is_searched (forms.form_at rows.now.fields.items) used.shape ≡ true }
    ensures { result ≡ rows_words.can_hold (forms.form_at rows.now.fields.items) used.operand.index (words.entries_named (seen rows.now) used) }
{
    let row = Row {
        factor1: None,
        factor2: Some(used),
        result: None,
        marks: Marks::Unmarked,
    };
    holds_positions(rows, row)
}

fn short_cause(rows: &Rows, entries: u16, to: Option<Use<Operand<u16>>>) -> Option<RefusalCause>
    ensures { result ≡ words.short_cause (seen rows.now) entries to }
{
    let used = to?;
    if entries <= entries_of(form_at(rows, used.operand.field)) {
        None
    } else {
        Some(RefusalCause::Short { used, entries })
    }
}

/// Returns the searched operand whose index can't hold the number of its entries, or the result that has fewer.
pub(crate) fn found_cause(rows: &Rows, row: Row<Operand<u16>>) -> Option<RefusalCause>
    ensures { result ≡ words.found_cause (seen rows.now) row.result row.factor2 }
{
    let used = row.factor2?;
    match used.shape {
        Shape::Searched => {
            let entries = entries_of(form_at(rows, used.operand.field));
            if can_hold(rows, used) {
                short_cause(rows, entries, row.result)
            } else {
                Some(RefusalCause::Index { used, entries })
            }
        }
        Shape::One | Shape::Whole | Shape::Table => None,
    }
}
