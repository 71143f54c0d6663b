//! V16 to V22: instructions.

ghost use Rattle.std.specs.Prelude.{◌≡◌};
ghost use Rattle.rpg_program.specs.Spans.{IsSpan};
ghost use Rattle.rpg_program.specs.Forms as forms;
ghost use Rattle.rpg_program.specs.Rows as rows_words;
ghost use Rattle.rpg_program.specs.Object.{seen};
ghost use Rattle.rpg_verify_rules.specs.PlaceRules as words;

use crate::indicators::{all_testable, are_settable, has_shows};
use crate::rule::PlaceRule;
use rpg_program::columns::{
    columns_of, has_kind, holds_positions, is_current_table, is_valid, is_writable_use,
};
use rpg_program::condition::has_conditions;
use rpg_program::forms::form_at;
use rpg_program::operation::{Action, Instruction, Operand};
use rpg_program::row::{Marks, Row, Use};
use rpg_program::rows::{Rows, Version};
use rpg_program::spans::{Span, is_higher, is_place};

/// Whether an instruction of a section breaks a rule.
#[tactic(auto, unfolding(crate::specs::PlaceRules::place_breaks))]
pub fn breaks(rule: PlaceRule, rows: &Rows, span: Span, instruction: Instruction<u16>) -> bool
    requires { IsSpan (seen rows.now) span }
    ensures { result ≡ words.place_breaks rule (seen rows.now) span.section instruction }
{
    let row = columns_of(rows, instruction);
    match rule {
        PlaceRule::V16 => !all_pass(rows, OperandTest::Valid, row),
        PlaceRule::V17 => !all_pass(
            rows,
            OperandTest::Known(instruction),
            those_passing(rows, OperandTest::Valid, row),
        ),
        PlaceRule::V18 => !passes_if_any(
            rows,
            OperandTest::Writable,
            columns_of_kind(rows, instruction).result,
        ),
        PlaceRule::V19 => {
            !(are_testable(rows.version, instruction)
                && (are_marked(row.marks)
                    && is_searched_well(rows, columns_of_kind(rows, instruction))))
        }
        PlaceRule::V20 => !holds_found(rows, written_columns(rows, instruction)),
        PlaceRule::V21 => !stays_inside(rows, span, instruction),
        PlaceRule::V22 => !calls_higher(rows, span, instruction),
    }
}

// ---- operands

/// Whether factor 2 must be of the same kind as factor 1.
fn compares(instruction: Instruction<u16>) -> bool
    ensures { result ≡ words.compares instruction }
{
    match instruction {
        Instruction::Act(Action::Compare { .. } | Action::LookUp { .. }) => true,
        Instruction::Act(_)
        | Instruction::Except
        | Instruction::Branch { .. }
        | Instruction::Call { .. }
        | Instruction::Return { .. } => false,
    }
}

fn knows_kinds(rows: &Rows, instruction: Instruction<u16>) -> bool
    ensures { result ≡ words.knows_kinds (seen rows.now) instruction }
{
    !compares(instruction)
        || match columns_of(rows, instruction).factor1 {
            None => true,
            Some(used) => is_valid(rows, used),
        }
}

pub fn has_known_kind(rows: &Rows, instruction: Instruction<u16>, used: Use<Operand<u16>>) -> bool
    ensures { result ≡ words.has_known_kind (seen rows.now) instruction used }
{
    !knows_kinds(rows, instruction) || has_kind(rows, used)
}

/// A test of an operand of an instruction.
#[derive(Clone, Copy)]
pub enum OperandTest {
    /// It exists, with an index that it may have.
    Valid,
    /// It is of the kind that the instruction requires.
    Known(Instruction<u16>),
    /// It may be written at that place.
    Writable,
    /// If it is to become current, it is a table.
    Current,
}

fn passes(rows: &Rows, test: OperandTest, used: Use<Operand<u16>>) -> bool
    ensures { result ≡ words.passes (seen rows.now) test used }
{
    match test {
        OperandTest::Valid => is_valid(rows, used),
        OperandTest::Known(instruction) => has_known_kind(rows, instruction, used),
        OperandTest::Writable => is_writable_use(rows, used),
        OperandTest::Current => is_current_table(rows, used),
    }
}

fn passes_if_any(rows: &Rows, test: OperandTest, used: Option<Use<Operand<u16>>>) -> bool
    ensures { result ≡ rows_words.all_used (words.passes (seen rows.now) test) used }
{
    match used {
        None => true,
        Some(used) => passes(rows, test, used),
    }
}

fn all_pass(rows: &Rows, test: OperandTest, row: Row<Operand<u16>>) -> bool
    ensures { result ≡ rows_words.all_of (words.passes (seen rows.now) test) row }
{
    passes_if_any(rows, test, row.factor1)
        && (passes_if_any(rows, test, row.factor2) && passes_if_any(rows, test, row.result))
}

fn holds_found(rows: &Rows, row: Row<Operand<u16>>) -> bool
    ensures { result ≡ words.holds_found (seen rows.now) row }
{
    all_pass(rows, OperandTest::Current, row) && holds_positions(rows, row)
}

// ---- operands that no lower-numbered rule rejects

fn passing(
    rows: &Rows,
    test: OperandTest,
    used: Option<Use<Operand<u16>>>,
) -> Option<Use<Operand<u16>>>
    ensures { result ≡ words.passing (words.passes (seen rows.now) test) used }
{
    match used {
        None => None,
        Some(used) => {
            if passes(rows, test, used) {
                Some(used)
            } else {
                None
            }
        }
    }
}

fn those_passing(rows: &Rows, test: OperandTest, row: Row<Operand<u16>>) -> Row<Operand<u16>>
    ensures { result ≡ words.those_passing (words.passes (seen rows.now) test) row }
{
    Row {
        factor1: passing(rows, test, row.factor1),
        factor2: passing(rows, test, row.factor2),
        result: passing(rows, test, row.result),
        marks: row.marks,
    }
}

/// The operands that pass V16 and V17.
pub fn columns_of_kind(rows: &Rows, instruction: Instruction<u16>) -> Row<Operand<u16>>
    ensures { result ≡ words.columns_of_kind (seen rows.now) instruction }
{
    let valid = those_passing(rows, OperandTest::Valid, columns_of(rows, instruction));
    those_passing(rows, OperandTest::Known(instruction), valid)
}

/// The operands that pass V16 to V18.
pub fn written_columns(rows: &Rows, instruction: Instruction<u16>) -> Row<Operand<u16>>
    ensures { result ≡ words.written_columns (seen rows.now) instruction }
{
    let row = columns_of_kind(rows, instruction);
    Row {
        factor1: row.factor1,
        factor2: row.factor2,
        result: passing(rows, OperandTest::Writable, row.result),
        marks: row.marks,
    }
}

// ---- indicators

fn are_testable(version: Version, instruction: Instruction<u16>) -> bool
    ensures { result ≡ words.are_testable version instruction }
{
    match instruction {
        Instruction::Branch {
            is_taken_where,
            conditions,
            ..
        } => all_testable(version, conditions) && (is_taken_where || has_conditions(conditions)),
        Instruction::Act(_)
        | Instruction::Except
        | Instruction::Call { .. }
        | Instruction::Return { .. } => true,
    }
}

pub fn are_marked(marks: Marks) -> bool
    ensures { result ≡ words.are_marked marks }
{
    match marks {
        Marks::Unmarked => true,
        Marks::Shown(shows) => are_settable(shows),
        Marks::Wanted(shows) => are_settable(shows) && has_shows(shows),
        Marks::Sought(shows) => are_settable(shows) && has_shows(shows),
    }
}

pub fn is_two_sided(marks: Marks) -> bool
    ensures { result ≡ rows_words.is_two_sided marks }
{
    match marks {
        Marks::Sought(shows) => shows.plus.is_some() && shows.minus.is_some(),
        Marks::Unmarked | Marks::Shown(_) | Marks::Wanted(_) => false,
    }
}

fn is_ordered(marks: Marks) -> bool
    ensures { result ≡ words.is_ordered marks }
{
    match marks {
        Marks::Sought(shows) => shows.plus.is_some() || shows.minus.is_some(),
        Marks::Unmarked | Marks::Shown(_) | Marks::Wanted(_) => false,
    }
}

/// Whether the operand of a column, if there is one, is in ascending sequence.
pub fn is_ascending_if_any(rows: &Rows, used: Option<Use<Operand<u16>>>) -> bool
    ensures { result ≡ rows_words.all_used (words.is_ascending (seen rows.now)) used }
{
    match used {
        None => true,
        Some(used) => match form_at(rows, used.operand.field) {
            None => false,
            Some(form) => form.is_ascending,
        },
    }
}

/// Whether it doesn't seek both high and low, and seeks either only in ascending sequence.
fn is_searched_well(rows: &Rows, row: Row<Operand<u16>>) -> bool
    ensures { result ≡ words.is_searched_well (seen rows.now) row }
{
    !is_two_sided(row.marks) && (!is_ordered(row.marks) || is_ascending_if_any(rows, row.factor2))
}

// ---- transfer of control

fn stays_inside(rows: &Rows, span: Span, instruction: Instruction<u16>) -> bool
    requires { IsSpan (seen rows.now) span }
    ensures { result ≡ words.stays_inside (seen rows.now) span.section instruction }
{
    match instruction {
        Instruction::Branch { target, .. } => is_place(rows, span, usize::from(target)),
        Instruction::Act(_)
        | Instruction::Except
        | Instruction::Call { .. }
        | Instruction::Return { .. } => true,
    }
}

fn calls_higher(rows: &Rows, span: Span, instruction: Instruction<u16>) -> bool
    requires { IsSpan (seen rows.now) span }
    ensures { result ≡ words.calls_higher (seen rows.now) span.section instruction }
{
    match instruction {
        Instruction::Call { subroutine } => is_higher(rows, span, subroutine),
        Instruction::Act(_)
        | Instruction::Except
        | Instruction::Branch { .. }
        | Instruction::Return { .. } => true,
    }
}
