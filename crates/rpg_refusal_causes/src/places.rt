//! The instruction at a place, and what in it breaks V16 to V19, V21 and V22.

ghost use Rattle.std.specs.Prelude.{◌≡◌, map};
ghost use Rattle.rpg_program.specs.Kept.{IsProgram};
ghost use Rattle.rpg_program.specs.Object.{seen, subroutine_row};
ghost use Rattle.rpg_refusal_causes.specs.First.{cause_of_row};
ghost use Rattle.rpg_refusal_causes.specs.PlaceCauses as words;
ghost use Rattle.rpg_verify.specs.Placed.{placed_instruction};

use crate::cause::{Column, RefusalCause};
use crate::searches::{found_cause, shows_cause};
use rpg_program::Program;
use rpg_program::columns::{columns_of, is_current_table, is_valid, is_writable_use};
use rpg_program::condition::Conditions;
use rpg_program::operation::{Instruction, Operand};
use rpg_program::row::{Row, Use};
use rpg_program::rows::Rows;
use rpg_program::spans::Span;
use rpg_verify::{Placed, at_place};
use rpg_verify_rules::PlaceRule;
use rpg_verify_rules::places::{has_known_kind, written_columns};

/// Returns the instruction at a place, counted through the whole program, with its section.
pub fn placed_at(program: &Program, place: usize) -> Option<Placed>
    ensures { result ≡ placed_instruction program.now place }
{
    at_place(program.rows(), place)
}

// ---- operands

fn operand_breaks(
    rule: PlaceRule,
    rows: &Rows,
    instruction: Instruction<u16>,
    used: Use<Operand<u16>>,
) -> bool
    ensures { result ≡ words.operand_breaks rule (seen rows.now) instruction used }
{
    match rule {
        PlaceRule::V16 => !is_valid(rows, used),
        PlaceRule::V17 => is_valid(rows, used) && !has_known_kind(rows, instruction, used),
        PlaceRule::V18 => !is_writable_use(rows, used),
        PlaceRule::V20 => !is_current_table(rows, used),
        PlaceRule::V19 | PlaceRule::V21 | PlaceRule::V22 => false,
    }
}

fn column_cause(
    rule: PlaceRule,
    rows: &Rows,
    instruction: Instruction<u16>,
    column: Column,
    used: Option<Use<Operand<u16>>>,
) -> Option<RefusalCause>
    ensures { result ≡ words.column_cause (words.operand_breaks rule (seen rows.now) instruction) column used }
{
    let used = used?;
    if operand_breaks(rule, rows, instruction, used) {
        Some(RefusalCause::Operand { column, used })
    } else {
        None
    }
}

/// Returns the first of these operands of an instruction that breaks the rule.
fn operand_cause(
    rule: PlaceRule,
    rows: &Rows,
    instruction: Instruction<u16>,
    row: Row<Operand<u16>>,
) -> Option<RefusalCause>
    ensures { result ≡ words.instruction_operand_cause (words.operand_breaks rule (seen rows.now) instruction) row }
{
    column_cause(rule, rows, instruction, Column::Factor1, row.factor1)
        .or(column_cause(rule, rows, instruction, Column::Factor2, row.factor2))
        .or(column_cause(rule, rows, instruction, Column::Result, row.result))
}

// ---- indicators, and transfers of control

/// Returns the conditions that a branch tests.
fn tested_by(instruction: Instruction<u16>) -> Option<Conditions>
    ensures { result ≡ words.tested_by instruction }
{
    let Instruction::Branch { conditions, .. } = instruction else {
        return None;
    };
    Some(conditions)
}

fn marks_cause(rows: &Rows, instruction: Instruction<u16>) -> Option<RefusalCause>
    ensures { result ≡ words.marks_cause (seen rows.now) instruction }
{
    match tested_by(instruction) {
        Some(conditions) => Some(RefusalCause::Tested { conditions }),
        None => shows_cause(rows, instruction),
    }
}

fn target_cause(span: Span, instruction: Instruction<u16>) -> Option<RefusalCause>
    ensures { result ≡ words.target_cause span instruction }
{
    let Instruction::Branch { target, .. } = instruction else {
        return None;
    };
    Some(RefusalCause::Target {
        target,
        first: span.first,
        end: span.end,
    })
}

#[tactic(auto, using(crate::proofs::AtRows::level_seen))]
fn level_of(rows: &Rows, subroutine: u16) -> Option<u16>
    ensures { result ≡ words.level_if_any (map subroutine_row rows.now.subroutines.items) subroutine }
{
    let subroutine = rows.subroutines.get(usize::from(subroutine))?;
    Some(subroutine.level)
}

fn call_cause(rows: &Rows, instruction: Instruction<u16>) -> Option<RefusalCause>
    ensures { result ≡ words.call_cause (seen rows.now) instruction }
{
    let Instruction::Call { subroutine } = instruction else {
        return None;
    };
    Some(RefusalCause::Called {
        subroutine,
        level: level_of(rows, subroutine),
    })
}

#[tactic(auto, unfolding(crate::specs::PlaceCauses::place_cause))]
fn cause_at(rule: PlaceRule, rows: &Rows, placed: Placed) -> Option<RefusalCause>
    ensures { result ≡ words.place_cause rule (seen rows.now) placed }
{
    let Placed { span, instruction } = placed;
    let row = columns_of(rows, instruction);
    match rule {
        PlaceRule::V16 | PlaceRule::V17 => operand_cause(rule, rows, instruction, row),
        PlaceRule::V18 => column_cause(rule, rows, instruction, Column::Result, row.result),
        PlaceRule::V19 => marks_cause(rows, instruction),
        PlaceRule::V20 => {
            let row = written_columns(rows, instruction);
            operand_cause(rule, rows, instruction, row).or(found_cause(rows, row))
        }
        PlaceRule::V21 => target_cause(span, instruction),
        PlaceRule::V22 => call_cause(rows, instruction),
    }
}

/// Returns what in the instruction at a place breaks a rule, if it does.
pub(crate) fn place_cause(rule: PlaceRule, rows: &Rows, place: usize) -> Option<RefusalCause>
    requires { IsProgram (seen rows.now) }
    ensures { result ≡ cause_of_row (words.place_cause rule (seen rows.now)) (placed_instruction (seen rows.now) place) }
{
    cause_at(rule, rows, at_place(rows, place)?)
}
