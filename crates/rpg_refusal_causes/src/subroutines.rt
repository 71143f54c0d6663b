//! What in a subroutine breaks V23 and V24.

ghost use Rattle.std.specs.Prelude.{◌≡◌, ◌+◌, ◌≤◌, ◌==◌, length, map, slice_get, None, if◌then◌else◌};
ghost use Rattle.rpg_program.specs.Kept.{IsProgram};
ghost use Rattle.rpg_program.specs.Object.{seen, subroutine_row};
ghost use Rattle.rpg_refusal_causes.specs.First.{cause_of_row, first_cause};
ghost use Rattle.rpg_refusal_causes.specs.SubroutineCauses as words;

use crate::cause::RefusalCause;
use rpg_program::operation::Instruction;
use rpg_program::rows::{Rows, Subroutine};
use rpg_verify_rules::SubroutineRule;
use rpg_verify_rules::subroutines::is_return;

/// Returns the first RET of calculations outside subroutines that begin at this place.
fn return_cause(first: usize, code: &[Instruction<u16>]) -> Option<RefusalCause>
    requires { first + length code.now ≤ 8192 }
    ensures { result ≡ first_cause words.return_cause first code.now }
{
    let mut place = first;
    for instruction in code {
        if is_return(*instruction) {
            return Some(RefusalCause::StrayReturn { place });
        }
        place += 1;
    }
    None
}

/// Returns the first RET outside subroutines, which counts for row 0.
fn stray_cause(rows: &Rows, row: usize) -> Option<RefusalCause>
    requires { IsProgram (seen rows.now) }
    ensures { result ≡ (if row == 0 then words.stray_return_cause (seen rows.now) else None) }
{
    if row == 0 {
        return_cause(0, &rows.detail).or(return_cause(rows.detail.len(), &rows.total))
    } else {
        None
    }
}

fn foreign_cause(number: usize, code: &[Instruction<u16>]) -> Option<RefusalCause>
    ensures { result ≡ first_cause (words.foreign_cause number) 0 code.now }
{
    for (at, instruction) in code.iter().enumerate() {
        if let Instruction::Return { subroutine } = *instruction {
            if usize::from(subroutine) != number {
                return Some(RefusalCause::ForeignReturn { at, subroutine });
            }
        }
    }
    None
}

fn body_cause(number: usize, subroutine: &Subroutine) -> Option<RefusalCause>
    ensures { result ≡ words.body_cause number (subroutine_row subroutine.now) }
{
    foreign_cause(number, &subroutine.instructions).or(Some(RefusalCause::Unended))
}

#[tactic(auto, using(crate::proofs::AtRows::row_seen))]
fn unended_cause(rows: &Rows, row: usize) -> Option<RefusalCause>
    ensures { result ≡ cause_of_row (words.body_cause row) (slice_get (map subroutine_row rows.now.subroutines.items) row) }
{
    body_cause(row, rows.subroutines.get(row)?)
}

#[tactic(auto, using(crate::proofs::AtRows::row_seen))]
fn level_cause(rows: &Rows, row: usize) -> Option<RefusalCause>
    ensures { result ≡ cause_of_row words.subroutine_level_cause (slice_get (map subroutine_row rows.now.subroutines.items) row) }
{
    let subroutine = rows.subroutines.get(row)?;
    Some(RefusalCause::Level {
        level: subroutine.level,
    })
}

/// Returns what in a row's subroutine breaks a rule, if it does; a RET outside subroutines counts for row 0.
#[tactic(auto, unfolding(crate::specs::SubroutineCauses::subroutine_cause))]
pub(crate) fn subroutine_cause(
    rule: SubroutineRule,
    rows: &Rows,
    row: usize,
) -> Option<RefusalCause>
    requires { IsProgram (seen rows.now) }
    ensures { result ≡ words.subroutine_cause rule (seen rows.now) row }
{
    match rule {
        SubroutineRule::V23 => stray_cause(rows, row).or(unended_cause(rows, row)),
        SubroutineRule::V24 => level_cause(rows, row),
    }
}
