//! Operations: their weight, and what they do to values, current entries and indicators.
ghost use Rattle.std.specs.Prelude.{◌≡◌};
ghost use Rattle.rpg_program.specs.Ends.{end_of};
ghost use Rattle.rpg_program.specs.Forms.{form_at};
ghost use Rattle.rpg_program.specs.Rows as rows_of;
ghost use Rattle.rpg_program.specs.Weights as weights;
ghost use Rattle.rpg_program.specs.declared.operation.Action.TheVariants as actions;
ghost use Rattle.rpg_machine_operations.specs.Valid.{IsRightAction};
ghost use Rattle.rpg_machine_operations.specs.Words.{DidOperate, operate_in};
ghost use Rattle.rpg_memory.specs.Doing.{DidData};

use crate::arithmetic::{assign, compute, divide, take_remainder};
use crate::comparing::compare_entries;
use crate::places::move_places;
use crate::searching::look_up;
use crate::summing::cross_foot;
use rpg_memory::memory::Memory;
use rpg_program::forms::{entries_of, form_at};
use rpg_program::halt::Halt;
use rpg_program::operation::{Action, Operand, Shows};
use rpg_program::outcome::End;
use rpg_program::rows::Rows;
use rpg_store::store::Store;

/// Returns the weight of an operation: one, plus the entries that XFOOT and LOKUP go through.
#[tactic(auto, unfolding(rpg_program::specs::Weights::row_weight, rpg_program::specs::Rows::row_of))]
pub fn weight(rows: &Rows, action: &Action<Operand<u16>>) -> u32
    ensures { result ≡ weights.row_weight (form_at rows.now.fields.items) (rows_of.row_of (rows_of.form_of (form_at rows.now.fields.items)) action.now) }
{
    match action {
        Action::CrossFoot { factor2, .. } => 1
            + u32::from(entries_of(form_at(rows, factor2.field))),
        Action::LookUp { factor2, .. } => 1 + u32::from(entries_of(form_at(rows, factor2.field))),
        Action::Compute { .. } => 1,
        Action::Divide { .. } => 1,
        Action::Assign { .. } => 1,
        Action::TakeRemainder { .. } => 1,
        Action::Compare { .. } => 1,
        Action::Move { .. } => 1,
        Action::SetIndicators { .. } => 1,
    }
}

/// SETON and SETOF.
#[tactic(auto, unfolding(rpg_program::specs::Act::act, rpg_program::specs::Operate::has_entries, rpg_program::specs::Operate::operate, rpg_program::specs::Operate::resolved, rpg_program::specs::Rows::row_of))]
fn set_indicators<S: Store + Drop>(
    memory: &mut Memory<'_, S>,
    is_on: bool,
    named: Shows,
) -> Option<End>
    ensures { DidOperate (actions.SetIndicators is_on named) memory.old result memory.new }
{
    memory.set_indicators(is_on, named);
    Some(End::Continues)
}

/// Does an operation of an accepted program. None if an index is out of range.
fn operate_in_range<S: Store + Drop>(
    memory: &mut Memory<'_, S>,
    action: &Action<Operand<u16>>,
) -> Option<End>
    requires right { IsRightAction memory.old.program.fields action.now }
    ensures { DidOperate action.now memory.old result memory.new }
{
    match action {
        Action::Compute {
            operator,
            half,
            factor1,
            factor2,
            result: to,
            shows,
        } => compute(memory, *operator, *half, factor1, factor2, to, *shows),
        Action::Divide {
            half,
            factor1,
            factor2,
            result: to,
            shows,
        } => divide(memory, *half, factor1, factor2, to, *shows),
        Action::Assign {
            is_negated,
            half,
            factor2,
            result: to,
            shows,
        } => assign(memory, *is_negated, *half, factor2, to, *shows),
        Action::TakeRemainder { result: to, shows } => take_remainder(memory, to, *shows),
        Action::CrossFoot {
            half,
            factor2,
            result: to,
            shows,
        } => cross_foot(memory, *half, factor2, to, *shows),
        Action::Compare {
            factor1,
            factor2,
            shows,
        } => compare_entries(memory, factor1, factor2, *shows),
        Action::LookUp {
            factor1,
            factor2,
            result: to,
            shows,
        } => look_up(memory, factor1, factor2, to, *shows),
        Action::Move {
            side,
            factor2,
            result: to,
        } => move_places(memory, *side, factor2, to),
        Action::SetIndicators { is_on, named } => set_indicators(memory, *is_on, *named),
    }
}

/// Does an operation of an accepted program: halt 2 if an index is out of range.
pub fn operate<S: Store + Drop>(memory: &mut Memory<'_, S>, action: &Action<Operand<u16>>) -> End
    requires right { IsRightAction memory.old.program.fields action.now }
    ensures { DidData (operate_in memory.old action.now) memory.old (end_of result) memory.new }
{
    operate_in_range(memory, action).unwrap_or(End::Halt(Halt::BadIndex))
}
