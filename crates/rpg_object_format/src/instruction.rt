//! Instructions, 20 bytes each.

ghost use Rattle.std.specs.Prelude.{◌≡◌, ◌++◌, OnOk};
ghost use Rattle.rpg_object_format.specs.Reading.{ReadsAs};
ghost use Rattle.rpg_program.specs.Kept.{IsInstructionRow, IsIndexRow};
ghost use Rattle.rpg_object_format.specs.Instructions as rows;

use crate::condition::{conditions_of, indicators_of, negations_of};
use crate::fault::ReadFault;
use crate::indicator::indicator_number;
use crate::number::{flag_number, high, low};
use crate::numbers::{NO_SHOWS, numbers_at};
use crate::operand::{NO_OPERAND, index_number, operand_or_none, optional_of};
use crate::operation::{Numbers, Opcode, operation_number};
use rpg_program::operation::{Action, Instruction, Operand, Operator, Shows, Side};
use std::alloc::AllocError;

// ---- from numbers

fn compute(operator: Operator, numbers: Numbers) -> Action<Operand<u16>>
    ensures { result ≡ rows.compute operator numbers }
{
    Action::Compute {
        operator,
        half: numbers.half,
        factor1: numbers.factor1,
        factor2: numbers.factor2,
        result: numbers.result,
        shows: numbers.shows,
    }
}

fn divide(numbers: Numbers) -> Action<Operand<u16>>
    ensures { result ≡ rows.divide numbers }
{
    Action::Divide {
        half: numbers.half,
        factor1: numbers.factor1,
        factor2: numbers.factor2,
        result: numbers.result,
        shows: numbers.shows,
    }
}

fn assign(is_negated: bool, numbers: Numbers) -> Action<Operand<u16>>
    ensures { result ≡ rows.assign is_negated numbers }
{
    Action::Assign {
        is_negated,
        half: numbers.half,
        factor2: numbers.factor2,
        result: numbers.result,
        shows: numbers.shows,
    }
}

fn take_remainder(numbers: Numbers) -> Action<Operand<u16>>
    ensures { result ≡ rows.take_remainder numbers }
{
    Action::TakeRemainder {
        result: numbers.result,
        shows: numbers.shows,
    }
}

fn cross_foot(numbers: Numbers) -> Action<Operand<u16>>
    ensures { result ≡ rows.cross_foot numbers }
{
    Action::CrossFoot {
        half: numbers.half,
        factor2: numbers.factor2,
        result: numbers.result,
        shows: numbers.shows,
    }
}

fn compare(numbers: Numbers) -> Action<Operand<u16>>
    ensures { result ≡ rows.compare_action numbers }
{
    Action::Compare {
        factor1: numbers.factor1,
        factor2: numbers.factor2,
        shows: numbers.shows,
    }
}

fn look_up(numbers: Numbers) -> Action<Operand<u16>>
    ensures { result ≡ rows.look_up numbers }
{
    Action::LookUp {
        factor1: numbers.factor1,
        factor2: numbers.factor2,
        result: optional_of(numbers.result),
        shows: numbers.shows,
    }
}

fn move_from(side: Side, numbers: Numbers) -> Action<Operand<u16>>
    ensures { result ≡ rows.move_from side numbers }
{
    Action::Move {
        side,
        factor2: numbers.factor2,
        result: numbers.result,
    }
}

fn set_indicators(is_on: bool, numbers: Numbers) -> Action<Operand<u16>>
    ensures { result ≡ rows.set_indicators is_on numbers }
{
    Action::SetIndicators {
        is_on,
        named: numbers.shows,
    }
}

fn branch(is_taken_where: bool, numbers: Numbers) -> Instruction<u16>
    ensures { result ≡ rows.branch_where is_taken_where numbers }
{
    Instruction::Branch {
        is_taken_where,
        conditions: conditions_of(numbers.shows, numbers.negations),
        target: numbers.target,
    }
}

/// Builds the instruction from these numbers.
fn instruction_of(numbers: Numbers) -> Instruction<u16>
    ensures { result ≡ rows.instruction_of numbers }
{
    match numbers.operation {
        Opcode::Add => Instruction::Act(compute(Operator::Add, numbers)),
        Opcode::Subtract => Instruction::Act(compute(Operator::Subtract, numbers)),
        Opcode::Multiply => Instruction::Act(compute(Operator::Multiply, numbers)),
        Opcode::Divide => Instruction::Act(divide(numbers)),
        Opcode::ZeroAdd => Instruction::Act(assign(false, numbers)),
        Opcode::ZeroSubtract => Instruction::Act(assign(true, numbers)),
        Opcode::TakeRemainder => Instruction::Act(take_remainder(numbers)),
        Opcode::Compare => Instruction::Act(compare(numbers)),
        Opcode::MoveRight => Instruction::Act(move_from(Side::Right, numbers)),
        Opcode::MoveLeft => Instruction::Act(move_from(Side::Left, numbers)),
        Opcode::SetOn => Instruction::Act(set_indicators(true, numbers)),
        Opcode::SetOff => Instruction::Act(set_indicators(false, numbers)),
        Opcode::Jump => branch(true, numbers),
        Opcode::Skip => branch(false, numbers),
        Opcode::Call => Instruction::Call {
            subroutine: numbers.target,
        },
        Opcode::Return => Instruction::Return {
            subroutine: numbers.target,
        },
        Opcode::Except => Instruction::Except,
        Opcode::CrossFoot => Instruction::Act(cross_foot(numbers)),
        Opcode::LookUp => Instruction::Act(look_up(numbers)),
    }
}

// ---- to numbers

fn computing(operator: Operator) -> Opcode
    ensures { result ≡ rows.computing_operation operator }
{
    match operator {
        Operator::Add => Opcode::Add,
        Operator::Subtract => Opcode::Subtract,
        Operator::Multiply => Opcode::Multiply,
    }
}

fn assigning(is_negated: bool) -> Opcode
    ensures { result ≡ rows.assigning_operation is_negated }
{
    if is_negated {
        Opcode::ZeroSubtract
    } else {
        Opcode::ZeroAdd
    }
}

fn moving(side: Side) -> Opcode
    ensures { result ≡ rows.moving_operation side }
{
    match side {
        Side::Right => Opcode::MoveRight,
        Side::Left => Opcode::MoveLeft,
    }
}

fn setting(is_on: bool) -> Opcode
    ensures { result ≡ rows.setting_operation is_on }
{
    if is_on { Opcode::SetOn } else { Opcode::SetOff }
}

fn branching(is_taken_where: bool) -> Opcode
    ensures { result ≡ rows.branching_operation is_taken_where }
{
    if is_taken_where {
        Opcode::Jump
    } else {
        Opcode::Skip
    }
}

/// An operation whose numbers are all 0.
fn bare(operation: Opcode) -> Numbers
    ensures { result ≡ rows.bare operation }
{
    Numbers {
        operation,
        half: false,
        factor1: NO_OPERAND,
        factor2: NO_OPERAND,
        result: NO_OPERAND,
        shows: NO_SHOWS,
        target: 0,
        negations: 0,
    }
}

fn operation_in(action: Action<Operand<u16>>) -> Opcode
    ensures { result ≡ (rows.action_numbers action).operation }
{
    match action {
        Action::Compute { operator, .. } => computing(operator),
        Action::Divide { .. } => Opcode::Divide,
        Action::Assign { is_negated, .. } => assigning(is_negated),
        Action::TakeRemainder { .. } => Opcode::TakeRemainder,
        Action::CrossFoot { .. } => Opcode::CrossFoot,
        Action::Compare { .. } => Opcode::Compare,
        Action::LookUp { .. } => Opcode::LookUp,
        Action::Move { side, .. } => moving(side),
        Action::SetIndicators { is_on, .. } => setting(is_on),
    }
}

fn half_in(action: Action<Operand<u16>>) -> bool
    ensures { result ≡ (rows.action_numbers action).half }
{
    match action {
        Action::Compute { half, .. } => half,
        Action::Divide { half, .. } => half,
        Action::Assign { half, .. } => half,
        Action::CrossFoot { half, .. } => half,
        _ => false,
    }
}

fn factor1_in(action: Action<Operand<u16>>) -> Operand<u16>
    ensures { result ≡ (rows.action_numbers action).factor1 }
{
    match action {
        Action::Compute { factor1, .. } => factor1,
        Action::Divide { factor1, .. } => factor1,
        Action::Compare { factor1, .. } => factor1,
        Action::LookUp { factor1, .. } => factor1,
        _ => NO_OPERAND,
    }
}

fn factor2_in(action: Action<Operand<u16>>) -> Operand<u16>
    ensures { result ≡ (rows.action_numbers action).factor2 }
{
    match action {
        Action::Compute { factor2, .. } => factor2,
        Action::Divide { factor2, .. } => factor2,
        Action::Assign { factor2, .. } => factor2,
        Action::CrossFoot { factor2, .. } => factor2,
        Action::Compare { factor2, .. } => factor2,
        Action::LookUp { factor2, .. } => factor2,
        Action::Move { factor2, .. } => factor2,
        Action::TakeRemainder { .. } | Action::SetIndicators { .. } => NO_OPERAND,
    }
}

fn result_in(action: Action<Operand<u16>>) -> Operand<u16>
    ensures { result ≡ (rows.action_numbers action).result }
{
    match action {
        Action::Compute { result: to, .. } => to,
        Action::Divide { result: to, .. } => to,
        Action::Assign { result: to, .. } => to,
        Action::TakeRemainder { result: to, .. } => to,
        Action::CrossFoot { result: to, .. } => to,
        Action::LookUp { result: to, .. } => operand_or_none(to),
        Action::Move { result: to, .. } => to,
        Action::Compare { .. } | Action::SetIndicators { .. } => NO_OPERAND,
    }
}

fn shows_in(action: Action<Operand<u16>>) -> Shows
    ensures { result ≡ (rows.action_numbers action).shows }
{
    match action {
        Action::Compute { shows, .. } => shows,
        Action::Divide { shows, .. } => shows,
        Action::Assign { shows, .. } => shows,
        Action::TakeRemainder { shows, .. } => shows,
        Action::CrossFoot { shows, .. } => shows,
        Action::Compare { shows, .. } => shows,
        Action::LookUp { shows, .. } => shows,
        Action::SetIndicators { named, .. } => named,
        Action::Move { .. } => NO_SHOWS,
    }
}

/// The numbers of an operation, with 0 for those that it doesn't use.
fn action_numbers(action: Action<Operand<u16>>) -> Numbers
    ensures { result ≡ rows.action_numbers action }
{
    Numbers {
        operation: operation_in(action),
        half: half_in(action),
        factor1: factor1_in(action),
        factor2: factor2_in(action),
        result: result_in(action),
        shows: shows_in(action),
        target: 0,
        negations: 0,
    }
}

fn numbers_of(instruction: Instruction<u16>) -> Numbers
    ensures { result ≡ rows.numbers_of instruction }
{
    match instruction {
        Instruction::Act(action) => action_numbers(action),
        Instruction::Except => bare(Opcode::Except),
        Instruction::Branch {
            is_taken_where,
            conditions,
            target,
        } => Numbers {
            shows: indicators_of(conditions),
            target,
            negations: negations_of(conditions),
            ..bare(branching(is_taken_where))
        },
        Instruction::Call { subroutine } => Numbers {
            target: subroutine,
            ..bare(Opcode::Call)
        },
        Instruction::Return { subroutine } => Numbers {
            target: subroutine,
            ..bare(Opcode::Return)
        },
    }
}

// ---- rows

/// Reads an instruction, 20 bytes. An unknown operation is B5. A number that isn't 0 although its operation doesn't use it is
/// B6.
#[tactic(auto, unfolding(crate::specs::Shapes::row_where, crate::specs::Instructions::instruction))]
pub fn instruction_at(bytes: &[u8]) -> Result<(Instruction<u16>, &[u8]), ReadFault>
    ensures { ReadsAs (λ x. (x.0, x.1.now)) result (rows.instruction.reading bytes.now) }
{
    let (numbers, rest) = numbers_at(bytes)?;
    Ok((instruction_of(numbers), rest))
}

/// Writes the numbers of an instruction.
fn put_numbers(out: &mut Vec<u8>, numbers: Numbers) -> Result<(), AllocError>
    requires factor1 { IsIndexRow numbers.factor1.index }
    requires factor2 { IsIndexRow numbers.factor2.index }
    requires result { IsIndexRow numbers.result.index }
    ensures { OnOk result (out.new.items ≡ out.old.items ++ rows.numbers_text numbers) }
{
    let index1 = index_number(numbers.factor1.index);
    let index2 = index_number(numbers.factor2.index);
    let result_index = index_number(numbers.result.index);
    let row = [
        operation_number(numbers.operation),
        flag_number(numbers.half),
        high(numbers.factor1.field),
        low(numbers.factor1.field),
        high(index1),
        low(index1),
        high(numbers.factor2.field),
        low(numbers.factor2.field),
        high(index2),
        low(index2),
        high(numbers.result.field),
        low(numbers.result.field),
        high(result_index),
        low(result_index),
        indicator_number(numbers.shows.plus),
        indicator_number(numbers.shows.minus),
        indicator_number(numbers.shows.zero),
        high(numbers.target),
        low(numbers.target),
        numbers.negations,
    ];
    out.extend_from_slice(&row)?;
    Ok(())
}

/// Writes an instruction, 20 bytes.
pub fn put_instruction(out: &mut Vec<u8>, instruction: Instruction<u16>) -> Result<(), AllocError>
    requires { IsInstructionRow instruction }
    ensures { OnOk result (out.new.items ≡ out.old.items ++ rows.instruction.spelling instruction) }
{
    put_numbers(out, numbers_of(instruction))
}
