//! Operations on fields, from C cards.

ghost use Rattle.std.specs.Prelude.{◌≡◌, IfSome, unwrap_or};
ghost use Rattle.std.specs.Option.{option_map};
ghost use Rattle.rpg_cards.specs.Statements as statements;
ghost use Rattle.rpg_cards.specs.Keys as keys;
ghost use Rattle.rpg_compile.specs.Marked.{IsMarkedAction};
ghost use Rattle.rpg_compile.specs.Steps as steps;
ghost use Rattle.rpg_program.specs.Naming.{renamed_action, renamed_operand};
ghost use Rattle.rpg_compile_program.specs.Table.{key_number};

use rpg_cards::shows_of;
use rpg_compile_program::FieldTable;
use rpg_program::operation::{Action, Index, Operand, Operator, Side};
use rpg_sheet_specs::{CalculationSpec, Entry, Factor, Operation};

/// Returns what an operation does to fields, or None if it only transfers control.
pub(crate) fn action_of(
    table: &FieldTable,
    calculation: &CalculationSpec,
    operation: Operation,
) -> Option<Action<Operand<u16>>>
    ensures value { result ≡ option_map (renamed_action (key_number table.now)) (steps.action_in (statements.statement_by calculation.now operation)) }
    ensures kept { IfSome result IsMarkedAction }
{
    let half = calculation.half_adjust;
    let shows = shows_of(calculation.resulting_indicators);
    Some(match operation {
        Operation::Add => compute(Operator::Add, table, calculation),
        Operation::Subtract => compute(Operator::Subtract, table, calculation),
        Operation::Multiply => compute(Operator::Multiply, table, calculation),
        Operation::Divide => {
            let own = result_of(table, &calculation.result_field);
            Action::Divide {
                half,
                factor1: first_or(table, calculation, own),
                factor2: factor_of(table, &calculation.factor_2),
                result: own,
                shows,
            }
        }
        Operation::ZeroAdd => assign(false, table, calculation),
        Operation::ZeroSubtract => assign(true, table, calculation),
        Operation::MoveRemainder => Action::TakeRemainder {
            result: result_of(table, &calculation.result_field),
            shows,
        },
        Operation::CrossFoot => Action::CrossFoot {
            half,
            factor2: factor_of(table, &calculation.factor_2),
            result: result_of(table, &calculation.result_field),
            shows,
        },
        Operation::Compare => Action::Compare {
            factor1: factor_of(table, &calculation.factor_1),
            factor2: factor_of(table, &calculation.factor_2),
            shows,
        },
        Operation::LookUp => Action::LookUp {
            factor1: factor_of(table, &calculation.factor_1),
            factor2: factor_of(table, &calculation.factor_2),
            result: given_result(table, &calculation.result_field),
            shows,
        },
        Operation::Move => moved(Side::Right, table, calculation),
        Operation::MoveLeft => moved(Side::Left, table, calculation),
        Operation::SetOn => Action::SetIndicators {
            is_on: true,
            named: shows,
        },
        Operation::SetOff => Action::SetIndicators {
            is_on: false,
            named: shows,
        },
        Operation::GoTo
        | Operation::Call
        | Operation::Label
        | Operation::BeginSubroutine
        | Operation::EndSubroutine
        | Operation::Except => return None,
    })
}

/// ADD, SUB and MULT.
fn compute(
    operator: Operator,
    table: &FieldTable,
    calculation: &CalculationSpec,
) -> Action<Operand<u16>>
    ensures value { result ≡ renamed_action (key_number table.now) (steps.computed_action operator calculation.now) }
    ensures kept { IsMarkedAction result }
{
    let own = result_of(table, &calculation.result_field);
    Action::Compute {
        operator,
        half: calculation.half_adjust,
        factor1: first_or(table, calculation, own),
        factor2: factor_of(table, &calculation.factor_2),
        result: own,
        shows: shows_of(calculation.resulting_indicators),
    }
}

/// Z-ADD and Z-SUB.
fn assign(
    is_negated: bool,
    table: &FieldTable,
    calculation: &CalculationSpec,
) -> Action<Operand<u16>>
    ensures value { result ≡ renamed_action (key_number table.now) (steps.assigned_action is_negated calculation.now) }
    ensures kept { IsMarkedAction result }
{
    Action::Assign {
        is_negated,
        half: calculation.half_adjust,
        factor2: factor_of(table, &calculation.factor_2),
        result: result_of(table, &calculation.result_field),
        shows: shows_of(calculation.resulting_indicators),
    }
}

/// MOVE and MOVEL.
fn moved(side: Side, table: &FieldTable, calculation: &CalculationSpec) -> Action<Operand<u16>>
    ensures value { result ≡ renamed_action (key_number table.now) (steps.moved_action side calculation.now) }
    ensures kept { IsMarkedAction result }
{
    Action::Move {
        side,
        factor2: factor_of(table, &calculation.factor_2),
        result: result_of(table, &calculation.result_field),
    }
}

/// Returns the operand of a factor, field 0 if it is blank.
fn factor_of(table: &FieldTable, factor: &Option<Factor>) -> Operand<u16>
    ensures { result ≡ renamed_operand (key_number table.now) (unwrap_or (option_map keys.factor_operand factor.now) keys.nowhere) }
{
    match factor {
        None => NOWHERE,
        Some(factor) => table.operand_of(factor),
    }
}

fn result_of(table: &FieldTable, entry: &Option<Entry>) -> Operand<u16>
    ensures { result ≡ renamed_operand (key_number table.now) (unwrap_or (option_map keys.entry_operand entry.now) keys.nowhere) }
{
    match entry {
        None => NOWHERE,
        Some(entry) => table.entry_of(entry),
    }
}

fn given_result(table: &FieldTable, entry: &Option<Entry>) -> Option<Operand<u16>>
    ensures { result ≡ option_map (renamed_operand (key_number table.now)) (option_map keys.entry_operand entry.now) }
{
    match entry {
        None => None,
        Some(entry) => Some(table.entry_of(entry)),
    }
}

/// Returns factor 1, or if it is blank the result field, whose operand this is.
fn first_or(
    table: &FieldTable,
    calculation: &CalculationSpec,
    otherwise: Operand<u16>,
) -> Operand<u16>
    requires { otherwise ≡ renamed_operand (key_number table.now) (unwrap_or (option_map keys.entry_operand calculation.now.result_field) keys.nowhere) }
    ensures { result ≡ renamed_operand (key_number table.now) (statements.first_or_result calculation.now) }
{
    match &calculation.factor_1 {
        None => otherwise,
        Some(factor) => table.operand_of(factor),
    }
}

const NOWHERE: Operand<u16> = Operand {
    field: 0,
    index: Index::Blank,
};
