//! The numbers of an instruction, as its operation uses them.

ghost use Rattle.std.specs.Prelude.{◌≡◌, ◌++◌};
ghost use Rattle.rpg_object_format.specs.Format.{read_byte};
ghost use Rattle.rpg_object_format.specs.Instructions as rows;
ghost use Rattle.rpg_object_format.specs.Reading.{ReadsAs};

use crate::condition::negations_at;
use crate::fault::{Code, ReadFault};
use crate::indicator::shows_at;
use crate::number::{any_number_at, byte_at, flag_at, only_byte_at, only_number_at};
use crate::operand::{NO_OPERAND, operand_at, unused_operand_at};
use crate::operation::{Columns, Numbers, Opcode, columns_of, operation_of};
use rpg_program::operation::{Operand, Shows};

/// No indicator.
pub const NO_SHOWS: Shows = Shows {
    plus: None,
    minus: None,
    zero: None,
};

#[tactic(auto, unfolding(crate::specs::Format::read_byte))]
fn operation_at(bytes: &[u8]) -> Result<(Opcode, &[u8]), ReadFault>
    ensures { ReadsAs (λ x. (x.0, x.1.now)) result (read_byte rows.operation_of bytes.now) }
{
    byte_at(bytes, operation_of)
}

#[tactic(auto, unfolding(crate::specs::Format::byte, crate::specs::Shapes::row_where))]
fn half_at(bytes: &[u8], columns: Columns) -> Result<(bool, &[u8]), ReadFault>
    ensures { ReadsAs (λ x. (x.0, x.1.now)) result ((rows.half_column columns).reading bytes.now) }
{
    if columns.half {
        return flag_at(bytes);
    }
    let (_, rest) = only_byte_at(bytes, 0, Code::Unused)?;
    Ok((false, rest))
}

#[tactic(auto, unfolding(crate::specs::Shapes::row_where))]
fn operand_column_at(bytes: &[u8], is_used: bool) -> Result<(Operand<u16>, &[u8]), ReadFault>
    ensures { ReadsAs (λ x. (x.0, x.1.now)) result ((rows.operand_column is_used).reading bytes.now) }
{
    if is_used {
        return operand_at(bytes);
    }
    let (_, rest) = unused_operand_at(bytes)?;
    Ok((NO_OPERAND, rest))
}

#[tactic(auto, unfolding(crate::specs::Format::byte, crate::specs::Format::pair, crate::specs::Format::row, crate::specs::Instructions::unused_shows))]
fn unused_shows_at(bytes: &[u8]) -> Result<((), &[u8]), ReadFault>
    ensures { ReadsAs (λ x. (x.0, x.1.now)) result (rows.unused_shows.reading bytes.now) }
{
    let (_, rest) = only_byte_at(bytes, 0, Code::Unused)?;
    let (_, rest) = only_byte_at(rest, 0, Code::Unused)?;
    let (_, rest) = only_byte_at(rest, 0, Code::Unused)?;
    Ok(((), rest))
}

#[tactic(auto, unfolding(crate::specs::Shapes::row_where))]
fn indicators_at(bytes: &[u8], columns: Columns) -> Result<(Shows, &[u8]), ReadFault>
    ensures { ReadsAs (λ x. (x.0, x.1.now)) result ((rows.indicators_column columns).reading bytes.now) }
{
    if columns.indicators {
        return shows_at(bytes);
    }
    let (_, rest) = unused_shows_at(bytes)?;
    Ok((NO_SHOWS, rest))
}

#[tactic(auto, unfolding(crate::specs::Format::two_bytes, crate::specs::Shapes::row_where))]
fn target_at(bytes: &[u8], columns: Columns) -> Result<(u16, &[u8]), ReadFault>
    ensures { ReadsAs (λ x. (x.0, x.1.now)) result ((rows.target_column columns).reading bytes.now) }
{
    if columns.target {
        return any_number_at(bytes);
    }
    let (_, rest) = only_number_at(bytes, 0, Code::Unused)?;
    Ok((0, rest))
}

#[tactic(auto, unfolding(crate::specs::Format::byte, crate::specs::Shapes::row_where))]
fn negations_column_at(
    bytes: &[u8],
    columns: Columns,
    shows: Shows,
) -> Result<(u8, &[u8]), ReadFault>
    ensures { ReadsAs (λ x. (x.0, x.1.now)) result ((rows.negations_column columns shows).reading bytes.now) }
{
    if columns.negations {
        return negations_at(bytes, shows);
    }
    let (_, rest) = only_byte_at(bytes, 0, Code::Unused)?;
    Ok((0, rest))
}

/// Reads an operation and its numbers.
#[tactic(auto, unfolding(crate::specs::Format::byte, crate::specs::Format::pair, crate::specs::Format::row, crate::specs::Instructions::used_numbers, crate::specs::Instructions::numbers_format))]
pub fn numbers_at(bytes: &[u8]) -> Result<(Numbers, &[u8]), ReadFault>
    ensures { ReadsAs (λ x. (x.0, x.1.now)) result (rows.numbers_format.reading bytes.now) }
{
    let (operation, rest) = operation_at(bytes)?;
    let columns = columns_of(operation);
    let (half, rest) = half_at(rest, columns)?;
    let (factor1, rest) = operand_column_at(rest, columns.factor1)?;
    let (factor2, rest) = operand_column_at(rest, columns.factor2)?;
    let (to, rest) = operand_column_at(rest, columns.result)?;
    let (shows, rest) = indicators_at(rest, columns)?;
    let (target, rest) = target_at(rest, columns)?;
    let (negations, rest) = negations_column_at(rest, columns, shows)?;
    Ok((
        Numbers {
            operation,
            half,
            factor1,
            factor2,
            result: to,
            shows,
            target,
            negations,
        },
        rest,
    ))
}
