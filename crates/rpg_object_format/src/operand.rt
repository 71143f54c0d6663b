//! Operands: a field, and which entry of it.

ghost use Rattle.std.specs.Prelude.{◌≡◌, ◌<◌, ◌+◌, ◌^◌};
ghost use Rattle.rpg_object_format.specs.Format.{read_two};
ghost use Rattle.rpg_object_format.specs.Reading.{ReadsAs};
ghost use Rattle.rpg_program.specs.Kept.{IsIndexRow};
ghost use Rattle.rpg_object_format.specs.Operands as rows;

use crate::fault::{Code, ReadFault};
use crate::number::{any_number_at, number_at, only_number_at};
use rpg_program::operation::{Index, Operand};

/// What is added to a field's number if the index is a field.
const FIELDS: u16 = 10_000;

fn index_of(n: u16) -> Index<u16>
    ensures { result ≡ rows.index_by_number n }
{
    match n {
        0 => Index::Blank,
        1..=9999 => Index::Literal(n),
        _ => Index::Field(n - FIELDS),
    }
}

/// Returns the number of an index, 0 for none.
pub fn index_number(index: Index<u16>) -> u16
    requires { IsIndexRow index }
    ensures { result ≡ rows.index_number index }
{
    match index {
        Index::Blank => 0,
        Index::Literal(n) => n,
        Index::Field(field) => FIELDS + field,
    }
}

#[tactic(auto, unfolding(crate::specs::Format::read_two))]
fn index_at(bytes: &[u8]) -> Result<(Index<u16>, &[u8]), ReadFault>
    ensures { ReadsAs (λ x. (x.0, x.1.now)) result (read_two rows.index_rule bytes.now) }
{
    number_at(bytes, |n| Ok(index_of(n)))
}

/// Reads an operand.
#[tactic(auto, unfolding(crate::specs::Format::two_bytes, crate::specs::Format::pair, crate::specs::Format::row, crate::specs::Operands::operand))]
pub fn operand_at(bytes: &[u8]) -> Result<(Operand<u16>, &[u8]), ReadFault>
    ensures { ReadsAs (λ x. (x.0, x.1.now)) result (rows.operand.reading bytes.now) }
{
    let (field, rest) = any_number_at(bytes)?;
    let (index, rest) = index_at(rest)?;
    Ok((Operand { field, index }, rest))
}

/// Reads the zero field and index of an absent operand.
#[tactic(auto, unfolding(crate::specs::Format::two_bytes, crate::specs::Format::pair, crate::specs::Format::row, crate::specs::Operands::unused_operand))]
pub(crate) fn unused_operand_at(bytes: &[u8]) -> Result<((), &[u8]), ReadFault>
    ensures { ReadsAs (λ x. (x.0, x.1.now)) result (rows.unused_operand.reading bytes.now) }
{
    let (_, rest) = only_number_at(bytes, 0, Code::Unused)?;
    let (_, rest) = only_number_at(rest, 0, Code::Unused)?;
    Ok(((), rest))
}

/// The operand that encodes an absent one.
pub(crate) const NO_OPERAND: Operand<u16> = Operand {
    field: 0,
    index: Index::Blank,
};

/// Returns the operand, or None if it encodes an absent one.
pub(crate) fn optional_of(operand: Operand<u16>) -> Option<Operand<u16>>
    ensures { result ≡ rows.optional_of operand }
{
    match operand.index {
        Index::Blank if operand.field == 0 => None,
        _ => Some(operand),
    }
}

/// Returns the operand, or the one that encodes its absence.
pub(crate) fn operand_or_none(operand: Option<Operand<u16>>) -> Operand<u16>
    ensures { result ≡ rows.operand_or_none operand }
{
    match operand {
        None => NO_OPERAND,
        Some(operand) => operand,
    }
}
