//! The conditions of an alternative.

ghost use Rattle.std.specs.Prelude.{◌≡◌, ◌++◌};
ghost use Rattle.rpg_program.specs.declared.condition.Condition as spec;
ghost use Rattle.rpg_object_format.specs.Reading.{ReadsAs};
ghost use Rattle.rpg_program.specs.Kept.{IsConditionRow};
ghost use Rattle.rpg_object_format.specs.Indicators.{condition_format};

use crate::table::Row;
use rpg_object_format::fault::ReadFault;
use rpg_object_format::number::{byte_between_at, flag_at, flag_number};
use rpg_program::condition::Condition;
use std::alloc::{AllocError, Global};

#[tactic(auto, unfolding(rpg_object_format::specs::Format::byte, rpg_object_format::specs::Format::pair, rpg_object_format::specs::Format::row, rpg_object_format::specs::Indicators::condition_format))]
fn condition_at(bytes: &[u8]) -> Result<(Condition, &[u8]), ReadFault>
    ensures { ReadsAs (λ x. (x.0, x.1.now)) result (condition_format.reading bytes.now) }
{
    let (is_negated, rest) = flag_at(bytes)?;
    let (indicator, rest) = byte_between_at(rest, 1, 129)?;
    Ok((
        Condition {
            indicator,
            is_negated,
        },
        rest,
    ))
}

impl Row for Condition {
    ghost Seen = { spec.Condition };

    ghost seen = { λ c. c };

    ghost Keeps = { IsConditionRow };

    ghost read = { condition_format.reading };

    ghost spell = { condition_format.spelling };

    fn read_row(_alloc: Global, bytes: &[u8]) -> Result<(Self, &[u8]), ReadFault> {
        condition_at(bytes)
    }

    #[tactic(auto, unfolding(rpg_object_format::specs::Format::byte, rpg_object_format::specs::Format::pair, rpg_object_format::specs::Format::row, rpg_object_format::specs::Indicators::condition_format))]
    fn put_row(&self, out: &mut Vec<u8>) -> Result<(), AllocError> {
        let row = [flag_number(self.is_negated), self.indicator];
        out.extend_from_slice(&row)?;
        Ok(())
    }
}
