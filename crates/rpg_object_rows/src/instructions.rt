//! Tables of instructions.

ghost use Rattle.std.specs.Prelude.{◌≡◌, ℕ, ◌++◌, All, length, OnOk};
ghost use Rattle.rpg_program.specs.declared.operation.Instruction as spec;
ghost use Rattle.rpg_object_format.specs.Format.{table};
ghost use Rattle.rpg_object_format.specs.Reading.{ReadsAs};
ghost use Rattle.rpg_program.specs.Kept.{IsInstructionRow};
ghost use Rattle.rpg_object_format.specs.Instructions as rows;

use crate::table::{Row, put_rows, rows_at};
use rpg_object_format::fault::ReadFault;
use rpg_object_format::{instruction_at, put_instruction};
use rpg_program::operation::Instruction;
use std::alloc::{AllocError, Global};

impl Row for Instruction<u16> {
    ghost Seen = { spec.Instruction ℕ };

    ghost seen = { λ i. i };

    ghost Keeps = { IsInstructionRow };

    ghost read = { rows.instruction.reading };

    ghost spell = { rows.instruction.spelling };

    fn read_row(_alloc: Global, bytes: &[u8]) -> Result<(Self, &[u8]), ReadFault> {
        instruction_at(bytes)
    }

    fn put_row(&self, out: &mut Vec<u8>) -> Result<(), AllocError> {
        put_instruction(out, *self)
    }
}

/// Reads `count` instructions. The caller checks the count.
#[tactic(auto, unfolding(rpg_object_format::specs::Format::times_with))]
pub fn instructions_at(
    alloc: Global,
    count: u16,
    bytes: &[u8],
) -> Result<(Vec<Instruction<u16>>, &[u8]), ReadFault>
    ensures { ReadsAs (λ x. (x.0.items, x.1.now)) result ((table count rows.instruction).reading bytes.now) }
{
    rows_at(alloc, count, bytes)
}

/// Writes instructions.
#[tactic(auto, unfolding(rpg_object_format::specs::Format::times_with))]
pub fn put_instructions(
    out: &mut Vec<u8>,
    instructions: &[Instruction<u16>],
) -> Result<(), AllocError>
    requires { All IsInstructionRow instructions.now }
    ensures { OnOk result (out.new.items ≡ out.old.items ++ (table (length instructions.now) rows.instruction).spelling instructions.now) }
{
    put_rows(instructions, out)
}
