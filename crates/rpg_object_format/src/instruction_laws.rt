//! A law of the format. A function here does nothing: its contract is the law.

ghost use Rattle.std.specs.Prelude.{ℕ};
ghost use Rattle.rpg_program.specs.declared.operation.Instruction.{Instruction};
ghost use Rattle.rpg_program.specs.Kept.{IsInstructionRow};
ghost use Rattle.rpg_object_format.specs.Instructions.{instruction};

/// The limits of an instruction, in plain words, and the converse.
#[tactic(auto, using(crate::proofs::InstructionKept::instruction_kept, crate::proofs::InstructionKept::instruction_from))]
pub fn instructions_are_plain()
    ensures plain { (i : Instruction ℕ) → instruction.Holds i → IsInstructionRow i }
    ensures whole { (i : Instruction ℕ) → IsInstructionRow i → instruction.Holds i }
{}
