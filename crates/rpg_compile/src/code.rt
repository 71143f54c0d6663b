//! Instructions, as they are generated.

ghost use Rattle.std.specs.Prelude.{◌≡◌, ◌++◌, ◌∷◌, [], All, IfOk, OnOk};
ghost use Rattle.rpg_compile.specs.Marked.{IsMarked};

use rpg_program::operation::Instruction;
use std::alloc::{AllocError, Global};
use std::marker::Model;

/// Instructions whose indicators and numbers are in range.
#[derive(Drop)]
pub struct Code {
    instructions: Vec<Instruction<u16>>,
}

impl Model for Code {
    ghost use Rattle.std.specs.Prelude.{ℕ, List, All};
    ghost use Rattle.rpg_program.specs.declared.operation.Instruction.{Instruction};
    ghost use Rattle.rpg_compile.specs.Marked.{IsMarked};

    ghost Value = { List (Instruction ℕ) };

    ghost view = { λ c. c.instructions.items };

    ghost invariant = { λ c. All IsMarked c.instructions.items };
}

impl Code {
    /// Returns no instructions, with room for so many.
    pub(crate) fn with_capacity(alloc: Global, count: usize) -> Result<Self, AllocError>
        ensures { IfOk result (λ code. code ≡ []) }
    {
        Ok(Code {
            instructions: Vec::with_capacity(alloc, count)?,
        })
    }

    pub(crate) fn push(&mut self, instruction: Instruction<u16>) -> Result<(), AllocError>
        requires { IsMarked instruction }
        ensures { OnOk result (self.new ≡ self.old ++ instruction ∷ []) }
    {
        self.instructions.push(instruction)?;
        Ok(())
    }

    pub fn into_vec(self) -> Vec<Instruction<u16>>
        ensures value { result.items ≡ self }
        ensures kept { All IsMarked result.items }
    {
        self.instructions
    }
}
