//! Compiling a source with its meaning as the contract.

ghost use Rattle.std.specs.Prelude.{◌<◌, IfErr, IfOk};
ghost use Rattle.rpg_compile.specs.Compile.{Compiles};
ghost use Rattle.rpg_meaning.specs.Jobs.Meant.{DoesAsMeant};
ghost use Rattle.rpg_faults.specs.Source.{IsSourceRefusal, cards_in};

use crate::laws::compiled_programs_do_as_meant;
use rpg_compile::{SourceFault, compile};
use rpg_program::Program;
use std::alloc::Global;

/// Compiles a source as `compile` does, and returns a program that does what the cards mean.
pub fn compile_as_meant(alloc: Global, text: &[u8], allowance: u16) -> Result<Program, SourceFault>
    requires { 0 < allowance }
    ensures compiled { IfOk result (λ program. Compiles text.now allowance program) }
    ensures meant { IfOk result (λ program. DoesAsMeant (cards_in text.now) allowance program) }
    ensures err { IfErr result (λ fault. IsSourceRefusal fault text.now) }
{
    let program = compile(alloc, text, allowance)?;
    compiled_programs_do_as_meant(text, allowance, &program);
    Ok(program)
}
