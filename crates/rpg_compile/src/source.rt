//! Compiles the text of a source to its program.

ghost use Rattle.std.specs.Prelude.{◌<◌, IfOk, IfErr};
ghost use Rattle.rpg_compile.specs.Compile.{Compiles};
ghost use Rattle.rpg_faults.specs.Source.{AreFaultless, IsSourceRefusal};

use crate::program::translate;
use rpg_faults::{FaultlessCards, SourceFault, faultless_cards};
use rpg_program::Program;
use std::alloc::Global;

/// A source without faults, and the program that it compiles to.
#[derive(Drop)]
pub struct Compiled {
    pub source: FaultlessCards,
    pub program: Program,
}

/// Like `compile`, but also returns the cards, so that callers needn't read and check them again.
pub fn compile_with_cards(
    alloc: Global,
    text: &[u8],
    allowance: u16,
) -> Result<Compiled, SourceFault>
    requires { 0 < allowance }
    ensures ok { IfOk result (λ compiled. Compiles text.now allowance compiled.program) }
    ensures cards { IfOk result (λ compiled. AreFaultless text.now compiled.source.cards.items) }
    ensures err { IfErr result (λ fault. IsSourceRefusal fault text.now) }
{
    let (cards, index) = faultless_cards(alloc, text)?.into_parts();
    let indexed = index.over(&cards);
    let program = translate(alloc, &indexed, allowance)?;
    let index = indexed.into_index();
    let source = FaultlessCards::of_parts(cards, index);
    Ok(Compiled { source, program })
}

/// Compiles a source. `allowance` limits the backward branches and calls of a cycle of its program.
pub fn compile(alloc: Global, text: &[u8], allowance: u16) -> Result<Program, SourceFault>
    requires { 0 < allowance }
    ensures ok { IfOk result (λ program. Compiles text.now allowance program) }
    ensures err { IfErr result (λ fault. IsSourceRefusal fault text.now) }
{
    let (cards, index) = faultless_cards(alloc, text)?.into_parts();
    Ok(translate(alloc, &index.over(&cards), allowance)?)
}
