//! A source without faults, with the program that it compiles to.

ghost use Rattle.std.specs.Prelude.{◌≡◌, ◌<◌, IfErr, IfOk};
ghost use Rattle.rpg_compile.specs.Compile.{Compiles};
ghost use Rattle.rpg_faults.specs.Source.{IsSourceRefusal, cards_in};
ghost use Rattle.rpg_meaning.specs.Jobs.Meant.{DoesAsMeant};
ghost use Rattle.rpg_program.specs.Kept.{IsProgram};

use crate::compiled::compile_as_meant;
use rpg_compile::SourceFault;
use rpg_engine::{Verified, accept};
use std::alloc::Global;

/// The text of a source without faults, and its accepted program. `allowance` limits the backward branches and calls of a cycle.
#[derive(Drop)]
pub struct CompiledSource {
    text: Vec<u8>,
    allowance: u16,
    program: Verified,
    ghost compiled: { Compiles text.items allowance program },
}

impl CompiledSource {
    /// Compiles a source. A text that doesn't compile is given back.
    pub fn new(
        alloc: Global,
        text: Vec<u8>,
        allowance: u16,
    ) -> Result<CompiledSource, (Vec<u8>, SourceFault)>
        requires { 0 < allowance }
        ensures text { IfOk result (λ source. source.text ≡ text) }
        ensures allowance { IfOk result (λ source. source.allowance ≡ allowance) }
        ensures meant { IfOk result (λ source. DoesAsMeant (cards_in text.items) allowance source.program) }
        ensures unchanged { IfErr result (λ e. e.0 ≡ text) }
        ensures refused { IfErr result (λ e. IsSourceRefusal e.1 text.items) }
    {
        let program = match compile_as_meant(alloc, &text, allowance) {
            Ok(program) => program,
            Err(fault) => return Err((text, fault)),
        };
        match accept(alloc, program) {
            Ok(program) => Ok(CompiledSource {
                text,
                allowance,
                program,
            }),
            Err(_) => Err((text, SourceFault::NoMemory)),
        }
    }

    pub fn text(&self) -> &[u8]
        ensures { result.now ≡ self.now.text.items }
    {
        &self.text
    }

    pub fn into_text(self) -> Vec<u8>
        ensures { result ≡ self.text }
    {
        self.text
    }

    pub fn program(&self) -> &Verified
        ensures same { result.now ≡ self.now.program }
        ensures program { IsProgram self.now.program }
        ensures compiled { Compiles self.now.text.items self.now.allowance self.now.program }
    {
        let _program = self.program.program();
        &self.program
    }
}
