//! Compiles sources to the bytes of their object programs, verifies object programs, and compares both, given their bytes.

ghost use Rattle.std.specs.Prelude.{◌≡◌, ◌<◌, IfErr, IfOk, ◌≢◌, None};
ghost use Rattle.rpg_cli_programs.specs.Judging.{IsSourceOf, ReportsMismatch, ReportsObject, ReportsSource};
ghost use Rattle.rpg_cli_programs.specs.Spelling.{CompilesTo};
ghost use Rattle.rpg_engine.specs.Objects.{IsAcceptedWith};
ghost use Rattle.std.specs.Bool.{MatchBool};
ghost use Rattle.rpg_object.specs.Program.{spelling, first_fault};
ghost use Rattle.rpg_faults.specs.Source.{AreFaultless, IsSourceRefusal};

use rpg_cli_answers::Answer;
use rpg_cli_diagnostics::Made;
use rpg_compile::{Compiled, compile_with_cards};
use rpg_engine::{Program, decode_object, verify_bytes};
use rpg_faults::{FaultlessCards, SourceFault};
use rpg_meaning::CompiledSource;
use rpg_object::encode;
use rpg_object::laws::a_spelling_is_read_again;
use std::alloc::Global;

/// Compiles a source to an object program.
pub fn compiled(alloc: Global, source: &[u8], allowance: u16) -> Result<CompiledObject, Answer>
    requires { 0 < allowance }
    ensures compiled { IfOk result (λ object. CompilesTo source.now allowance object.bytes.items) }
    ensures refused { IfErr result (λ answer. ReportsSource answer source.now) }
{
    Ok(compile_to_object(alloc, source, allowance)?)
}

pub fn verified(alloc: Global, object: &[u8]) -> Result<u64, Answer>
    ensures accepted { IfOk result (λ bound. IsAcceptedWith bound object.now) }
    ensures refused { IfErr result (λ answer. ReportsObject answer object.now) }
{
    Ok(verify_bytes(alloc, object)?)
}

/// Returns how many backward branches and calls a cycle of the program may take.
fn allowance_of(program: &Program) -> u16
    ensures value { result ≡ program.now.allowance }
    ensures positive { 0 < result }
{
    program.rows().allowance
}

/// Compiles the source of the object program in these bytes. A text that doesn't compile to them is given back.
pub(crate) fn matched(
    alloc: Global,
    text: Vec<u8>,
    object: &[u8],
) -> Result<CompiledSource, (Vec<u8>, Answer)>
    ensures matched { IfOk result (λ source. IsSourceOf text.items object.now × (source.text ≡ text)) }
    ensures refused { IfErr result (λ e. ReportsMismatch e.1 text.items object.now × (e.0 ≡ text)) }
{
    a_spelling_is_read_again();
    let program = match decode_object(alloc, object) {
        Ok(program) => program,
        Err(fault) => return Err((text, fault.into())),
    };
    let source = match CompiledSource::new(alloc, text, allowance_of(&program)) {
        Ok(source) => source,
        Err((text, fault)) => return Err((text, fault.into())),
    };
    match is_written_as(alloc, source.program().program(), object) {
        Ok(true) => Ok(source),
        Ok(false) => Err((source.into_text(), Answer::OtherSource)),
        Err(_) => Err((source.into_text(), SourceFault::NoMemory.into())),
    }
}

/// Whether these are exactly the bytes of a program.
pub(crate) fn is_written_as(alloc: Global, program: &Program, bytes: &[u8]) -> Made<bool>
    ensures { IfOk result (λ is_same. MatchBool is_same (spelling program.now ≡ bytes.now) (spelling program.now ≢ bytes.now)) }
{
    let written = encode(alloc, program)?;
    Ok(written.as_slice() == bytes)
}

/// The bytes of an object program, and the source that it was compiled from.
#[derive(Drop)]
pub struct CompiledObject {
    pub source: FaultlessCards,
    pub bytes: Vec<u8>,
}

/// Compiles a source to an object program.
pub(crate) fn compile_to_object(
    alloc: Global,
    text: &[u8],
    allowance: u16,
) -> Result<CompiledObject, SourceFault>
    requires { 0 < allowance }
    // The program obeys all rules, and the bytes decode to exactly that program.
    ensures ok { IfOk result (λ object. CompilesTo text.now allowance object.bytes.items) }
    ensures cards { IfOk result (λ object. AreFaultless text.now object.source.cards.items) }
    ensures refused { IfErr result (λ fault. IsSourceRefusal fault text.now) }
    ensures faultless { IfOk result (λ object. first_fault object.bytes.items ≡ None) }
{
    a_spelling_is_read_again();
    let Compiled { source, program } = compile_with_cards(alloc, text, allowance)?;
    let bytes = encode(alloc, &program)?;
    Ok(CompiledObject { source, bytes })
}
