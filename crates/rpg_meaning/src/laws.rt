//! Laws of compiled programs. The functions do nothing: they are called only for their
//! contracts.
ghost use Rattle.rpg_compile.specs.Compile.{Compiles};
ghost use Rattle.rpg_meaning.specs.Jobs.Meant.{DoesAsMeant};
ghost use Rattle.rpg_faults.specs.Source.{cards_in};

use rpg_program::Program;

/// A compiled program does what the cards of its text mean.
#[tactic(auto, using(crate::proofs::Jobs::CompiledMeant::does_as_meant))]
pub fn compiled_programs_do_as_meant(text: &[u8], allowance: u16, program: &Program)
    requires { Compiles text.now allowance program.now }
    ensures { DoesAsMeant (cards_in text.now) allowance program.now }
{
    let _rows = program.rows();
}
