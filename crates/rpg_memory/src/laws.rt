//! Laws of the definitions.
ghost use Rattle.rpg_store.specs.First.{first_contents, first_currents};
ghost use Rattle.rpg_memory.specs.Fields.{AreForms};
ghost use Rattle.rpg_memory.specs.Fits.{Fits, KeepsConstants};

use rpg_program::Program;

/// The values that a program starts with fit its fields, and constants have their first values.
#[tactic(auto, using(crate::proofs::FirstFits::first_fits))]
pub fn first_values_fit(program: &Program)
    ensures fits { Fits program.now.fields (first_contents program.now) (first_currents program.now) }
    ensures constants { KeepsConstants program.now (first_contents program.now) }
{
    let _kept = program.rows();
}

/// The forms of every object program are such that operations can use them.
#[tactic(auto, using(crate::proofs::Programs::programs))]
pub fn forms_are_valid(program: &Program)
    ensures { AreForms program.now.fields }
{
    let _ = program.rows();
}
