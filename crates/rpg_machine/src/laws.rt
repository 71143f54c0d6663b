//! Laws of the definitions.
ghost use Rattle.rpg_machine.specs.Laws.{NoStepIsWrong, RunsAreOne, SectionsStandRight};

use crate::accepted::accepted_is_orderly;
use rpg_verify::Verified;

/// A section has one run from a configuration.
pub fn runs_are_one()
    ensures { RunsAreOne }
{}

/// A section that continues leads to its end, and one that halts is at the instruction that halted.
pub fn sections_stand_right()
    ensures { SectionsStandRight }
{}

/// Nothing is ever wrong in an accepted program.
pub fn no_step_is_wrong(program: &Verified)
    ensures { NoStepIsWrong program.now }
{
    accepted_is_orderly(program);
}
