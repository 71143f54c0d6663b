//! Laws of the definitions: what every run of an accepted program keeps. The functions do nothing: they are called only for their contracts.
ghost use Rattle.std.specs.Prelude.{◌≡◌, ℕ, false};
ghost use Rattle.std.specs.Ordering.{nat_cmp};
ghost use Rattle.rpg_program.specs.World.{Data, World};
ghost use Rattle.rpg_program.specs.declared.line.Pass.{Pass};
ghost use Rattle.rpg_program.specs.declared.operation.Instruction.{Instruction};
ghost use Rattle.rpg_cycle_safety.specs.Buying.{IsGreatestSpend};
ghost use Rattle.rpg_cycle_safety.specs.Holding.{Holds, Keeps};
ghost use Rattle.rpg_cycle_safety.specs.Leading.{IsSteady, StepsWell};
ghost use Rattle.rpg_cycle_safety.specs.StepLaws.{InputFieldsKeep, OperationsKeep, SectionsEndWell, SectionsHaveRuns, SectionsStandWell, StepsStayInBound};
ghost use Rattle.rpg_machine_lines.specs.Outputs.{passage_effect};
ghost use Rattle.rpg_machine.specs.Config.{Config};
ghost use Rattle.rpg_machine.specs.Outputs.{output_effect};
ghost use Rattle.rpg_machine.specs.Run.{is_end};
ghost use Rattle.rpg_machine.specs.Step.{effect, step};
ghost use Rattle.rpg_machine.specs.declared.time.OutputTime.{OutputTime};
ghost use Rattle.rpg_program.specs.Kept.{IsProgram};
ghost use Rattle.rpg_program.specs.Object.{Object};
ghost use Rattle.rpg_program.specs.declared.section.Place.{Place};
ghost use Rattle.rpg_verify_rules.specs.Accepted.{IsAccepted};
ghost use Rattle.rpg_verify_rules.specs.Sound.{IsAt};
ghost use Rattle.rpg_verify.specs.Bound.{most};
ghost use Rattle.rpg_store.specs.First.{first_contents, first_currents};

/// The values that a program starts with are valid.
pub fn first_values_hold()
    ensures { (p : Object) (d : Data nat_cmp) → IsProgram p → d.fields ≡ record { values = first_contents p; current = first_currents p } →
        Holds p d }
{}

/// An operation whose row has no fault continues or halts, and preserves what holds of the values.
pub fn operations_keep()
    ensures { OperationsKeep }
{}

/// So do the input fields of a record type, over a record as long as its file's records.
pub fn input_fields_keep()
    ensures { InputFieldsKeep }
{}

/// So do the lines of each pass, and the outputs of a cycle.
pub fn outputs_keep()
    ensures passage { (p : Object) (pass : Pass) (w : World nat_cmp) → IsProgram p → IsAccepted p → Holds p w.data → Keeps p (passage_effect p pass w) }
    ensures output { (p : Object) (time : OutputTime) (w : World nat_cmp) → IsProgram p → IsAccepted p → Holds p w.data →
        Keeps p (output_effect p time w) }
{}

/// So does each instruction, including EXCPT.
pub fn instructions_keep()
    ensures { (p : Object) (x : Place) (i : Instruction ℕ) (w : World nat_cmp) → IsProgram p → IsAccepted p → IsAt p x i → Holds p w.data →
        Keeps p (effect p i w) }
{}

/// From a steady configuration that isn't a section's end, a step leads to a steady one or halts. Nothing goes wrong, and the steps so far
/// plus those that may still come don't grow.
pub fn steps_keep()
    ensures leads { (p : Object) (c : Config) → IsProgram p → IsAccepted p → IsSteady p c → is_end p c ≡ false → StepsWell p (step p c) }
    ensures bound { StepsStayInBound }
{}

/// The bound's factor of the allowance is exactly the greatest cost that a spend leads to.
pub fn most_is_greatest()
    ensures { (p : Object) → IsProgram p → IsGreatestSpend p (most p) }
{}

/// Detail and total calculations have a run from any configuration whose values are valid and in which no subroutine runs. Each such run
/// reaches their end or a halt within its bound, with valid values; after any number of steps it is at a steady configuration, at that end
/// or at that halt.
pub fn sections_keep()
    ensures exists { SectionsHaveRuns }
    ensures each { SectionsEndWell }
    ensures throughout { SectionsStandWell }
{}
