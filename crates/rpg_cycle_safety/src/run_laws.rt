//! Laws of cycles and of whole runs. The functions do nothing: they are called only for their contracts.
ghost use Rattle.rpg_cycle_records.specs.Waiting.{unread};
ghost use Rattle.rpg_cycle_safety.specs.RunLaws.{CyclesAreOne, CyclesAreThere, CyclesEndWell, CyclesPayForOutput, JobsStayInOutput, RunsAreSteady, RunsAreThere, RunsEndWell, RunsOutputFew, RunsStayInOutput, SectionsPayForOutput};
ghost use Rattle.rpg_cycle_safety.specs.Waiting.{AreWaiting};
ghost use Rattle.rpg_program.specs.Object.{Object};

/// There is a cycle from any configuration whose values are valid, in which no subroutine runs, and whose waiting records are well kept,
/// whatever was read before and whatever record is next in each file. No cycle from there goes wrong or takes more steps than the program's
/// bound, and the records that wait after it are well kept again. Nothing waits at first.
pub fn cycles_keep()
    ensures first { (p : Object) → AreWaiting p unread }
    ensures exists { CyclesAreThere }
    ensures each { CyclesEndWell }
{}

/// Two cycles from the same configuration and files, after the same records and with the same next ones, end alike, lead to the same
/// configuration and files, and output the same bytes.
pub fn cycles_are_one()
    ensures { CyclesAreOne }
{}

/// There is a run over any records of both files, on any date, from valid values. Each such run ends at the end of the job or at a halt, in
/// at most one cycle more than both files have records, and no cycle takes more steps than the program's bound. Nothing in it goes wrong:
/// each configuration on its way is steady, and `steps_keep` states what a step from a steady one leads to.
pub fn runs_keep()
    ensures exists { RunsAreThere }
    ensures each { RunsEndWell }
    ensures throughout { RunsAreSteady }
{}

/// A cycle outputs at most 10,000 bytes, for printer and disk together, for each step of the program's bound, from any configuration whose
/// values are valid, in which no subroutine runs, whose waiting records are well kept and where the form is near the line placed last
/// (`cycle`); the same holds for each cycle of a run (`run`). Each output takes the steps that pay for it, as `section` states for
/// calculations. A job whose output was taken before a cycle holds no more after it, but for the line feed that ends the job's last line
/// (`job`). A whole run outputs at most this much for each of its cycles, and that line feed (`whole`).
pub fn outputs_stay_in_bound()
    ensures section { SectionsPayForOutput }
    ensures cycle { CyclesPayForOutput }
    ensures run { RunsStayInOutput }
    ensures job { JobsStayInOutput }
    ensures whole { RunsOutputFew }
{}
