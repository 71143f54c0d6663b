//! Laws.
ghost use Rattle.std.specs.Prelude.{◌+◌, ◌≤◌, []};
ghost use Rattle.rpg_cycle.specs.Counting.{records_count};
ghost use Rattle.rpg_cycle.specs.Laws.{CyclesGoByLeft, CyclesKeepOrder, IgnoresPrimary, IgnoresSecondary, LeftGivesCycles, RecordsGiveOneCourse, RecordsGiveOneOutput, RunsGoByTheirCount};
ghost use Rattle.rpg_cycle.specs.Runs.{Course, Records, Runs};
ghost use Rattle.rpg_cycle.specs.Standing.{RunsStandRight};
ghost use Rattle.rpg_cycle_records.specs.Merging.{AreMergedInOrder};
ghost use Rattle.rpg_cycle_records.specs.Waiting.{unread};
ghost use Rattle.rpg_machine.specs.Config.{Config};
ghost use Rattle.rpg_program.specs.Object.{Object};

use rpg_verify::Verified;

/// Before the first cycle nothing is out of order, and a cycle that continues preserves this. From there a cycle is the same whether a match
/// is looked for among all records read so far, or in what a job keeps.
#[tactic(auto, using(crate::proofs::Cycling::at_first))]
pub fn cycles_keep_order()
    ensures first { (p : Object) → AreMergedInOrder p [] unread }
    ensures kept { CyclesKeepOrder }
    ensures to_last { CyclesGoByLeft }
    ensures from_last { LeftGivesCycles }
{}

/// Two runs of a program over the same records take the same course and output the same bytes.
pub fn runs_are_one()
    ensures course { RecordsGiveOneCourse }
    ensures bytes { RecordsGiveOneOutput }
{}

/// A run has at most one cycle more than both files have records.
pub fn runs_are_short()
    ensures { (p : Object) (rs : Records) (c : Config) (course : Course) → Runs p [] rs c unread course → course.cycles ≤ records_count rs + 1 }
{}

/// A run of at most a given number of cycles is a run.
pub fn runs_go_by_their_count()
    ensures { RunsGoByTheirCount }
{}

/// A job that halts is at the instruction that halted it, or at the end of calculations if no instruction did.
pub fn runs_stand_right()
    ensures { RunsStandRight }
{}

/// If a file needs no record, because LR or one of H1 to H9 is on, the file is at its end or a record of it waits, a cycle doesn't depend
/// on the file's next record.
pub fn unneeded_records_are_ignored(program: &Verified)
    ensures primary { IgnoresPrimary program.now }
    ensures secondary { IgnoresSecondary program.now }
{
    let _program = program.program();
}
