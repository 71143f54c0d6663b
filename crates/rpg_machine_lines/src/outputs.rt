//! The outputs of a program: at detail time, at total time, at overflow, and at an EXCPT.
ghost use Rattle.std.specs.Prelude.{◌≡◌, IfOk, OnOk};
ghost use Rattle.rpg_program.specs.Ends.{end_of};
ghost use Rattle.rpg_program.specs.Fronts.{OnlyGrows};
ghost use Rattle.rpg_machine_lines.specs.Outputs.{PutsOwn, detail_effect, exception_effect, output_of, overflow_detail_effect, overflow_effect, total_effect};
ghost use Rattle.rpg_machine_lines.specs.Plans.{IsPlanOf};
ghost use Rattle.rpg_machine_lines.specs.Putting.{CanPutLines, StaysNear};
ghost use Rattle.rpg_machine_lines.specs.Ready.{IsNear};
ghost use Rattle.rpg_machine_lines.specs.Right.{AreRightLines, HasLineRoom};

use crate::bytes::Output;
use crate::entries::Entries;
use crate::passage::put_lines;
use crate::plan::Plan;
use rpg_memory::memory::Memory;
use rpg_program::line::Pass;
use rpg_program::outcome::End;
use rpg_store::store::Store;
use std::alloc::AllocError;

/// Detail output: H and D lines, after which the overflow indicator is settled. `text` has room for one line of either file.
pub fn put_details<S: Store + Drop>(
    memory: &mut Memory<'_, S>,
    output: &mut Output,
    text: &mut [u8],
    to_blank: &mut Entries,
    plan: &Plan,
) -> Result<End, AllocError>
    requires near { IsNear memory.old.world.paper.here }
    requires right { AreRightLines memory.old.program }
    requires room { HasLineRoom memory.old.program text.old }
    requires plan { IsPlanOf memory.old.program plan.now }
    ensures done { IfOk result (λ e. PutsOwn detail_effect memory.old output.old (end_of e) memory.new output.new) }
    ensures near { OnOk result (IsNear memory.new.world.paper.here) }
    ensures program { memory.new.program ≡ memory.old.program }
    ensures grows { OnlyGrows (output_of output.old) (output_of output.new) }
{
    match put_lines(memory, output, text, to_blank, Pass::Detail, plan)? {
        End::Continues => {}
        End::Halt(halt) => return Ok(End::Halt(halt)),
    }
    memory.settle();
    Ok(End::Continues)
}

/// Total output: T lines. Usually none is due, which is detected without entering their loop.
pub fn put_totals<S: Store + Drop>(
    memory: &mut Memory<'_, S>,
    output: &mut Output,
    text: &mut [u8],
    to_blank: &mut Entries,
    plan: &Plan,
) -> Result<End, AllocError>
    requires near { IsNear memory.old.world.paper.here }
    requires right { AreRightLines memory.old.program }
    requires room { HasLineRoom memory.old.program text.old }
    requires plan { IsPlanOf memory.old.program plan.now }
    ensures done { IfOk result (λ e. PutsOwn total_effect memory.old output.old (end_of e) memory.new output.new) }
    ensures near { OnOk result (IsNear memory.new.world.paper.here) }
    ensures program { memory.new.program ≡ memory.old.program }
    ensures grows { OnlyGrows (output_of output.old) (output_of output.new) }
{
    if !plan.passages.any_may_be_due(Pass::Total, memory.on()) {
        return Ok(End::Continues);
    }
    put_lines(memory, output, text, to_blank, Pass::Total, plan)
}

/// H and D lines at overflow.
fn put_overflow_details<S: Store + Drop>(
    memory: &mut Memory<'_, S>,
    output: &mut Output,
    text: &mut [u8],
    to_blank: &mut Entries,
    plan: &Plan,
) -> Result<End, AllocError>
    requires { CanPutLines memory.old text.old plan.now }
    ensures done { IfOk result (λ e. PutsOwn overflow_detail_effect memory.old output.old (end_of e) memory.new output.new) }
    ensures kept { StaysNear result memory.old memory.new }
    ensures grows { OnlyGrows (output_of output.old) (output_of output.new) }
{
    match put_lines(memory, output, text, to_blank, Pass::OverflowDetail, plan)? {
        End::Continues => {}
        End::Halt(halt) => return Ok(End::Halt(halt)),
    }
    memory.watch_movements();
    Ok(End::Continues)
}

/// Overflow output: T lines, then H and D lines.
pub fn put_overflow<S: Store + Drop>(
    memory: &mut Memory<'_, S>,
    output: &mut Output,
    text: &mut [u8],
    to_blank: &mut Entries,
    plan: &Plan,
) -> Result<End, AllocError>
    requires near { IsNear memory.old.world.paper.here }
    requires right { AreRightLines memory.old.program }
    requires room { HasLineRoom memory.old.program text.old }
    requires plan { IsPlanOf memory.old.program plan.now }
    ensures done { IfOk result (λ e. PutsOwn overflow_effect memory.old output.old (end_of e) memory.new output.new) }
    ensures near { OnOk result (IsNear memory.new.world.paper.here) }
    ensures program { memory.new.program ≡ memory.old.program }
    ensures grows { OnlyGrows (output_of output.old) (output_of output.new) }
{
    match put_lines(memory, output, text, to_blank, Pass::OverflowTotal, plan)? {
        End::Continues => {}
        End::Halt(halt) => return Ok(End::Halt(halt)),
    }
    put_overflow_details(memory, output, text, to_blank, plan)
}

/// Exception output: E lines, at an EXCPT.
pub fn put_exceptions<S: Store + Drop>(
    memory: &mut Memory<'_, S>,
    output: &mut Output,
    text: &mut [u8],
    to_blank: &mut Entries,
    plan: &Plan,
) -> Result<End, AllocError>
    requires near { IsNear memory.old.world.paper.here }
    requires right { AreRightLines memory.old.program }
    requires room { HasLineRoom memory.old.program text.old }
    requires plan { IsPlanOf memory.old.program plan.now }
    ensures done { IfOk result (λ e. PutsOwn exception_effect memory.old output.old (end_of e) memory.new output.new) }
    ensures near { OnOk result (IsNear memory.new.world.paper.here) }
    ensures program { memory.new.program ≡ memory.old.program }
    ensures grows { OnlyGrows (output_of output.old) (output_of output.new) }
{
    put_lines(memory, output, text, to_blank, Pass::Exception, plan)
}
