//! The output times of a cycle, and exception output.
ghost use Rattle.std.specs.Prelude.{◌≡◌, IfOk, OnOk};
ghost use Rattle.rpg_program.specs.Ends.{end_of};
ghost use Rattle.rpg_program.specs.declared.operation.Instruction.TheVariants.{Except};
ghost use Rattle.rpg_machine.specs.Outputs as spec;
ghost use Rattle.rpg_machine.specs.Outputs.{output_weight};
ghost use Rattle.rpg_machine.specs.Leaving.{CanOutput, KeepsRoom};
ghost use Rattle.rpg_machine.specs.Step.{effect};
ghost use Rattle.rpg_machine_lines.specs.Outputs.{PutsOwn};
ghost use Rattle.rpg_machine_lines.specs.Ready.{IsNear};
ghost use Rattle.rpg_machine_lines.specs.Right.{AreRightLines};

use crate::state::Writer;
use crate::time::OutputTime;
use rpg_machine_lines::{Plan, put_details, put_exceptions, put_overflow, put_totals};
use rpg_memory::memory::Memory;
use rpg_program::outcome::End;
use rpg_store::store::Store;
use std::alloc::AllocError;

/// Outputs the lines of a time, which have this weight. If there are no T lines, total time costs nothing.
#[tactic(auto, using(rpg_program::proofs::Fronts::grows_not))]
pub(crate) fn write_line_out<S: Store + Drop>(
    memory: &mut Memory<'_, S>,
    writer: &mut Writer,
    time: OutputTime,
    weight: u32,
    plan: &Plan,
) -> Result<End, AllocError>
    requires lines { AreRightLines memory.old.program }
    requires can { CanOutput memory.old writer.old.text.items plan.now }
    requires weighed { weight ≡ output_weight memory.old.program time }
    ensures done { IfOk result (λ e. PutsOwn (λ p. spec.output_effect p time) memory.old writer.old.output (end_of e) memory.new writer.new.output) }
    ensures near { OnOk result (IsNear memory.new.world.paper.here) }
    ensures keeps { KeepsRoom memory.old memory.new writer.old writer.new }
{
    let output = &mut writer.output;
    let text = &mut writer.text;
    let to_blank = &mut writer.to_blank;
    match time {
        OutputTime::Detail => put_details(memory, output, text, to_blank, plan),
        OutputTime::Total if weight == 0 => Ok(End::Continues),
        OutputTime::Total => put_totals(memory, output, text, to_blank, plan),
        OutputTime::Overflow => put_overflow(memory, output, text, to_blank, plan),
    }
}

/// Outputs the E lines, at an EXCPT.
#[tactic(auto, using(rpg_program::proofs::Fronts::grows_not))]
pub(crate) fn write_exceptions<S: Store + Drop>(
    memory: &mut Memory<'_, S>,
    writer: &mut Writer,
    plan: &Plan,
) -> Result<End, AllocError>
    requires lines { AreRightLines memory.old.program }
    requires can { CanOutput memory.old writer.old.text.items plan.now }
    ensures done { IfOk result (λ e. PutsOwn (λ p. effect p Except) memory.old writer.old.output (end_of e) memory.new writer.new.output) }
    ensures near { OnOk result (IsNear memory.new.world.paper.here) }
    ensures keeps { KeepsRoom memory.old memory.new writer.old writer.new }
{
    put_exceptions(
        memory,
        &mut writer.output,
        &mut writer.text,
        &mut writer.to_blank,
        plan,
    )
}
