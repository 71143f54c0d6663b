//! Writes one line.
ghost use Rattle.std.specs.Prelude.{IfOk};
ghost use Rattle.rpg_program.specs.Ends.{end_of};
ghost use Rattle.rpg_program.specs.Fronts.{OnlyGrows};
ghost use Rattle.rpg_machine_lines.specs.Outputs.{PutsOwn, line_effect, output_of};
ghost use Rattle.rpg_machine_lines.specs.Putting.{CanPutLine, StaysNear};
ghost use Rattle.rpg_program.specs.Object.{line_row};

use crate::assembly::assemble;
use crate::bytes::Output;
use crate::entries::Entries;
use crate::field::{blank_all, fill_blanks};
use crate::plan::LinePlan;
use crate::printer::put_on;
use crate::words::EditWords;
use rpg_memory::memory::Memory;
use rpg_program::outcome::End;
use rpg_program::rows::Line;
use rpg_store::store::Store;
use std::alloc::AllocError;

/// Writes a line: assembles it in `text`, places it, and then blanks its entries.
pub fn put_line<S: Store + Drop>(
    memory: &mut Memory<'_, S>,
    output: &mut Output,
    text: &mut [u8],
    to_blank: &mut Entries,
    line: &Line,
    plan: &LinePlan,
    words: &EditWords,
) -> Result<End, AllocError>
    requires { CanPutLine memory.old text.old line.now plan.now }
    ensures done { IfOk result (λ e. PutsOwn (λ p. line_effect p (line_row line.now)) memory.old output.old (end_of e) memory.new output.new) }
    ensures kept { StaysNear result memory.old memory.new }
    ensures grows { OnlyGrows (output_of output.old) (output_of output.new) }
{
    fill_blanks(text);
    to_blank.clear();
    match assemble(memory, text, to_blank, &line.fields, &plan.fields, words) {
        End::Continues => {}
        End::Halt(halt) => return Ok(End::Halt(halt)),
    }
    put_on(memory, output, line.file, line.spacing, text, plan.reach)?;
    blank_all(memory, to_blank.as_slice());
    Ok(End::Continues)
}
