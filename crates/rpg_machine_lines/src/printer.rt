//! Lines on the printer's form, and records on the disk.
ghost use Rattle.std.specs.Prelude.{◌≡◌, ◌≤◌, ◌+◌, ◌++◌, ◌∷◌, [], take, vec_len, OnErr, OnOk};
ghost use Rattle.rpg_program.specs.Ends.{Continues};
ghost use Rattle.rpg_program.specs.Fronts.{OnlyGrows};
ghost use Rattle.rpg_program.specs.Lines.{put_on};
ghost use Rattle.rpg_machine_lines.specs.Outputs.{Puts, form_moved, output_of};
ghost use Rattle.rpg_machine_lines.specs.Putting.{CanPlace, PlacesNear};
ghost use Rattle.rpg_machine_lines.specs.Ready.{IsNear};

use crate::bytes::Output;
use rpg_memory::memory::Memory;
use rpg_program::line::{File, Spacing};
use rpg_store::store::Store;
use std::alloc::AllocError;

/// Moves the form: a skip, then a space.
#[tactic(auto, using(crate::proofs::Moving::moving), unfolding(rpg_program::specs::Lines::after_movement))]
fn move_form<S: Store + Drop>(memory: &mut Memory<'_, S>, line: u8, spaces: u8)
    requires line { line ≤ 112 }
    requires spaces { spaces ≤ 3 }
    requires near { IsNear memory.old.world.paper.here }
    ensures moved { memory.new ≡ form_moved line spaces memory.old }
    ensures few { memory.new.world.paper.here.page ≤ memory.old.world.paper.here.page + 2 }
{
    memory.skip(line);
    memory.space(spaces);
}

/// Moves the form, places the line without the blanks after `reach`, and moves the form.
#[tactic(auto, using(crate::proofs::Moving::moving), unfolding(rpg_program::specs::Lines::after_movement))]
fn print_line<S: Store + Drop>(
    memory: &mut Memory<'_, S>,
    output: &mut Output,
    spacing: Spacing,
    text: &[u8],
    reach: u16,
) -> Result<(), AllocError>
    requires { CanPlace memory.old spacing text.now reach }
    ensures done { OnOk result (Puts (put_on memory.old.program.overflow File.Printer spacing text.now) memory.old output.old Continues memory.new output.new) }
    ensures kept { PlacesNear result memory.old memory.new (output_of output.old) (output_of output.new) }
{
    move_form(memory, spacing.skip_before, spacing.space_before);
    memory.place(&text[..reach as usize], &mut output.print)?;
    move_form(memory, spacing.skip_after, spacing.space_after);
    Ok(())
}

fn append_record(disk: &mut Vec<u8>, text: &[u8]) -> Result<(), AllocError>
    ensures items { OnOk result (disk.new.items ≡ (disk.old.items ++ text.now) ++ 10 ∷ []) }
    ensures front { OnErr result (take (vec_len disk.old) disk.new.items ≡ disk.old.items) }
{
    disk.extend_from_slice(text)?;
    disk.push(b'\n')?;
    Ok(())
}

/// Writes a record to the disk, followed by a line feed.
#[tactic(auto, using(rpg_program::proofs::Printing::record_done))]
fn write_record<S: Store + Drop>(
    memory: &Memory<'_, S>,
    output: &mut Output,
    spacing: Spacing,
    text: &[u8],
) -> Result<(), AllocError>
    ensures done { OnOk result (Puts (put_on memory.now.program.overflow File.Disk spacing text.now) memory.now output.old Continues memory.now output.new) }
    ensures grows { OnlyGrows (output_of output.old) (output_of output.new) }
{
    append_record(&mut output.disk, text)?;
    Ok(())
}

/// Writes a line to its file. Trailing blanks aren't sent to the printer.
pub fn put_on<S: Store + Drop>(
    memory: &mut Memory<'_, S>,
    output: &mut Output,
    file: File,
    spacing: Spacing,
    text: &[u8],
    reach: u16,
) -> Result<(), AllocError>
    requires { CanPlace memory.old spacing text.now reach }
    ensures done { OnOk result (Puts (put_on memory.old.program.overflow file spacing text.now) memory.old output.old Continues memory.new output.new) }
    ensures kept { PlacesNear result memory.old memory.new (output_of output.old) (output_of output.new) }
{
    match file {
        File::Printer => print_line(memory, output, spacing, text, reach),
        File::Disk => write_record(memory, output, spacing, text),
    }
}
