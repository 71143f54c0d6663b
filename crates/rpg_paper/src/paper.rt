//! Parts of the printer's bytes.

ghost use Rattle.std.specs.Prelude.{replicate};
ghost use Rattle.rpg_paper.specs.Form.{Adds};

use std::alloc::AllocError;

/// Appends `times` copies of a byte.
pub(crate) fn append_times(out: &mut Vec<u8>, byte: u8, times: u16) -> Result<(), AllocError>
    ensures { Adds result out.old.items out.new.items (replicate times byte) }
{
    if times == 1 {
        out.push(byte)?;
        return Ok(());
    }
    out.resize(out.len() + usize::from(times), byte)
}
