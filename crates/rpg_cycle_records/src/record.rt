//! The text of a record.
ghost use Rattle.std.specs.Prelude.{◌≡◌, ◌-◌, ◌≤◌, ◌++◌, IfOk, length, replicate, true};
ghost use Rattle.rpg_cycle_records.specs.Identifying as spec;
ghost use Rattle.rpg_program.specs.Object.{input_length as length_of};

use crate::program::input_length;
use rpg_program::input::InputFile;
use rpg_text::has_only_characters;
use rpg_verify::Verified;
use std::alloc::AllocError;

/// Whether a program accepts the record from a file: only characters, 0x20 to 0x7E, and no longer than the file's records. It may
/// be empty.
pub fn is_valid(program: &Verified, file: InputFile, text: &[u8]) -> bool
    ensures { result ≡ spec.is_valid_record program.now file text.now }
{
    text.len() <= input_length(program, file) && has_only_characters(text)
}

/// Replaces a record by this one, padded with blanks to the length of the file's records. Allocates only if the buffer is too
/// small; after an error the record is unusable.
#[inline(always)]
pub fn fill(
    room: &mut Vec<u8>,
    program: &Verified,
    file: InputFile,
    text: &[u8],
) -> Result<(), AllocError>
    requires { spec.is_valid_record program.now file text.now ≡ true }
    ensures filled { IfOk result (λ _. room.new.items ≡ spec.padded program.now file text.now) }
    ensures whole { IfOk result (λ _. length room.new.items ≡ length_of program.now file) }
{
    let length = input_length(program, file);
    if room.len() != length {
        room.clear();
        room.resize(length, b' ')?;
    }
    lay(room, text);
    Ok(())
}

/// Copies a text over a record, with blanks after it.
#[inline(always)]
fn lay(room: &mut [u8], text: &[u8])
    requires { length text.now ≤ length room.old }
    ensures { room.new ≡ text.now ++ replicate (length room.old - length text.now) 32 }
{
    let (front, rest) = room.split_at_mut(text.len());
    front.copy_from_slice(text);
    if !rest.is_empty() {
        rest.fill(b' ');
    }
}
