//! What is read from a program: its record types.
ghost use Rattle.std.specs.Prelude.{◌≡◌, ◌≤◌, ◌<◌, All, Some, length, map, slice_get};
ghost use Rattle.rpg_cycle_records.specs.Earlier as earlier;
ghost use Rattle.rpg_cycle_records.specs.Fitting.{IsControlIn, IsTypeFit};
ghost use Rattle.rpg_program.specs.Kept.{IsProgram};
ghost use Rattle.rpg_program.specs.Object.{input_length as length_of, seen, type_row};

use rpg_program::input::{ControlField, InputFile};
use rpg_program::rows::{RecordType, Rows};
use rpg_verify::Verified;

/// The rows of a program.
pub fn rows_of(program: &Verified) -> &Rows
    ensures same { seen result.now ≡ program.now }
    ensures kept { IsProgram program.now }
{
    program.program().rows()
}

/// What the rules and the format imply for record types: their columns are those of their file's records, and there are few.
#[tactic(auto, using(crate::proofs::Fitting::types_fit))]
fn types_fit(program: &Verified)
    ensures fit { All (IsTypeFit program.now) program.now.types }
    ensures few { length program.now.types ≤ 200 }
{
    program.is_sound();
    let _program = program.program();
}

/// The record types of a program, 200 at most.
pub fn types_of(program: &Verified) -> &[RecordType]
    ensures same { map type_row result.now ≡ program.now.types }
    ensures fit { All (IsTypeFit program.now) (map type_row result.now) }
    ensures few { length result.now ≤ 200 }
{
    types_fit(program);
    rows_of(program).types.as_slice()
}

/// A record type; the first row is 0.
pub fn type_at(program: &Verified, row: usize) -> &RecordType
    requires { row < length program.now.types }
    ensures same { slice_get program.now.types row ≡ Some (type_row result.now) }
    ensures fits { IsTypeFit program.now (type_row result.now) }
{
    &types_of(program)[row]
}

/// The control fields of a type, 100 at most; the first row is 0.
pub fn control_fields(program: &Verified, row: usize) -> &[ControlField]
    requires { row < length program.now.types }
    ensures value { result.now ≡ earlier.control_fields program.now row }
    ensures inside { All (IsControlIn (length_of program.now (earlier.file_of (slice_get program.now.types row)))) result.now }
    ensures few { length result.now ≤ 100 }
{
    type_at(program, row).levels.as_slice()
}

/// The match fields of a type, 9 at most; the first row is 0.
pub fn match_fields(program: &Verified, row: usize) -> &[ControlField]
    requires { row < length program.now.types }
    ensures value { result.now ≡ earlier.match_fields program.now row }
    ensures inside { All (IsControlIn (length_of program.now (earlier.file_of (slice_get program.now.types row)))) result.now }
    ensures few { length result.now ≤ 9 }
{
    type_at(program, row).matches.as_slice()
}

/// The file of a type; the first row is 0.
pub fn file_of(program: &Verified, row: usize) -> InputFile
    requires { row < length program.now.types }
    ensures { result ≡ earlier.file_of (slice_get program.now.types row) }
{
    type_at(program, row).file
}

/// Returns the length of a file's records, 0 if there is no such file.
pub fn input_length(program: &Verified, file: InputFile) -> usize
    ensures { result ≡ length_of program.now file }
{
    usize::from(rows_of(program).input_length(file))
}
