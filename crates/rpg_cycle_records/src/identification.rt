//! Which type a record is of.
ghost use Rattle.std.specs.Prelude.{◌≡◌, ◌+◌, ◌*◌, ◌≤◌, ◌<◌, All, length, map, slice_get};
ghost use Rattle.std.specs.List.{list_all};
ghost use Rattle.std.specs.Option.{ForSome};
ghost use Rattle.rpg_cycle_records.specs.Earlier.{file_of};
ghost use Rattle.rpg_cycle_records.specs.Fitting.{IsCodeIn, IsTypeOf};
ghost use Rattle.rpg_cycle_records.specs.Identifying as spec;
ghost use Rattle.rpg_cycle_records.specs.Trying.{trial_of};
ghost use Rattle.rpg_program.specs.Object.{input_length, type_row};

use crate::program::types_of;
use rpg_program::input::{InputFile, RecordCode};
use rpg_program::rows::RecordType;
use rpg_verify::Verified;

fn holds(text: &[u8], code: RecordCode) -> bool
    requires { IsCodeIn (length text.now) code }
    ensures { result ≡ spec.code_holds text.now code }
{
    let is_there = text[code.position as usize - 1] == code.character;
    if code.is_negated { !is_there } else { is_there }
}

/// Whether a record satisfies all codes.
fn all_hold(text: &[u8], codes: &[RecordCode]) -> bool
    requires { All (IsCodeIn (length text.now)) codes.now }
    ensures { result ≡ list_all (spec.code_holds text.now) codes.now }
{
    for code in codes {
        if !holds(text, *code) {
            return false;
        }
    }
    true
}

/// The result of trying types.
#[derive(Clone, Copy)]
pub struct Found {
    /// The first type whose codes all hold; rows are counted from 0.
    pub row: Option<usize>,
    /// The number of codes in all types that were tried, 20,000 at most.
    pub codes: u32,
}

fn is_same_file(file: InputFile, other: InputFile) -> bool
    ensures { result ≡ spec.same_file file other }
{
    file == other
}

/// Tries the types of a file in order on one of its records.
fn identify_as(types: &[RecordType], file: InputFile, text: &[u8]) -> Found
    requires types { All (IsTypeOf file (length text.now)) (map type_row types.now) }
    requires few { length types.now ≤ 200 }
    ensures row { trial_of result.row ≡ spec.identified file 0 (map type_row types.now) text.now }
    ensures there { ForSome result.row (λ t. t < length types.now) }
    ensures own { ForSome result.row (λ t. file_of (slice_get (map type_row types.now) t) ≡ file) }
    ensures codes { result.codes ≡ spec.trial_weight file (map type_row types.now) text.now }
    ensures few { result.codes ≤ 20000 }
{
    let mut tried = 0u32;
    for row in 0..types.len() {
        if !is_same_file(types[row].file, file) {
            continue;
        }
        let codes = types[row].codes.as_slice();
        tried += codes.len() as u32;
        if all_hold(text, codes) {
            return Found {
                row: Some(row),
                codes: tried,
            };
        }
    }
    Found {
        row: None,
        codes: tried,
    }
}

/// Tries the types of a file in order on one of its records, which is padded to its length.
pub fn identify(program: &Verified, file: InputFile, text: &[u8]) -> Found
    requires { length text.now ≡ input_length program.now file }
    ensures row { trial_of result.row ≡ spec.identified file 0 program.now.types text.now }
    ensures there { ForSome result.row (λ t. t < length program.now.types) }
    ensures own { ForSome result.row (λ t. file_of (slice_get program.now.types t) ≡ file) }
    ensures codes { result.codes ≡ spec.trial_weight file program.now.types text.now }
    ensures few { result.codes ≤ 20000 }
{
    identify_as(types_of(program), file, text)
}
