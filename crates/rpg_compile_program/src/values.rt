//! Zeros and blanks.

ghost use Rattle.std.specs.Prelude.{◌≡◌, map, replicate, IfOk};
ghost use Rattle.rpg_program.specs.Values.{entries_held, held};
ghost use Rattle.rpg_compile_program.specs.Data.{first_of_kind};

use rpg_program::form::{FieldForm, Kind};
use rpg_program::value::{FieldValues, Value};
use std::alloc::{AllocError, Global};

/// Zeros or blanks, one for each entry of a field.
pub(crate) fn empty_values(alloc: Global, form: &FieldForm) -> Result<FieldValues, AllocError>
    ensures { IfOk result (λ v. entries_held v ≡ replicate form.now.entries (first_of_kind form.now.kind form.now.length)) }
{
    if form.entries == 1 {
        return Ok(FieldValues::One(empty_value(alloc, form)?));
    }
    Ok(FieldValues::Many(empty_entries(alloc, form)?))
}

fn empty_entries(alloc: Global, form: &FieldForm) -> Result<Vec<Value>, AllocError>
    ensures { IfOk result (λ v. map held v.items ≡ replicate form.now.entries (first_of_kind form.now.kind form.now.length)) }
{
    let mut values = Vec::with_capacity(alloc, form.entries as usize)?;
    for _ in 0..form.entries {
        values.push(empty_value(alloc, form)?)?;
    }
    Ok(values)
}

fn empty_value(alloc: Global, form: &FieldForm) -> Result<Value, AllocError>
    ensures { IfOk result (λ v. held v ≡ first_of_kind form.now.kind form.now.length) }
{
    match form.kind {
        Kind::Number => Ok(Value::Number(0)),
        Kind::Text => Ok(Value::Text(vec![in alloc; b' '; form.length as usize]?)),
    }
}
