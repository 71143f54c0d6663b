//! Encodes an object program as bytes.

ghost use Rattle.std.specs.Prelude.{◌≡◌, ◌++◌, IfOk, OnOk};
ghost use Rattle.rpg_program.specs.Kept.{IsProgram};
ghost use Rattle.rpg_program.specs.Object.{seen};
ghost use Rattle.rpg_object.specs.Program.{body, spelling};
ghost use Rattle.rpg_object.specs.Program as spec;

use crate::field::put_fields;
use crate::first_value::put_values;
use crate::header::{Counts, Header, Settings, put_header};
use crate::subroutine::put_subroutines;
use rpg_object_rows::{put_instructions, put_lines, put_record_types};
use rpg_program::Program;
use rpg_program::rows::Rows;
use std::alloc::{AllocError, Global};

fn settings_of(rows: &Rows) -> Settings
    ensures { result ≡ spec.settings_of (seen rows.now) }
{
    Settings {
        allowance: rows.allowance,
        record_length: rows.record_length,
        printer_length: rows.printer_length,
        disk_length: rows.disk_length,
        overflow: rows.overflow.indicator,
    }
}

fn counts_of(rows: &Rows) -> Counts
    requires { IsProgram (seen rows.now) }
    ensures { result ≡ spec.counts_of (seen rows.now) }
{
    Counts {
        fields: rows.fields.len() as u16,
        types: rows.types.len() as u16,
        lines: rows.lines.len() as u16,
        detail: rows.detail.len() as u16,
        total: rows.total.len() as u16,
        subroutines: rows.subroutines.len() as u16,
    }
}

/// Writes the header and the tables of a program.
fn put_body(out: &mut Vec<u8>, rows: &Rows) -> Result<(), AllocError>
    requires { IsProgram (seen rows.now) }
    ensures { OnOk result (out.new.items ≡ out.old.items ++ body.spelling (seen rows.now)) }
{
    let header = Header {
        version: rows.version,
        settings: settings_of(rows),
        counts: counts_of(rows),
        secondary_length: rows.secondary_length,
        page: rows.overflow.page,
        ends: rows.ends,
    };
    put_header(out, header)?;
    put_fields(out, &rows.fields)?;
    put_values(out, &rows.fields, &rows.values)?;
    put_record_types(out, rows.version, &rows.types)?;
    put_lines(out, &rows.lines)?;
    put_instructions(out, &rows.detail)?;
    put_instructions(out, &rows.total)?;
    put_subroutines(out, &rows.subroutines)?;
    Ok(())
}

/// Returns for how many bytes to make room: those of fields and instructions, with 8 for the values of a field. More bytes are made room
/// for as they are written.
fn room_for(rows: &Rows) -> usize {
    let instructions = rows.detail.len().saturating_add(rows.total.len());
    let fields = rows.fields.len().saturating_mul(16);
    instructions
        .saturating_mul(20)
        .saturating_add(fields)
        .saturating_add(1_024)
}

/// Encodes a program. Each program has exactly one encoding.
pub fn encode(alloc: Global, program: &Program) -> Result<Vec<u8>, AllocError>
    ensures { IfOk result (λ v. v.items ≡ spelling program.now) }
{
    let rows = program.rows();
    let mut out = Vec::with_capacity(alloc, room_for(rows))?;
    out.extend_from_slice(b"RPGOBJ")?;
    put_body(&mut out, rows)?;
    Ok(out)
}
