//! Decodes an object program from bytes.

ghost use Rattle.std.specs.Prelude.{◌≡◌, IfOk, Some};
ghost use Rattle.rpg_object_format.specs.Format.{fault_at};
ghost use Rattle.rpg_object_format.specs.Reading.{ReadsAs};
ghost use Rattle.rpg_program.specs.Kept.{IsProgram};
ghost use Rattle.rpg_program.specs.Object.{Object, seen};
ghost use Rattle.rpg_object.specs.Decoding.{fault_text, FaultIs, IsOkBarMemory};
ghost use Rattle.rpg_object.specs.Program.{body, first_fault, reading, spelling};

use crate::field::fields_at;
use crate::first_value::values_at;
use crate::header::{INSTRUCTIONS, header_at};
use crate::subroutine::subroutines_at;
use rpg_object_format::fault::{Code, ReadFault};
use rpg_object_format::number::fault_at;
use rpg_object_rows::{instructions_at, lines_at, record_types_at};
use rpg_program::Program;
use rpg_program::rows::{Overflow, Rows};
use std::alloc::Global;
use std::error::Error;
use std::fmt;

/// Why bytes can't be decoded.
#[derive(Clone, Copy, Debug, PartialEq, Eq)]
pub enum DecodeFault {
    /// The first number that breaks its rule: the offset of its first byte, counted from 0, and how it breaks it. The offset of a number
    /// that is cut short is the end of the bytes.
    Object { offset: usize, code: Code },
    NoMemory,
}

impl fmt::Display for DecodeFault {
    ghost output = { λ fault. Some (fault_text fault) };

    fn fmt<W: fmt::Write>(&self, f: &mut fmt::Formatter<W>) -> fmt::Result {
        match self {
            DecodeFault::Object { offset, code } => write!(f, "{code} at {offset}"),
            DecodeFault::NoMemory => write!(f, "out of memory"),
        }
    }
}

impl Error for DecodeFault {}

/// Reads the rows after the name.
#[tactic(auto, unfolding(rpg_object_format::specs::Format::pair, rpg_object_format::specs::Format::row, crate::specs::Program::tables, crate::specs::Program::body))]
fn body_at(alloc: Global, bytes: &[u8]) -> Result<(Rows, &[u8]), ReadFault>
    ensures { ReadsAs (λ x. (seen x.0, x.1.now)) result (body.reading bytes.now) }
{
    let (header, rest) = header_at(bytes)?;
    let settings = header.settings;
    let counts = header.counts;
    let left = INSTRUCTIONS
        .saturating_sub(counts.detail)
        .saturating_sub(counts.total);
    let (fields, rest) = fields_at(alloc, counts.fields, rest)?;
    let (values, rest) = values_at(alloc, &fields, rest)?;
    let (types, rest) = record_types_at(alloc, header.version, counts.types, rest)?;
    let (lines, rest) = lines_at(alloc, counts.lines, rest)?;
    let (detail, rest) = instructions_at(alloc, counts.detail, rest)?;
    let (total, rest) = instructions_at(alloc, counts.total, rest)?;
    let (subroutines, rest) = subroutines_at(alloc, counts.subroutines, left, rest)?;
    Ok((
        Rows {
            version: header.version,
            allowance: settings.allowance,
            record_length: settings.record_length,
            secondary_length: header.secondary_length,
            printer_length: settings.printer_length,
            disk_length: settings.disk_length,
            overflow: Overflow {
                indicator: settings.overflow,
                page: header.page,
            },
            ends: header.ends,
            fields,
            values,
            types,
            lines,
            detail,
            total,
            subroutines,
        },
        rest,
    ))
}

/// Reads rows from all of the bytes.
#[tactic(auto, unfolding(crate::specs::Program::reading))]
fn rows_of(alloc: Global, bytes: &[u8]) -> Result<Rows, ReadFault>
    ensures { ReadsAs seen result (reading bytes.now) }
{
    if !bytes.starts_with(b"RPGOBJ") {
        return Err(fault_at(bytes, Code::NoObject));
    }
    let (rows, rest) = body_at(alloc, &bytes[6..])?;
    if !rest.is_empty() {
        return Err(fault_at(rest, Code::LeftOver));
    }
    Ok(rows)
}

/// Decodes a program from all of the bytes.
pub fn decode(alloc: Global, bytes: &[u8]) -> Result<Program, DecodeFault>
    // What is decoded is a program, and the bytes are its spelling.
    ensures found { IfOk result (λ p. IsProgram p × (bytes.now ≡ spelling p)) }
    // What a program spells is decoded to it, unless memory runs out.
    ensures only { (p : Object) → IsProgram p → bytes.now ≡ spelling p → IsOkBarMemory result (λ q. q ≡ p) }
    // Other bytes have the first fault, unless memory runs out.
    ensures fault { FaultIs result (first_fault bytes.now) }
{
    match rows_of(alloc, bytes) {
        Ok(rows) => Ok(Program::build(rows)),
        Err(ReadFault::NoMemory) => Err(DecodeFault::NoMemory),
        Err(ReadFault::At(fault)) => Err(DecodeFault::Object {
            offset: bytes.len() - fault.left,
            code: fault.code,
        }),
    }
}
