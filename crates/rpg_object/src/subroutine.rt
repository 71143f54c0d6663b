//! Subroutines: each with its level and its instructions.

ghost use Rattle.std.specs.Prelude.{◌≡◌, ◌++◌, ◌≤◌, All, length, map, IfOk, OnOk};
ghost use Rattle.rpg_object_format.specs.Reading.{ReadsAs};
ghost use Rattle.rpg_program.specs.Kept.{IsSubroutineRow};
ghost use Rattle.rpg_program.specs.Object.{subroutine_row};
ghost use Rattle.rpg_program.specs.Sections.{instructions_in};
ghost use Rattle.rpg_object.specs.Subroutines as spec;

use rpg_object_format::fault::ReadFault;
use rpg_object_format::number::{any_number_at, count_at, put_numbers};
use rpg_object_rows::{instructions_at, put_instructions};
use rpg_program::rows::Subroutine;
use std::alloc::{AllocError, Global};

/// Reads a subroutine of at most `left` instructions.
#[tactic(auto, unfolding(rpg_object_format::specs::Format::two_bytes, rpg_object_format::specs::Format::pair, rpg_object_format::specs::Format::row, crate::specs::Subroutines::subroutine))]
fn subroutine_at(alloc: Global, left: u16, bytes: &[u8]) -> Result<(Subroutine, &[u8]), ReadFault>
    ensures read { ReadsAs (λ x. (subroutine_row x.0, x.1.now)) result ((spec.subroutine left).reading bytes.now) }
    ensures few { IfOk result (λ x. length x.0.instructions.items ≤ 65535) }
{
    let (level, rest) = any_number_at(bytes)?;
    let (count, rest) = count_at(rest, left)?;
    let (instructions, rest) = instructions_at(alloc, count, rest)?;
    Ok((
        Subroutine {
            level,
            instructions,
        },
        rest,
    ))
}

/// Reads `count` subroutines, which have at most `left` instructions together.
pub fn subroutines_at(
    alloc: Global,
    count: u16,
    left: u16,
    bytes: &[u8],
) -> Result<(Vec<Subroutine>, &[u8]), ReadFault>
    ensures { ReadsAs (λ x. (map subroutine_row x.0.items, x.1.now)) result ((spec.subroutines count left).reading bytes.now) }
{
    let mut subroutines = Vec::with_capacity(alloc, count as usize)?;
    let mut rest = bytes;
    let mut remaining = left;
    for _ in 0..count {
        let (subroutine, after) = subroutine_at(alloc, remaining, rest)?;
        remaining = remaining.saturating_sub(subroutine.instructions.len() as u16);
        subroutines.push(subroutine)?;
        rest = after;
    }
    Ok((subroutines, rest))
}

/// Writes a subroutine.
fn put_subroutine(out: &mut Vec<u8>, subroutine: &Subroutine) -> Result<(), AllocError>
    requires few { length subroutine.now.instructions.items ≤ 8192 }
    requires row { IsSubroutineRow (subroutine_row subroutine.now) }
    ensures { OnOk result (out.new.items ≡ out.old.items ++ (spec.subroutine 8192).spelling (subroutine_row subroutine.now)) }
{
    let count = subroutine.instructions.len() as u16;
    put_numbers(out, &[subroutine.level, count])?;
    put_instructions(out, &subroutine.instructions)?;
    Ok(())
}

/// Writes all subroutines.
pub fn put_subroutines(out: &mut Vec<u8>, list: &[Subroutine]) -> Result<(), AllocError>
    requires few { instructions_in (map subroutine_row list.now) ≤ 8192 }
    requires rows { All IsSubroutineRow (map subroutine_row list.now) }
    ensures { OnOk result (out.new.items ≡ out.old.items ++ (spec.subroutines (length list.now) 8192).spelling (map subroutine_row list.now)) }
{
    for subroutine in list {
        put_subroutine(out, subroutine)?;
    }
    Ok(())
}
