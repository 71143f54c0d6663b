//! Calls of subroutines by subroutines, and their levels.

ghost use Rattle.std.specs.Prelude.{◌≡◌, ◌++◌, ◌+◌, ◌<◌, ℕ, List, Option, length, IfOk, OnOk};
ghost use Rattle.rpg_cards.specs.Calculations.{calculations};
ghost use Rattle.rpg_cards.specs.Statements.{statement_of};
ghost use Rattle.rpg_cards.specs.Plain.{ArePlain};
ghost use Rattle.rpg_cards.specs.Sections.{callee, sections_of};
ghost use Rattle.rpg_compile.specs.Called as called;
ghost use Rattle.rpg_compile.specs.Numbers.{body_sizes, number_by};
ghost use Rattle.rpg_compile.specs.Walk.{section_in, subroutines_in};
ghost use Rattle.rpg_compile.specs.declared.part.Part.TheVariants as parts;

use crate::numbers::NameNumbers;
use crate::part::{Part, next_in, next_subroutine, wanted_name};
use rpg_cards::SpecCard;
use rpg_sheet_specs::{CalculationSpec, Operation};
use rpg_symbols::{LevelFault, subroutine_levels};
use std::alloc::{AllocError, Global};

/// Returns the level of each subroutine, which is above those of all subroutines that call it.
pub(crate) fn levels_of(
    alloc: Global,
    subroutines: &NameNumbers,
    cards: &[SpecCard],
) -> Result<Vec<u16>, AllocError>
    requires numbers { (n : Option (List ℕ)) → number_by subroutines.now n ≡ callee n (subroutines_in cards.now) }
    requires few { body_sizes (subroutines_in cards.now) < 65536 }
    requires plain { ArePlain (sections_of (calculations cards.now)) }
    ensures levels { IfOk result (λ levels. called.AreSubroutineLevels (subroutines_in cards.now) levels.items) }
    ensures each_has { IfOk result (λ levels. length levels.items ≡ length (subroutines_in cards.now)) }
{
    let (count, calls) = calls_of(alloc, subroutines, cards)?;
    match subroutine_levels(alloc, count, &calls) {
        Ok(levels) => Ok(levels),
        Err(LevelFault::Cycle { .. }) => unreachable!(),
        Err(LevelFault::NoMemory) => Err(AllocError),
    }
}

/// Returns the number of subroutines, and the calls in them, as caller and callee.
fn calls_of(
    alloc: Global,
    subroutines: &NameNumbers,
    cards: &[SpecCard],
) -> Result<(u16, Vec<(u16, u16)>), AllocError>
    requires { length (subroutines_in cards.now) < 65536 }
    ensures count { IfOk result (λ r. r.0 ≡ length (subroutines_in cards.now)) }
    ensures calls { IfOk result (λ r. r.1.items ≡ called.numbered_calls_from (number_by subroutines.now) 0 (subroutines_in cards.now)) }
{
    let mut calls = Vec::new(alloc);
    let mut caller = 0;
    let mut rest = cards;
    while let Some((_, following)) = next_subroutine(rest) {
        push_calls(&mut calls, subroutines, caller, following)?;
        caller += 1;
        rest = following;
    }
    Ok((caller, calls))
}

/// Appends the calls in a subroutine.
fn push_calls(
    calls: &mut Vec<(u16, u16)>,
    subroutines: &NameNumbers,
    caller: u16,
    cards: &[SpecCard],
) -> Result<(), AllocError>
    ensures { OnOk result (calls.new.items ≡ calls.old.items ++ called.numbered_calls_in (number_by subroutines.now) caller (section_in parts.Body cards.now)) }
{
    let mut rest = cards;
    while let Some((group, following)) = next_in(Part::Body, rest) {
        if let Some(callee) = callee_of(subroutines, group.last()) {
            calls.push((caller, callee))?;
        }
        rest = following;
    }
    Ok(())
}

/// Returns the subroutine that an EXSR calls.
fn callee_of(subroutines: &NameNumbers, calculation: &CalculationSpec) -> Option<u16>
    ensures { result ≡ called.callee_in (number_by subroutines.now) (statement_of calculation.now) }
{
    match calculation.operation? {
        Operation::Call => Some(subroutines.number_of(wanted_name(calculation))),
        _ => None,
    }
}
