//! The instructions of a section.

ghost use Rattle.std.specs.Prelude.{◌≡◌, ◌+◌, ◌++◌, ◌<◌, length, OnOk};
ghost use Rattle.std.specs.Option.{ForSome};
ghost use Rattle.rpg_cards.specs.Calculations as calculations;
ghost use Rattle.rpg_compile_program.specs.Code as code_of;
ghost use Rattle.rpg_compile.specs.Marked.{IsMarked};
ghost use Rattle.rpg_compile.specs.Coding as coding;
ghost use Rattle.rpg_compile.specs.Steps as steps;
ghost use Rattle.rpg_compile.specs.Walk as walk;
ghost use Rattle.rpg_program.specs.Kept.{IsIndicator};

use crate::code::Code;
use crate::group::CardGroup;
use crate::instruction::Section;
use crate::part::{Part, next_in};
use crate::tests::{count_tests, push_tests};
use rpg_cards::{SpecCard, level};
use rpg_program::condition::{Condition, Conditions};
use rpg_program::operation::Instruction;
use rpg_sheet_specs::CalculationSpec;
use std::alloc::AllocError;

/// Appends the instructions of a section that begins at `first`.
pub(crate) fn push_section(
    code: &mut Code,
    section: &Section,
    part: Part,
    cards: &[SpecCard],
    first: u16,
) -> Result<(), AllocError>
    requires { first + code_of.sizes (walk.section_in part cards.now) < 65536 }
    ensures { OnOk result (code.new ≡ code.old ++ coding.code_in section.now first (walk.section_in part cards.now)) }
{
    let mut place = first;
    let mut rest = cards;
    while let Some((group, following)) = next_in(part, rest) {
        push_group(code, section, &group, place)?;
        place += group.size();
        rest = following;
    }
    Ok(())
}

fn push_group(
    code: &mut Code,
    section: &Section,
    group: &CardGroup,
    place: u16,
) -> Result<(), AllocError>
    requires { place + code_of.size (calculations.calculation_of group.now) < 65536 }
    ensures { OnOk result (code.new ≡ code.old ++ coding.calculation_code section.now place (calculations.calculation_of group.now)) }
{
    let Some(instruction) = section.instruction_of(group.last()) else {
        return Ok(());
    };
    push_cards(code, group.first(), group.cards(), place, instruction)
}

/// Appends the instructions of a group of cards, the last of which is `last`.
fn push_cards(
    code: &mut Code,
    first: &CalculationSpec,
    cards: &[SpecCard],
    place: u16,
    last: Instruction<u16>,
) -> Result<(), AllocError>
    requires some { 0 < length cards.now }
    requires places { place + walk.size_with first.now cards.now < 65536 }
    requires kept { IsMarked last }
    ensures { OnOk result (code.new ≡ code.old ++ steps.code_of_group place first.now cards.now last) }
{
    let level = level(first.control_level);
    let waits = if level.is_some() { 1 } else { 0 };
    let operation = place + waits + count_tests(cards);
    push_level(code, level, operation + 1)?;
    push_tests(code, cards, place + waits, operation, operation + 1)?;
    code.push(last)
}

/// Appends a SKIP past the group, if it waits for a level indicator.
fn push_level(code: &mut Code, level: Option<u8>, following: u16) -> Result<(), AllocError>
    requires { ForSome level IsIndicator }
    ensures { OnOk result (code.new ≡ code.old ++ code_of.level_code following level) }
{
    let Some(indicator) = level else {
        return Ok(());
    };
    code.push(Instruction::Branch {
        is_taken_where: false,
        conditions: Conditions {
            first: Some(Condition {
                indicator,
                is_negated: false,
            }),
            second: None,
            third: None,
        },
        target: following,
    })
}
