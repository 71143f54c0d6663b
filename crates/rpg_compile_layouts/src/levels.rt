//! The control fields and the match fields of record types.

ghost use Rattle.std.specs.Prelude.{◌≡◌, ◌++◌, All, IfOk, IfSome, OnOk};
ghost use Rattle.std.specs.Option.{option_to_list};
ghost use Rattle.rpg_cards.specs.Levels.{control_level, match_level};
ghost use Rattle.rpg_compile_layouts.specs.Parts.{levels_after};
ghost use Rattle.rpg_program.specs.Kept.{IsControlRow};
ghost use Rattle.rpg_compile_program.specs.Types as types;

use rpg_cards::SpecCard;
use rpg_program::input::ControlField;
use rpg_sheet_specs::{InputFieldSpec, InputSpec, Within};
use std::alloc::{AllocError, Global};

/// Returns a control field for each field card with a control level, and a match field for each with a match level, up to the next type
/// card. `count` is how many field cards there are.
#[tactic(auto, using(crate::proofs::Followers::next_input))]
pub(crate) fn levels_of(
    alloc: Global,
    count: usize,
    following: &[SpecCard],
) -> Result<(Vec<ControlField>, Vec<ControlField>), AllocError>
    ensures levels { IfOk result (λ r. r.0.items ≡ levels_after control_level following.now) }
    ensures matches { IfOk result (λ r. r.1.items ≡ levels_after match_level following.now) }
    ensures levels_kept { IfOk result (λ r. All IsControlRow r.0.items) }
    ensures matches_kept { IfOk result (λ r. All IsControlRow r.1.items) }
{
    let mut levels = Vec::new(alloc);
    let mut matches = Vec::new(alloc);
    for card in following {
        let field = match card.input() {
            Some(InputSpec::Type(_)) => return Ok((levels, matches)),
            Some(InputSpec::Field(field)) => field,
            Some(InputSpec::And(_)) | None => continue,
        };
        push_level(&mut levels, count, level_of(field))?;
        push_level(&mut matches, count, match_of(field))?;
    }
    Ok((levels, matches))
}

/// Appends the level of a field, if it has one. Before the first it makes room for `count`.
fn push_level(
    levels: &mut Vec<ControlField>,
    count: usize,
    level: Option<ControlField>,
) -> Result<(), AllocError>
    requires rows { All IsControlRow levels.old.items }
    requires row { IfSome level IsControlRow }
    ensures levels { OnOk result (levels.new.items ≡ levels.old.items ++ option_to_list level) }
    ensures kept { OnOk result (All IsControlRow levels.new.items) }
{
    if let Some(level) = level {
        if levels.is_empty() {
            levels.reserve(count)?;
        }
        levels.push(level)?;
    }
    Ok(())
}

fn level_of(field: &InputFieldSpec) -> Option<ControlField>
    ensures value { result ≡ types.control_field_of field.now }
    ensures kept { IfSome result IsControlRow }
{
    let level = field.level?;
    Some(field_at(level, field.decimals.is_some(), field.from, field.to))
}

fn match_of(field: &InputFieldSpec) -> Option<ControlField>
    ensures value { result ≡ types.match_field_of field.now }
    ensures kept { IfSome result IsControlRow }
{
    let level = field.match_level?;
    Some(field_at(level, field.decimals.is_some(), field.from, field.to))
}

fn field_at(level: Within<1, 9>, is_numeric: bool, from: u16, to: u16) -> ControlField
    ensures value { result ≡ record { level = level; is_numeric = is_numeric; from = from; to = to } }
    ensures kept { IsControlRow result }
{
    ControlField {
        level: level.number(),
        is_numeric,
        from,
        to,
    }
}
