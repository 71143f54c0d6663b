//! The conditions of lines.

ghost use Rattle.std.specs.Prelude.{◌≡◌, ◌++◌, All, map, IfOk, OnOk};
ghost use Rattle.std.specs.Option.{option_map, option_to_list};
ghost use Rattle.rpg_cards.specs.Calculations as calculations;
ghost use Rattle.rpg_compile_layouts.specs.Rows.{alternatives_after};
ghost use Rattle.rpg_program.specs.Kept.{IsConditionRow};

use rpg_cards::{SpecCard, condition_of};
use rpg_program::condition::Condition;
use rpg_sheet_specs::{OutputSpec, Three};
use std::alloc::{AllocError, Global};

/// Returns the conditions of the record card and of the AND cards after it, then those of each OR card, up to the next record card.
pub(crate) fn alternatives_of(
    alloc: Global,
    first: Three<Option<rpg_sheet_specs::ConditionSpec>>,
    following: &[SpecCard],
) -> Result<Vec<Vec<Condition>>, AllocError>
    ensures alternatives { IfOk result (λ v. map (λ a. a.items) v.items ≡ alternatives_after (calculations.standing first) following.now) }
    ensures kept { IfOk result (λ v. All (λ a. All IsConditionRow a.items) v.items) }
{
    let open = standing(alloc, first)?;
    alternatives_from(alloc, open, following)
}

/// Returns the alternatives from the one on that has these conditions so far.
#[tactic(auto, using(crate::proofs::LineFollowers::next_output))]
fn alternatives_from(
    alloc: Global,
    so_far: Vec<Condition>,
    following: &[SpecCard],
) -> Result<Vec<Vec<Condition>>, AllocError>
    requires { All IsConditionRow so_far.items }
    ensures alternatives { IfOk result (λ v. map (λ a. a.items) v.items ≡ alternatives_after so_far.items following.now) }
    ensures kept { IfOk result (λ v. All (λ a. All IsConditionRow a.items) v.items) }
{
    let mut alternatives = Vec::new(alloc);
    let mut open = so_far;
    for card in following {
        match card.output() {
            Some(OutputSpec::Record(_)) => break,
            Some(OutputSpec::And(more)) => push_conditions(&mut open, *more)?,
            Some(OutputSpec::Or(others)) => {
                alternatives.push(open)?;
                open = standing(alloc, *others)?;
            }
            Some(OutputSpec::Field(_)) => {}
            None => {}
        }
    }
    alternatives.push(open)?;
    Ok(alternatives)
}

/// Returns the conditions that are there, in the order of their columns.
fn standing(
    alloc: Global,
    conditions: Three<Option<rpg_sheet_specs::ConditionSpec>>,
) -> Result<Vec<Condition>, AllocError>
    ensures value { IfOk result (λ v. v.items ≡ calculations.standing conditions) }
    ensures kept { IfOk result (λ v. All IsConditionRow v.items) }
{
    let mut standing = Vec::new(alloc);
    push_conditions(&mut standing, conditions)?;
    Ok(standing)
}

/// Appends the conditions that are there.
fn push_conditions(
    conditions: &mut Vec<Condition>,
    more: Three<Option<rpg_sheet_specs::ConditionSpec>>,
) -> Result<(), AllocError>
    requires { All IsConditionRow conditions.old.items }
    ensures value { OnOk result (conditions.new.items ≡ conditions.old.items ++ calculations.standing more) }
    ensures kept { OnOk result (All IsConditionRow conditions.new.items) }
{
    push_condition(conditions, more.first)?;
    push_condition(conditions, more.second)?;
    push_condition(conditions, more.third)
}

fn push_condition(
    conditions: &mut Vec<Condition>,
    condition: Option<rpg_sheet_specs::ConditionSpec>,
) -> Result<(), AllocError>
    requires { All IsConditionRow conditions.old.items }
    ensures value { OnOk result (conditions.new.items ≡ conditions.old.items ++ option_to_list (option_map calculations.condition_of condition)) }
    ensures kept { OnOk result (All IsConditionRow conditions.new.items) }
{
    if let Some(condition) = condition {
        conditions.push(condition_of(condition))?;
    }
    Ok(())
}
