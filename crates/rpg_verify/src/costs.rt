//! The cost of each place: the greatest sum of weights along a forward path from it.

ghost use Rattle.std.specs.Prelude.{◌≡◌, ℕ, ◌+◌, ◌≤◌, length, drop, All, IfOk, slice_index};
ghost use Rattle.rpg_program.specs.Control as control;
ghost use Rattle.rpg_program.specs.Forms.{form_at};
ghost use Rattle.rpg_program.specs.Weights.{instruction_weight};
ghost use Rattle.rpg_program.specs.Kept.{IsFieldRow};
ghost use Rattle.rpg_verify.specs.Paths as paths;

use crate::weights::weight_of;
use rpg_program::condition::{Conditions, has_conditions};
use rpg_program::operation::Instruction;
use rpg_program::rows::Rows;
use std::alloc::{AllocError, Global};

/// Whether it is a JUMP without conditions.
fn always_goes(is_taken_where: bool, conditions: Conditions) -> bool
    ensures { result ≡ control.always_goes is_taken_where conditions }
{
    is_taken_where && !has_conditions(conditions)
}

/// Returns the cost at an index, 0 after the end.
pub(crate) fn cost_in(costs: &[u64], k: usize) -> u64
    ensures { result ≡ slice_index costs.now k }
{
    match costs.get(k) {
        None => 0,
        Some(cost) => *cost,
    }
}

/// Returns the cost of a later place, given the costs after `place`; 0 if it isn't later.
fn cost_ahead(place: usize, following: &[u64], next: usize) -> u64
    requires { place ≤ 8192 }
    ensures { result ≡ paths.cost_ahead place following.now next }
{
    if place < next {
        cost_in(following, next - (place + 1))
    } else {
        0
    }
}

/// Returns the cost of the next place, if control can fall through a branch.
fn cost_passed(always: bool, following: &[u64]) -> u64
    ensures { result ≡ paths.cost_passed always following.now }
{
    if always { 0 } else { cost_in(following, 0) }
}

/// Returns the greatest cost of what can come right after a place.
fn cost_onward(place: usize, instruction: Instruction<u16>, following: &[u64]) -> u64
    requires { place ≤ 8192 }
    ensures { result ≡ paths.cost_onward place instruction following.now }
{
    match instruction {
        Instruction::Branch {
            is_taken_where,
            conditions,
            target,
        } => cost_ahead(place, following, usize::from(target)).max(cost_passed(
            always_goes(is_taken_where, conditions),
            following,
        )),
        Instruction::Act(_) | Instruction::Except | Instruction::Call { .. } => cost_in(
            following, 0,
        ),
        Instruction::Return { .. } => 0,
    }
}

/// Returns the cost of a place, given those after it.
#[tactic(auto, using(crate::proofs::Sizes::onward_under))]
fn cost_at(
    rows: &Rows,
    exceptions: u64,
    place: usize,
    instruction: Instruction<u16>,
    following: &[u64],
) -> u64
    requires exceptions { exceptions ≤ 201000 }
    requires place { place ≤ 8192 }
    requires under { (k : ℕ) → slice_index following.now k ≤ 1728512000 }
    ensures { result ≡ instruction_weight (form_at rows.now.fields.items) exceptions instruction + paths.cost_onward place instruction following.now }
{
    weight_of(rows, exceptions, instruction) + cost_onward(place, instruction, following)
}

fn following(costs: &[u64], n: usize) -> &[u64]
    requires { n ≤ length costs.now }
    ensures { result.now ≡ drop n costs.now }
{
    &costs[n..]
}

/// Returns the costs of the places of a section that begins at `first`, computed from the last place down.
pub(crate) fn costs_of(
    alloc: Global,
    rows: &Rows,
    exceptions: u64,
    first: usize,
    code: &[Instruction<u16>],
) -> Result<Vec<u64>, AllocError>
    requires exceptions { exceptions ≤ 201000 }
    requires fields { All IsFieldRow rows.now.fields.items }
    requires few { first + length code.now ≤ 8192 }
    ensures { IfOk result (λ v. v.items ≡ paths.costs_from (instruction_weight (form_at rows.now.fields.items) exceptions) first code.now) }
{
    let mut costs = vec![in alloc; 0; code.len()]?;
    let mut i = code.len();
    while i > 0 {
        let cost = cost_at(
            rows,
            exceptions,
            first + (i - 1),
            code[i - 1],
            following(&costs, i),
        );
        i -= 1;
        costs[i] = cost;
    }
    Ok(costs)
}
