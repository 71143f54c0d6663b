//! The most steps that a cycle can take.

ghost use Rattle.std.specs.Prelude.{◌≡◌, ◌+◌, ◌++◌, ◌≤◌, length, max, IfOk, OnOk};
ghost use Rattle.rpg_program.specs.Weights.{exceptions_weight, overflow_weight};
ghost use Rattle.rpg_program.specs.Kept.{IsProgram};
ghost use Rattle.rpg_program.specs.Object.{lines_of, seen};
ghost use Rattle.rpg_verify.specs.Bound as words;

use crate::costs::{cost_in, costs_of};
use crate::weights::{LineWeights, line_weights, output_weight, types_weight};
use rpg_program::operation::Instruction;
use rpg_program::rows::Rows;
use std::alloc::{AllocError, Global};

/// The costs of consecutive places.
#[derive(Drop)]
struct Costs {
    places: Vec<u64>,
    /// The greatest cost that a spend leads to.
    most: u64,
    /// The cost that a cycle pays once: that of the first places.
    once: u64,
}

/// The cost of a place of a section that begins at `first`; 0 at its end and for any other.
fn cost_of(first: usize, costs: &[u64], place: usize) -> u64
    ensures { result ≡ words.cost_in first costs.now place }
{
    if first <= place {
        cost_in(costs, place - first)
    } else {
        0
    }
}

/// The cost of a branch's target if it isn't later than the branch, which then spends.
fn back_cost(first: usize, costs: &[u64], place: usize, instruction: Instruction<u16>) -> u64
    ensures { result ≡ words.back_cost first costs.now place instruction }
{
    match instruction {
        Instruction::Branch { target, .. } => {
            let target = usize::from(target);
            if target <= place {
                cost_of(first, costs, target)
            } else {
                0
            }
        }
        Instruction::Act(_) => 0,
        Instruction::Except => 0,
        Instruction::Call { .. } => 0,
        Instruction::Return { .. } => 0,
    }
}

fn most_back(first: usize, costs: &[u64], code: &[Instruction<u16>]) -> u64
    requires { first + length code.now ≤ 8192 }
    ensures { result ≡ words.most_back first costs.now first code.now }
{
    let mut most = 0;
    let mut i = code.len();
    while i > 0 {
        let cost = back_cost(first, costs, first + (i - 1), code[i - 1]);
        i -= 1;
        most = cost.max(most);
    }
    most
}

/// The costs of the places of a section that begins at `first`.
fn costs_at(
    alloc: Global,
    rows: &Rows,
    exceptions: u64,
    first: usize,
    code: &[Instruction<u16>],
) -> Result<Vec<u64>, AllocError>
    requires program { IsProgram (seen rows.now) }
    requires exceptions { exceptions ≡ exceptions_weight (lines_of (seen rows.now)) }
    requires few_exceptions { exceptions ≤ 201000 }
    requires few { first + length code.now ≤ 8192 }
    ensures { IfOk result (λ v. v.items ≡ words.costs_at (seen rows.now) first code.now) }
{
    let costs = costs_of(alloc, rows, exceptions, first, code)?;
    Ok(costs)
}

/// The costs of detail or total calculations.
fn section_costs(
    alloc: Global,
    rows: &Rows,
    exceptions: u64,
    first: usize,
    code: &[Instruction<u16>],
) -> Result<Costs, AllocError>
    requires program { IsProgram (seen rows.now) }
    requires exceptions { exceptions ≡ exceptions_weight (lines_of (seen rows.now)) }
    requires few_exceptions { exceptions ≤ 201000 }
    requires few { first + length code.now ≤ 8192 }
    ensures places { IfOk result (λ c. c.places.items ≡ words.costs_at (seen rows.now) first code.now) }
    ensures most { IfOk result (λ c. c.most ≡ words.most_at (seen rows.now) first code.now) }
    ensures once { IfOk result (λ c. c.once ≡ words.first_cost (seen rows.now) first code.now) }
{
    let places = costs_at(alloc, rows, exceptions, first, code)?;
    let most = most_back(first, &places, code);
    let once = cost_in(&places, 0);
    Ok(Costs { places, most, once })
}

/// The costs of a subroutine, whose first place is reached by calls.
fn subroutine_costs(
    alloc: Global,
    rows: &Rows,
    exceptions: u64,
    first: usize,
    code: &[Instruction<u16>],
) -> Result<Costs, AllocError>
    requires program { IsProgram (seen rows.now) }
    requires exceptions { exceptions ≡ exceptions_weight (lines_of (seen rows.now)) }
    requires few_exceptions { exceptions ≤ 201000 }
    requires few { first + length code.now ≤ 8192 }
    ensures places { IfOk result (λ c. c.places.items ≡ words.costs_at (seen rows.now) first code.now) }
    ensures most { IfOk result (λ c. c.most ≡ words.most_called (seen rows.now) first code.now) }
{
    let costs = section_costs(alloc, rows, exceptions, first, code)?;
    let most = costs.once.max(costs.most);
    Ok(Costs {
        places: costs.places,
        most,
        once: 0,
    })
}

/// Appends the costs of a section to those of the sections before it.
fn append(costs: &mut Costs, more: &Costs) -> Result<(), AllocError>
    ensures places { OnOk result (costs.new.places.items ≡ costs.old.places.items ++ more.now.places.items) }
    ensures most { OnOk result (costs.new.most ≡ max costs.old.most more.now.most) }
    ensures once { costs.new.once ≡ costs.old.once }
{
    costs.places.extend_from_slice(&more.places)?;
    costs.most = costs.most.max(more.most);
    Ok(())
}

/// The costs of detail and total calculations.
fn main_costs(alloc: Global, rows: &Rows, exceptions: u64) -> Result<Costs, AllocError>
    requires program { IsProgram (seen rows.now) }
    requires exceptions { exceptions ≡ exceptions_weight (lines_of (seen rows.now)) }
    requires few_exceptions { exceptions ≤ 201000 }
    ensures places { IfOk result (λ c. c.places.items ≡ words.main_costs (seen rows.now)) }
    ensures most { IfOk result (λ c. c.most ≡ words.main_most (seen rows.now)) }
    ensures once { IfOk result (λ c. c.once ≡ words.once (seen rows.now)) }
{
    let mut costs = section_costs(alloc, rows, exceptions, 0, &rows.detail)?;
    let total = section_costs(alloc, rows, exceptions, rows.detail.len(), &rows.total)?;
    append(&mut costs, &total)?;
    costs.once += total.once;
    Ok(costs)
}

/// The costs of all places.
fn all_costs(alloc: Global, rows: &Rows, exceptions: u64) -> Result<Costs, AllocError>
    requires program { IsProgram (seen rows.now) }
    requires exceptions { exceptions ≡ exceptions_weight (lines_of (seen rows.now)) }
    requires few_exceptions { exceptions ≤ 201000 }
    ensures places { IfOk result (λ c. c.places.items ≡ words.costs (seen rows.now)) }
    ensures most { IfOk result (λ c. c.most ≡ words.most (seen rows.now)) }
    ensures once { IfOk result (λ c. c.once ≡ words.once (seen rows.now)) }
{
    let mut costs = main_costs(alloc, rows, exceptions)?;
    let mut first = rows.detail.len() + rows.total.len();
    for subroutine in &rows.subroutines {
        let more = subroutine_costs(alloc, rows, exceptions, first, &subroutine.instructions)?;
        append(&mut costs, &more)?;
        first += subroutine.instructions.len();
    }
    Ok(costs)
}

/// Returns the bound, given the costs of all places.
fn bound_of(rows: &Rows, lines: LineWeights, costs: &Costs) -> u64
    requires program { IsProgram (seen rows.now) }
    requires lines { lines.others ≡ overflow_weight (lines_of (seen rows.now)) }
    requires few_lines { lines.others ≤ 201000 }
    requires most { costs.now.most ≡ words.most (seen rows.now) }
    requires once { costs.now.once ≡ words.once (seen rows.now) }
    ensures { result ≡ words.bound (seen rows.now) }
{
    let types = types_weight(rows);
    let output = output_weight(rows, lines);
    let moved = types + output;
    let passed = moved + costs.once;
    let allowance = u64::from(rows.allowance);
    let spent = allowance * costs.most;
    let bound = passed + spent;
    bound
}

/// The most steps that a cycle can take, and the costs of all places, from which it follows.
#[derive(Drop)]
pub(crate) struct Measured {
    pub costs: Vec<u64>,
    pub bound: u64,
}

pub(crate) fn measure(alloc: Global, rows: &Rows) -> Result<Measured, AllocError>
    requires { IsProgram (seen rows.now) }
    ensures costs { IfOk result (λ m. m.costs.items ≡ words.costs (seen rows.now)) }
    ensures bound { IfOk result (λ m. m.bound ≡ words.bound (seen rows.now)) }
{
    let lines = line_weights(rows);
    let costs = all_costs(alloc, rows, lines.exceptions)?;
    let bound = bound_of(rows, lines, &costs);
    Ok(Measured {
        costs: costs.places,
        bound,
    })
}
