//! XFOOT.
ghost use Rattle.std.specs.Prelude.{◌≡◌, ◌<◌, ◌^◌, ◌+ℤ◌, unsigned_abs};
ghost use Rattle.rpg_program.specs.declared.operation.Action.TheVariants as actions;
ghost use Rattle.rpg_memory.specs.Memory.{NamesNumber};
ghost use Rattle.rpg_machine_operations.specs.Words.{DidOperate, FitsResult, IsNumberOperand, summed_in, total_in};

use crate::arithmetic::store;
use crate::resolving::number_named;
use rpg_decimal::{Scale, keep};
use rpg_memory::memory::Memory;
use rpg_memory::numbers::target_of;
use rpg_memory::resolved::Resolved;
use rpg_program::operation::{Operand, Shows};
use rpg_program::outcome::End;
use rpg_store::store::Store;

/// Adds a number to a sum.
fn plus(total: i128, n: i64) -> i128
    requires total { unsigned_abs total < 10 ^ 20 }
    ensures { result ≡ total +ℤ n }
{
    total + i128::from(n)
}

/// Returns the sum of all entries of an array.
#[tactic(auto, using(crate::proofs::Sums::sums))]
fn sum<S: Store + Drop>(memory: &Memory<'_, S>, array: Resolved) -> i128
    requires { NamesNumber memory.now array }
    ensures value { result ≡ total_in memory.now array }
    ensures bound { unsigned_abs result < 10 ^ 36 }
{
    memory.is_kept();
    let mut total = 0i128;
    'entries: for position in 1..array.form.entries + 1 {
        total = plus(total, memory.number(array.entry.field, position));
    }
    total
}

/// Returns the result of XFOOT.
#[tactic(auto, using(rpg_memory::proofs::Values::numbers))]
fn summed<S: Store + Drop>(
    memory: &Memory<'_, S>,
    half: bool,
    factor2: Resolved,
    to: Resolved,
) -> i64
    requires factor2 { NamesNumber memory.now factor2 }
    requires to { NamesNumber memory.now to }
    ensures value { result ≡ summed_in memory.now half factor2 to }
    ensures length { FitsResult memory.now to result }
{
    memory.is_kept();
    let value = factor2.form.decimals;
    let scale = Scale { value };
    keep(sum(memory, factor2), scale, target_of(memory, to, half))
}

/// XFOOT. None if an index is out of range.
#[tactic(auto, unfolding(rpg_program::specs::Act::act, rpg_program::specs::Operate::has_entries, rpg_program::specs::Operate::operate, rpg_program::specs::Operate::resolved, rpg_program::specs::Rows::row_of))]
pub fn cross_foot<S: Store + Drop>(
    memory: &mut Memory<'_, S>,
    half: bool,
    factor2: &Operand<u16>,
    to: &Operand<u16>,
    shows: Shows,
) -> Option<End>
    requires factor2 { IsNumberOperand memory.old factor2.now }
    requires to { IsNumberOperand memory.old to.now }
    ensures { DidOperate (actions.CrossFoot half factor2.now to.now shows) memory.old result memory.new }
{
    let factor2 = number_named(memory, factor2)?;
    let to = number_named(memory, to)?;
    let n = summed(memory, half, factor2, to);
    store(memory, to.entry, shows, n);
    Some(End::Continues)
}
