//! Comparing entries, and COMP.
ghost use Rattle.std.specs.Prelude.{◌≡◌};
ghost use Rattle.rpg_program.specs.declared.operation.Action.TheVariants as actions;
ghost use Rattle.rpg_memory.specs.Fields.{IsResolved};
ghost use Rattle.rpg_memory.specs.Memory.{data_put};
ghost use Rattle.rpg_machine_operations.specs.Words.{AreAlike, DidOperate, IsLikeOperand, compared_in, order_in};

use crate::resolving::entry_named;
use rpg_decimal::{compare, compare_text};
use rpg_memory::memory::Memory;
use rpg_memory::numbers::number_at;
use rpg_memory::resolved::Resolved;
use rpg_program::form::Kind;
use rpg_program::operation::{Operand, Shows};
use rpg_program::outcome::End;
use rpg_store::store::Store;
use std::cmp::Ordering;

/// Compares an entry with another one of its kind. Inlined, so that a search reads factor 1 once.
#[inline(always)]
pub fn compared<S: Store + Drop>(
    memory: &Memory<'_, S>,
    kind: Kind,
    a: Resolved,
    b: Resolved,
) -> Ordering
    requires a { IsResolved memory.now.program.fields kind a }
    requires b { IsResolved memory.now.program.fields kind b }
    ensures { result ≡ order_in memory.now kind a b }
{
    match kind {
        Kind::Number => compare(number_at(memory, a), number_at(memory, b)),
        Kind::Text => compare_text(
            memory.text(a.entry.field, a.entry.position),
            memory.text(b.entry.field, b.entry.position),
        ),
    }
}

/// Sets the indicators for the order of factor 1 and factor 2.
fn show_order<S: Store + Drop>(
    memory: &mut Memory<'_, S>,
    factor1: Resolved,
    factor2: Resolved,
    shows: Shows,
)
    requires { AreAlike memory.old factor1 factor2 }
    ensures { memory.new ≡ data_put (compared_in memory.old factor1 factor2 shows) memory.old }
{
    let order = compared(memory, factor1.form.kind, factor1, factor2);
    memory.show(shows, order);
}

/// COMP. None if an index is out of range.
#[tactic(auto, unfolding(rpg_program::specs::Act::act, rpg_program::specs::Operate::has_entries, rpg_program::specs::Operate::operate, rpg_program::specs::Operate::resolved, rpg_program::specs::Rows::row_of))]
pub fn compare_entries<S: Store + Drop>(
    memory: &mut Memory<'_, S>,
    factor1: &Operand<u16>,
    factor2: &Operand<u16>,
    shows: Shows,
) -> Option<End>
    requires factor1 { IsLikeOperand memory.old factor1.now factor1.now }
    requires factor2 { IsLikeOperand memory.old factor1.now factor2.now }
    ensures { DidOperate (actions.Compare factor1.now factor2.now shows) memory.old result memory.new }
{
    let factor1 = entry_named(memory, factor1)?;
    let factor2 = entry_named(memory, factor2)?;
    show_order(memory, factor1, factor2, shows);
    Some(End::Continues)
}
