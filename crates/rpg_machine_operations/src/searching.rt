//! LOKUP.
ghost use Rattle.std.specs.Prelude.{◌≡◌, ◌≤◌, true, IfSome};
ghost use Rattle.std.specs.Option.{option_map};
ghost use Rattle.rpg_program.specs.Act as acts;
ghost use Rattle.rpg_program.specs.Ends.{end_of};
ghost use Rattle.rpg_program.specs.Forms as forms_of;
ghost use Rattle.rpg_program.specs.Rows as rows_of;
ghost use Rattle.rpg_program.specs.Search as of;
ghost use Rattle.rpg_program.specs.declared.operation.Action.TheVariants as actions;
ghost use Rattle.rpg_program.specs.declared.operation.Found.{Found};
ghost use Rattle.rpg_memory.specs.Fields.{CanBeResolved, reads_index};
ghost use Rattle.rpg_memory.specs.Memory.{data_put, forms_in};
ghost use Rattle.rpg_machine_operations.specs.Valid.{FitsPosition, HasPosition, written_operand};
ghost use Rattle.rpg_machine_operations.specs.Words.{AreAlike, DidOperate, GoesThrough, HoldsPositions, IsLikeOperand, current_made, current_made_if_any, field_if_any, found_by, found_put, looked_up_in, nearest_by, operand_field, orders_in};
ghost use Rattle.rpg_memory.specs.Doing.{DidData};

use crate::comparing::compared;
use crate::resolving::{entry_named, table_named};
use rpg_memory::memory::Memory;
use rpg_memory::resolved::Resolved;
use rpg_program::forms::{form_at, is_table_form};
use rpg_program::operation::{Entry, Found, Index, Operand, Shows};
use rpg_program::outcome::End;
use rpg_store::store::Store;
use std::cmp::Ordering;

fn same_order(a: Ordering, b: Ordering) -> bool
    ensures { result ≡ of.same_order a b }
{
    a == b
}

/// Whether the entry at a position of factor 2 has this order relative to factor 1.
#[inline(always)]
#[tactic(auto, using(rpg_memory::proofs::Values::other_value))]
fn stands<S: Store + Drop>(
    memory: &Memory<'_, S>,
    factor1: Resolved,
    factor2: Resolved,
    order: Ordering,
    position: u16,
) -> bool
    requires alike { AreAlike memory.now factor1 factor2 }
    requires low { 1 ≤ position }
    requires high { position ≤ forms_of.entries_of (forms_in memory.now factor2.entry.field) }
    ensures { result ≡ of.stands (orders_in memory.now factor1 factor2) order position }
{
    let mut other = factor2;
    other.entry.position = position;
    same_order(order, compared(memory, factor1.form.kind, other, factor1))
}

/// Returns the first position of a range whose entry has this order relative to factor 1.
fn first_one<S: Store + Drop>(
    memory: &Memory<'_, S>,
    factor1: Resolved,
    factor2: Resolved,
    order: Ordering,
    from: u16,
    last: u16,
) -> Option<u16>
    requires alike { AreAlike memory.now factor1 factor2 }
    requires through { GoesThrough memory.now factor2 from last }
    ensures { result ≡ of.first_one (orders_in memory.now factor1 factor2) order (of.positions from last) }
{
    'positions: for position in from..last + 1 {
        if stands(memory, factor1, factor2, order, position) {
            return Some(position);
        }
    }
    None
}

/// Returns the last position of a range whose entry has this order relative to factor 1.
fn last_one<S: Store + Drop>(
    memory: &Memory<'_, S>,
    factor1: Resolved,
    factor2: Resolved,
    order: Ordering,
    from: u16,
    last: u16,
) -> Option<u16>
    requires alike { AreAlike memory.now factor1 factor2 }
    requires through { GoesThrough memory.now factor2 from last }
    requires some { from ≤ last }
    ensures { result ≡ of.last_one (orders_in memory.now factor1 factor2) order (of.positions from last) }
{
    'positions: for back in 0..last + 1 - from {
        let position = last - back;
        if stands(memory, factor1, factor2, order, position) {
            return Some(position);
        }
    }
    None
}

/// Returns where a search begins: at the first entry, or the one that its index names.
fn start_of(factor2: Resolved) -> u16
    ensures { result ≡ acts.search_start factor2.entry }
{
    match factor2.entry.index {
        Index::Blank => 1,
        Index::Literal(_) | Index::Field(_) => factor2.entry.position,
    }
}

/// Returns the first entry that has this order relative to factor 1; of smaller entries, the last.
#[tactic(auto, using(crate::proofs::Finding::start_within, rpg_memory::proofs::Values::entries_high))]
fn nearest<S: Store + Drop>(
    memory: &Memory<'_, S>,
    factor1: Resolved,
    factor2: Resolved,
    order: Ordering,
) -> Option<u16>
    requires { AreAlike memory.now factor1 factor2 }
    ensures { result ≡ nearest_by memory.now factor1 factor2 order }
{
    memory.is_kept();
    let from = start_of(factor2);
    let last = factor2.form.entries;
    match order {
        Ordering::Less => last_one(memory, factor1, factor2, order, from, last),
        Ordering::Equal | Ordering::Greater => {
            first_one(memory, factor1, factor2, order, from, last)
        }
    }
}

/// Like `nearest`, if an indicator is named for it.
fn nearest_if_named<S: Store + Drop>(
    memory: &Memory<'_, S>,
    factor1: Resolved,
    factor2: Resolved,
    order: Ordering,
    indicator: Option<u8>,
) -> Option<Found>
    requires { AreAlike memory.now factor1 factor2 }
    ensures { result ≡ of.if_named indicator (of.found_as order (nearest_by memory.now factor1 factor2 order)) }
{
    let _asked = indicator?;
    let position = nearest(memory, factor1, factor2, order)?;
    Some(Found { order, position })
}

/// Returns what a search finds: first of all an equal entry, if an indicator is named for it.
#[tactic(auto, unfolding(rpg_program::specs::Act::found_in, rpg_program::specs::Search::search_of))]
fn search<S: Store + Drop>(
    memory: &Memory<'_, S>,
    factor1: Resolved,
    factor2: Resolved,
    shows: Shows,
) -> Option<Found>
    requires { AreAlike memory.now factor1 factor2 }
    ensures { result ≡ found_by memory.now factor1 factor2 shows }
{
    if let Some(found) = nearest_if_named(memory, factor1, factor2, Ordering::Equal, shows.zero) {
        return Some(found);
    }
    if let Some(found) = nearest_if_named(memory, factor1, factor2, Ordering::Greater, shows.plus) {
        return Some(found);
    }
    nearest_if_named(memory, factor1, factor2, Ordering::Less, shows.minus)
}

/// Stores a position in an index field.
#[tactic(auto, using(rpg_memory::proofs::Entries::index_value, crate::proofs::Finding::held))]
fn set_index<S: Store + Drop>(memory: &mut Memory<'_, S>, index: Index<u16>, position: u16)
    requires reads { reads_index memory.old.program.fields index ≡ true }
    requires holds { rows_of.can_hold (forms_in memory.old) index position ≡ true }
    ensures { memory.new ≡ data_put (acts.index_set index position memory.old.world.data) memory.old }
{
    memory.is_kept();
    match index {
        Index::Blank | Index::Literal(_) => {}
        Index::Field(by) => memory.set_number(by, 1, i64::from(position)),
    }
}

/// Makes an entry of a table its current one; does nothing for another field.
fn make_current<S: Store + Drop>(memory: &mut Memory<'_, S>, field: u16, position: u16)
    requires low { 1 ≤ position }
    requires high { position ≤ forms_of.entries_of (forms_in memory.old field) }
    ensures { memory.new ≡ data_put (current_made memory.old field position) memory.old }
{
    if is_table_form(form_at(memory.rows(), field)) {
        memory.set_current(field, position);
    }
}

/// Makes an entry current in the result's table, if there is one.
fn make_current_if_any<S: Store + Drop>(
    memory: &mut Memory<'_, S>,
    table: Option<u16>,
    position: u16,
)
    requires low { 1 ≤ position }
    requires high { HasPosition memory.old.program.fields table position }
    ensures { memory.new ≡ data_put (current_made_if_any memory.old table position) memory.old }
{
    if let Some(table) = table {
        make_current(memory, table, position);
    }
}

/// Stores a position that was found; if nothing was found, the index field gets 1.
#[tactic(auto, unfolding(rpg_program::specs::Act::with_found))]
fn place<S: Store + Drop>(
    memory: &mut Memory<'_, S>,
    factor2: Entry<u16>,
    table: Option<u16>,
    found: Option<Found>,
)
    requires reads { reads_index memory.old.program.fields factor2.index ≡ true }
    requires fits { IfSome found (λ f. FitsPosition memory.old.program.fields factor2 table f.position) }
    ensures { memory.new ≡ data_put (found_put memory.old factor2 table found) memory.old }
{
    memory.is_kept();
    match found {
        None => set_index(memory, factor2.index, 1),
        Some(found) => {
            set_index(memory, factor2.index, found.position);
            make_current(memory, factor2.field, found.position);
            make_current_if_any(memory, table, found.position);
        }
    }
}

fn field_of(to: Option<Resolved>) -> Option<u16>
    ensures { result ≡ field_if_any to }
{
    Some(to?.entry.field)
}

fn order_of(found: Option<Found>) -> Option<Ordering>
    ensures { result ≡ option_map (λ (f : Found). f.order) found }
{
    Some(found?.order)
}

/// Searches factor 1 among the entries of factor 2, stores the position, and sets the indicators.
#[tactic(auto, unfolding(rpg_program::specs::Act::looked_up), using(crate::proofs::Finding::found_fits, crate::proofs::Finding::no_position_fault))]
fn search_and_place<S: Store + Drop>(
    memory: &mut Memory<'_, S>,
    factor1: Resolved,
    factor2: Resolved,
    to: Option<Resolved>,
    shows: Shows,
) -> End
    requires alike { AreAlike memory.old factor1 factor2 }
    requires reads { reads_index memory.old.program.fields factor2.entry.index ≡ true }
    requires positions { HoldsPositions memory.old (written_operand factor2.entry) (field_if_any to) }
    ensures { DidData (looked_up_in memory.old factor1 factor2 to shows) memory.old (end_of result) memory.new }
{
    let found = search(memory, factor1, factor2, shows);
    place(memory, factor2.entry, field_of(to), found);
    memory.show_if_any(shows, order_of(found));
    End::Continues
}

/// LOKUP. None if an index is out of range.
#[tactic(auto, unfolding(rpg_program::specs::Act::act, rpg_program::specs::Operate::has_entries, rpg_program::specs::Operate::operate, rpg_program::specs::Operate::resolved, rpg_program::specs::Rows::row_of))]
pub fn look_up<S: Store + Drop>(
    memory: &mut Memory<'_, S>,
    factor1: &Operand<u16>,
    factor2: &Operand<u16>,
    to: &Option<Operand<u16>>,
    shows: Shows,
) -> Option<End>
    requires factor1 { IsLikeOperand memory.old factor1.now factor1.now }
    requires factor2 { IsLikeOperand memory.old factor1.now factor2.now }
    requires table { IfSome to.now (λ o. CanBeResolved memory.old.program.fields o) }
    requires positions { HoldsPositions memory.old factor2.now (operand_field to.now) }
    ensures { DidOperate (actions.LookUp factor1.now factor2.now to.now shows) memory.old result memory.new }
{
    let factor1 = entry_named(memory, factor1)?;
    let factor2 = entry_named(memory, factor2)?;
    let to = table_named(memory, to)?;
    Some(search_and_place(memory, factor1, factor2, to, shows))
}
