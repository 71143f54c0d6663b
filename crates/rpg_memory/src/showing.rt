//! Resulting indicators.
ghost use Rattle.std.specs.Prelude.{◌≡◌};
ghost use Rattle.rpg_program.specs.Showing as of;
ghost use Rattle.rpg_memory.specs.Silent as silent;

use crate::indicators::{Indicators, turn_off, turn_on};
use rpg_program::operation::Shows;
use std::cmp::Ordering;

/// Returns the indicator for the order of a result relative to zero, or of factor 1 relative to factor 2.
fn indicator_for(shows: Shows, order: Ordering) -> Option<u8>
    ensures { result ≡ of.indicator_for shows order }
{
    match order {
        Ordering::Greater => shows.plus,
        Ordering::Less => shows.minus,
        Ordering::Equal => shows.zero,
    }
}

/// Whether no indicator is named, as in most operations: then nothing is set, and the order needn't be known.
#[inline(always)]
pub fn names_none(shows: Shows) -> bool
    ensures { result ≡ silent.names_none shows }
{
    shows.plus.is_none() && (shows.minus.is_none() && shows.zero.is_none())
}

/// Turns off all named indicators, then turns on the one whose condition holds.
#[tactic(auto, using(crate::proofs::Silent::nothing_shown), unfolding(rpg_program::specs::Showing::shown))]
pub fn show(on: &mut Indicators, shows: Shows, order: Ordering)
    ensures { on.new ≡ of.shown shows order on.old }
{
    if names_none(shows) {
        return;
    }
    turn_off(on, shows.plus);
    turn_off(on, shows.minus);
    turn_off(on, shows.zero);
    turn_on(on, indicator_for(shows, order));
}

/// Turns off all named indicators, then turns on the one for the order of what was found.
#[tactic(auto, unfolding(rpg_program::specs::Showing::shown_if_any))]
pub fn show_if_any(on: &mut Indicators, shows: Shows, order: Option<Ordering>)
    ensures { on.new ≡ of.shown_if_any shows order on.old }
{
    match order {
        None => all_off(on, shows),
        Some(order) => show(on, shows, order),
    }
}

fn all_off(on: &mut Indicators, named: Shows)
    ensures { on.new ≡ of.named_off named on.old }
{
    turn_off(on, named.plus);
    turn_off(on, named.minus);
    turn_off(on, named.zero);
}

fn all_on(on: &mut Indicators, named: Shows)
    ensures { on.new ≡ of.all_on named on.old }
{
    turn_on(on, named.plus);
    turn_on(on, named.minus);
    turn_on(on, named.zero);
}

/// SETON and SETOF.
#[tactic(auto, unfolding(rpg_program::specs::Showing::set_to))]
pub fn set(on: &mut Indicators, is_on: bool, named: Shows)
    ensures { on.new ≡ of.set_to is_on named on.old }
{
    if is_on {
        all_on(on, named);
    } else {
        all_off(on, named);
    }
}
