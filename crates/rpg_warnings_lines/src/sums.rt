//! W10: totals that are never set back.

ghost use Rattle.std.specs.Prelude.{◌≡◌, ◌++◌, IfOk, OnOk};
ghost use Rattle.std.specs.List.{filter_map};
ghost use Rattle.rpg_warnings_lines.specs.Marks as marks;
ghost use Rattle.rpg_warnings_lines.specs.Sums as sums;
ghost use Rattle.rpg_warnings_lines.specs.Totals as totals;
ghost use Rattle.rpg_warnings_lines.specs.declared.totals.Noted.TheVariants as noted;

use crate::marks::{Mark, NONE, least_at, least_of, lower_at, lower_each};
use crate::totals::{Noted, put_totals};
use crate::uses::{set_on, sum_on};
use crate::warning::{Warning, WarningKind, put_warning};
use rpg_card_index::IndexedCards;
use rpg_cards::SpecCard;
use rpg_sheet_specs::{ColumnFault, ControlLevel};
use std::alloc::{AllocError, Global};

/// The column of blank after.
const BLANK_AFTER: ColumnFault = ColumnFault {
    column: 39,
    last: 39,
};

/// Returns the control level at which a card calculates: 0 in detail calculations, 10 at LR. Nothing is known of a subroutine.
fn level_with(level: u16, card: &SpecCard) -> u16
    ensures { result ≡ sums.level_with level card.now.spec }
{
    let Some(calculation) = card.calculation() else {
        return level;
    };
    match calculation.control_level {
        ControlLevel::Detail => 0,
        ControlLevel::Total(own) => u16::from(own.number()) - 100,
        ControlLevel::Subroutine => NONE,
        ControlLevel::And | ControlLevel::Or => level,
    }
}

/// Notes the results that cards add to, with the levels at which they do.
#[tactic(auto, using(crate::proofs::Noting::lowers_more))]
fn lower_sums(added: &mut Vec<u16>, source: &IndexedCards) -> Result<(), AllocError>
    ensures { OnOk result (marks.Lowers (sums.sums_of source.now) added.old.items added.new.items) }
{
    let mut level = 0;
    for card in source.as_slice() {
        level = level_with(level, card);
        lower_at(added, sum_on(source, card), level)?;
    }
    Ok(())
}

/// Notes the names that cards set.
#[tactic(auto, using(crate::proofs::Noting::lowers_more))]
fn lower_set(set: &mut Vec<u16>, source: &IndexedCards) -> Result<(), AllocError>
    ensures { OnOk result (marks.Lowers (sums.set_from source.now source.now) set.old.items set.new.items) }
{
    for card in source.as_slice() {
        lower_each(set, &set_on(source, card), card.number)?;
    }
    Ok(())
}

/// What is known of each name, by its place.
#[derive(Drop)]
pub struct NameSums {
    /// The least level at which it is added to.
    added: Vec<u16>,
    /// The first card that sets it.
    set: Vec<u16>,
    /// The least level at which a total line prints it.
    levels: Vec<u16>,
    /// The first card that prints it at total time.
    printed: Vec<u16>,
}

fn name_sums(alloc: Global, source: &IndexedCards, printed: &[Mark]) -> Result<NameSums, AllocError>
    requires { printed.now ≡ totals.totals_of noted.Card source.now }
    ensures { IfOk result (λ known. sums.AreSums source.now known) }
{
    let mut added = Vec::new(alloc);
    lower_sums(&mut added, source)?;
    let mut set = Vec::new(alloc);
    lower_set(&mut set, source)?;
    let mut levels = Vec::new(alloc);
    put_totals(&mut levels, source, Noted::Level)?;
    Ok(NameSums {
        added,
        set,
        levels: least_of(alloc, &levels)?,
        printed: least_of(alloc, printed)?,
    })
}

/// Returns the warning about a name on a total line, if it goes on after its group, and no earlier card prints it.
fn unreset_by(known: &NameSums, mark: Mark) -> Option<Warning>
    ensures { result ≡ sums.unreset_with known.now mark }
{
    let goes_on = least_at(&known.printed, mark.place) == mark.value
        && least_at(&known.set, mark.place) == NONE
        && least_at(&known.added, mark.place) < least_at(&known.levels, mark.place);
    goes_on.then_some(Warning {
        card: mark.value,
        columns: BLANK_AFTER,
        kind: WarningKind::NotReset,
    })
}

/// Appends the warnings about names on total lines, given what is known of all names.
fn put_known(
    warnings: &mut Vec<Warning>,
    known: &NameSums,
    printed: &[Mark],
) -> Result<(), AllocError>
    ensures { OnOk result (warnings.new.items ≡ warnings.old.items ++ filter_map (sums.unreset_with known.now) printed.now) }
{
    for mark in printed {
        put_warning(warnings, unreset_by(known, *mark))?;
    }
    Ok(())
}

/// Appends the warnings of totals that are never set back, in the order of their cards.
#[tactic(auto, using(crate::proofs::Noting::known_sums))]
pub(crate) fn put_unreset(
    alloc: Global,
    warnings: &mut Vec<Warning>,
    source: &IndexedCards,
) -> Result<(), AllocError>
    ensures { OnOk result (warnings.new.items ≡ warnings.old.items ++ sums.unreset source.now) }
{
    let mut printed = Vec::new(alloc);
    put_totals(&mut printed, source, Noted::Card)?;
    if printed.is_empty() {
        return Ok(());
    }
    let known = name_sums(alloc, source, &printed)?;
    put_known(warnings, &known, &printed)
}
