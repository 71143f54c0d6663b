//! W11: results that nothing reads.

ghost use Rattle.std.specs.Prelude.{◌≡◌, ◌++◌, IfOk, OnOk};
ghost use Rattle.std.specs.List.{filter_map, list_all};
ghost use Rattle.rpg_warnings_lines.specs.Marks as marks;
ghost use Rattle.rpg_warnings_lines.specs.Unused as unused;
ghost use Rattle.rpg_warnings_lines.specs.Uses as uses;

use crate::marks::{Mark, NONE, least_at, least_of, lower_each, put_mark};
use crate::uses::{named_index, next_place, printed, read_on, reads_nothing, result_field};
use crate::warning::{Warning, WarningKind, put_warning};
use rpg_card_index::IndexedCards;
use rpg_cards::SpecCard;
use rpg_sheet_specs::{ColumnFault, Spec};
use rpg_symbols::Name;
use std::alloc::{AllocError, Global};

/// The columns of a result field.
const RESULT: ColumnFault = ColumnFault {
    column: 43,
    last: 48,
};

/// Notes the names that output fields print, with their first cards. The place of a name isn't looked up again for the next field.
#[tactic(auto, using(crate::proofs::Noting::lowers_more))]
fn lower_printed(read: &mut Vec<u16>, source: &IndexedCards) -> Result<(), AllocError>
    ensures { OnOk result (marks.Lowers (unused.printed_from source.now source.now) read.old.items read.new.items) }
{
    let mut last = [].as_slice();
    let mut place = source.name_place(&Name::new(last));
    for card in source.as_slice() {
        if let Some(entry) = printed(card) {
            place = next_place(source, &entry.name, last, place);
            last = entry.name.as_slice();
            lower_each(read, &[place, named_index(source, entry)], card.number)?;
        }
    }
    Ok(())
}

/// Notes the names that another card reads.
#[tactic(auto, using(crate::proofs::Noting::nothing_lowered))]
fn note_read(read: &mut Vec<u16>, source: &IndexedCards, card: &SpecCard) -> Result<(), AllocError>
    ensures { OnOk result (marks.Lowers (marks.marks_of card.now.number (uses.read_on source.now card.now.spec)) read.old.items read.new.items) }
{
    match &card.spec {
        Spec::Output(_) => Ok(()),
        Spec::Calculation(calculation) if reads_nothing(calculation) => Ok(()),
        _ => lower_each(read, &read_on(source, card), card.number),
    }
}

/// Notes the names that other cards read, with their first cards.
#[tactic(auto, using(crate::proofs::Noting::lowers_more))]
fn lower_read(read: &mut Vec<u16>, source: &IndexedCards) -> Result<(), AllocError>
    ensures { OnOk result (marks.Lowers (unused.read_from source.now source.now) read.old.items read.new.items) }
{
    for card in source.as_slice() {
        note_read(read, source, card)?;
    }
    Ok(())
}

/// Whether a reading card is noted for each of these names.
fn are_noted(read: &[u16], results: &[Mark]) -> bool
    ensures { result ≡ list_all (unused.is_noted read.now) results.now }
{
    for mark in results {
        if least_at(read, mark.place) == NONE {
            return false;
        }
    }
    true
}

/// Notes the result fields of cards, with their cards. The place of a name isn't looked up again for the next result field.
fn put_results(noted: &mut Vec<Mark>, source: &IndexedCards) -> Result<(), AllocError>
    ensures { OnOk result (noted.new.items ≡ noted.old.items ++ unused.results_from source.now source.now) }
{
    let mut last = [].as_slice();
    let mut place = source.name_place(&Name::new(last));
    for card in source.as_slice() {
        if let Some(entry) = result_field(card) {
            place = next_place(source, &entry.name, last, place);
            last = entry.name.as_slice();
            put_mark(noted, place, card.number)?;
        }
    }
    Ok(())
}

/// The cards on which names are read and set first, by the places of the names.
#[derive(Drop)]
pub struct FirstResults {
    read: Vec<u16>,
    set: Vec<u16>,
}

/// Returns the first cards, given those of the names that output fields print.
#[tactic(auto, using(crate::proofs::Noting::lowers_more))]
fn first_results(
    alloc: Global,
    source: &IndexedCards,
    printed: Vec<u16>,
    results: &[Mark],
) -> Result<FirstResults, AllocError>
    requires printed { marks.AreLeast printed.items (unused.printed_from source.now source.now) }
    requires results { results.now ≡ unused.results_from source.now source.now }
    ensures { IfOk result (λ firsts. unused.AreFirst source.now firsts) }
{
    let mut read = printed;
    lower_read(&mut read, source)?;
    let set = least_of(alloc, results)?;
    Ok(FirstResults { read, set })
}

/// Returns the warning about a result, if nothing reads it, and no earlier card sets it.
fn unused_by(firsts: &FirstResults, mark: Mark) -> Option<Warning>
    ensures { result ≡ unused.unused_with firsts.now mark }
{
    if least_at(&firsts.set, mark.place) == mark.value
        && least_at(&firsts.read, mark.place) == NONE
    {
        Some(Warning {
            card: mark.value,
            columns: RESULT,
            kind: WarningKind::Unused,
        })
    } else {
        None
    }
}

/// Appends the warnings about results, given the first cards of all names.
fn put_known(
    warnings: &mut Vec<Warning>,
    firsts: &FirstResults,
    results: &[Mark],
) -> Result<(), AllocError>
    ensures { OnOk result (warnings.new.items ≡ warnings.old.items ++ filter_map (unused.unused_with firsts.now) results.now) }
{
    for mark in results {
        put_warning(warnings, unused_by(firsts, *mark))?;
    }
    Ok(())
}

/// Appends the warnings of results that nothing reads, in the order of their cards. Other cards are read only if lines don't print all of them.
#[tactic(auto, using(crate::proofs::Noting::known_firsts, crate::proofs::Noting::none_unused))]
pub(crate) fn put_unused(
    alloc: Global,
    warnings: &mut Vec<Warning>,
    source: &IndexedCards,
) -> Result<(), AllocError>
    ensures { OnOk result (warnings.new.items ≡ warnings.old.items ++ unused.unused source.now) }
{
    let mut results = Vec::new(alloc);
    put_results(&mut results, source)?;
    if results.is_empty() {
        return Ok(());
    }
    let mut printed = Vec::new(alloc);
    lower_printed(&mut printed, source)?;
    if are_noted(&printed, &results) {
        return Ok(());
    }
    let firsts = first_results(alloc, source, printed, &results)?;
    put_known(warnings, &firsts, &results)
}
