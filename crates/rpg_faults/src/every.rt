//! All faults.

ghost use Rattle.std.specs.Prelude.{◌≡◌, ◌≤◌, [], ◌++◌, ◌∷◌, length, IfOk, OnOk};
ghost use Rattle.rpg_cards.specs.Cards.{Numbered};
ghost use Rattle.rpg_faults.specs.Before.{AreBefore};
ghost use Rattle.rpg_faults.specs.Reported as reported;
ghost use Rattle.rpg_sheet_specs.specs.Ranges.{columns_of};
ghost use Rattle.std.specs.Option.{option_map};

use crate::before::Before;
use crate::cause::{cause_of, cause_range};
use crate::code::FaultCode;
use crate::kept::keeps_rule;
use crate::source_fault::{CardFault, SourceCode};
use rpg_card_index::IndexedCards;
use rpg_cards::SpecCard;
use rpg_causes_flow::AnalyzedCards;
use rpg_faults_data::Decks;
use rpg_faults_limits::lacks_input;
use rpg_faults_operands::has_valid_operands;
use rpg_sheet_specs::{ColumnFault, ColumnRange};
use std::alloc::{AllocError, Global};

/// Returns all faults by card, then by code, each with its columns. Card 0 is the source as a whole. Fails only if memory runs out.
pub fn all_faults(alloc: Global, cards: &[SpecCard]) -> Result<Vec<CardFault>, AllocError>
    requires numbered { Numbered 1 cards.now }
    requires few { length cards.now ≤ 2000 }
    ensures { IfOk result (λ faults. reported.AreFaultsOf cards.now faults.items) }
{
    let source = IndexedCards::new(alloc, cards)?;
    let source = AnalyzedCards::new(alloc, &source)?;
    faults_in(alloc, &source)
}

fn faults_in(alloc: Global, source: &AnalyzedCards) -> Result<Vec<CardFault>, AllocError>
    ensures { IfOk result (λ faults. faults.items ≡ reported.reported_faults source.now.cards.now) }
{
    let mut faults = faults_of_whole(alloc, source.cards)?;
    put_faults(&mut faults, source)?;
    Ok(faults)
}

/// Returns the faults of the source as a whole.
fn faults_of_whole(alloc: Global, source: &IndexedCards) -> Result<Vec<CardFault>, AllocError>
    ensures { IfOk result (λ faults. faults.items ≡ reported.reported_of_whole source.now) }
{
    let mut faults = Vec::new(alloc);
    if lacks_input(source) {
        faults.push(CardFault {
            card: 0,
            code: SourceCode::Fault(FaultCode::F7),
            columns: None,
            cause: None,
        })?;
    }
    Ok(faults)
}

/// Appends the faults of the cards, card by card.
fn put_faults(faults: &mut Vec<CardFault>, source: &AnalyzedCards) -> Result<(), AllocError>
    ensures { OnOk result (faults.new.items ≡ faults.old.items ++ reported.reported_from [] source.now.cards.now) }
{
    let cards = source.cards;
    let mut known = Before::all(source, Decks::all(cards.as_slice()));
    let mut before = &cards.as_slice()[..0];
    let mut rest = cards.as_slice();
    while let Some((card, after)) = rest.split_first() {
        put_faults_on(faults, source, &known, before, card, after)?;
        known.pass(source, before, card, after);
        before = cards.up_to(before, card, after);
        rest = after;
    }
    Ok(())
}

/// Appends the faults of a card, code by code.
fn put_faults_on(
    faults: &mut Vec<CardFault>,
    source: &AnalyzedCards,
    known: &Before,
    before: &[SpecCard],
    card: &SpecCard,
    after: &[SpecCard],
) -> Result<(), AllocError>
    requires split { source.now.cards.now ≡ before.now ++ card.now ∷ after.now }
    requires known { AreBefore source.now.cards.now before.now (card.now ∷ after.now) known.now }
    ensures { OnOk result (faults.new.items ≡ faults.old.items ++ reported.reported_on before.now card.now after.now) }
{
    let is_valid = has_valid_operands(source.cards, card, after);
    for code in FaultCode::all() {
        if keeps_rule(code, source.cards, is_valid, before, card, after) {
            continue;
        }
        if let Some(cause) = cause_of(code, source, known, before, card, after) {
            faults.push(CardFault {
                card: card.number,
                code: SourceCode::Fault(code),
                columns: columns_of(cause_range(source.cards, card, after, &cause)),
                cause: Some(cause),
            })?;
        }
    }
    Ok(())
}

/// Returns the numbers of columns.
fn columns_of(range: Option<ColumnRange>) -> Option<ColumnFault>
    ensures { result ≡ option_map columns_of range }
{
    Some(range?.columns())
}
