//! The first fault.

ghost use Rattle.std.specs.Prelude.{◌≡◌, ◌≤◌, [], ◌∷◌, ◌++◌, find, length, IfOk, MatchOption};
ghost use Rattle.std.specs.Bool.{OnTrue};
ghost use Rattle.rpg_cards.specs.Cards.{Numbered};
ghost use Rattle.rpg_faults.specs.Before.{AreBefore};
ghost use Rattle.rpg_faults.specs.Faults as faults;
ghost use Rattle.rpg_faults.specs.Judged.{IsJudged};
ghost use Rattle.rpg_faults.specs.Rules as rules;
ghost use Rattle.rpg_faults_operands.specs.Valid.{HasValidOperands};

use crate::before::Before;
use crate::cause::cause_of;
use crate::code::FaultCode::{
    self, F1, F2, F3, F4, F5, F6, F7, F8, F9, F10, F11, F12, F13, F14, F15, F16, F17, F18,
};
use crate::fault::Fault;
use crate::kept::keeps_rule;
use rpg_card_index::{CardIndex, IndexedCards};
use rpg_cards::SpecCard;
use rpg_causes_flow::AnalyzedCards;
use rpg_faults_data::Decks;
use rpg_faults_limits::lacks_input;
use rpg_faults_operands::has_valid_operands;
use std::alloc::{AllocError, Global};

/// Returns the first fault by card, then by code, or None if there is no fault. Card 0 is the source as a whole. Fails only if memory runs out.
pub fn first_fault(alloc: Global, cards: &[SpecCard]) -> Result<Option<Fault>, AllocError>
    requires numbered { Numbered 1 cards.now }
    requires few { length cards.now ≤ 2000 }
    ensures { IfOk result (λ found. MatchOption found (faults.Faultless cards.now) (λ fault. faults.IsLeastFault cards.now fault)) }
{
    let judged = faultless_index(alloc, cards)?;
    Ok(judged.err())
}

/// Like `first_fault`, but returns the index of cards without faults.
pub(crate) fn faultless_index(
    alloc: Global,
    cards: &[SpecCard],
) -> Result<Result<CardIndex, Fault>, AllocError>
    requires numbered { Numbered 1 cards.now }
    requires few { length cards.now ≤ 2000 }
    ensures { IfOk result (λ judged. IsJudged cards.now judged) }
{
    let source = IndexedCards::new(alloc, cards)?;
    let fault = {
        let analyzed = AnalyzedCards::new(alloc, &source)?;
        least_fault(&analyzed)
    };
    match fault {
        Some(fault) => Ok(Err(fault)),
        None => Ok(Ok(source.into_index())),
    }
}

fn least_fault(source: &AnalyzedCards) -> Option<Fault>
    ensures { result ≡ faults.least_fault source.now.cards.now }
{
    if lacks_input(source.cards) {
        return Some(Fault {
            card: 0,
            code: FaultCode::F7,
        });
    }
    first_on_cards(source)
}

/// Returns the lowest code of the first card that breaks a rule.
fn first_on_cards(source: &AnalyzedCards) -> Option<Fault>
    ensures { result ≡ faults.least_fault_from [] source.now.cards.now }
{
    let cards = source.cards;
    let mut known = Before::all(source, Decks::all(cards.as_slice()));
    let mut before = &cards.as_slice()[..0];
    let mut rest = cards.as_slice();
    while let Some((card, after)) = rest.split_first() {
        if let Some(code) = least_code(source, &known, before, card, after) {
            return Some(Fault {
                card: card.number,
                code,
            });
        }
        known.pass(source, before, card, after);
        before = cards.up_to(before, card, after);
        rest = after;
    }
    None
}

/// Returns the lowest code whose rule a card breaks. Written out: each code costs only what its own rule costs.
#[tactic(auto, unfolding(crate::specs::Faults::codes))]
fn least_code(
    source: &AnalyzedCards,
    known: &Before,
    before: &[SpecCard],
    card: &SpecCard,
    after: &[SpecCard],
) -> Option<FaultCode>
    requires split { source.now.cards.now ≡ before.now ++ card.now ∷ after.now }
    requires known { AreBefore source.now.cards.now before.now (card.now ∷ after.now) known.now }
    ensures { result ≡ find (λ code. rules.rule code before.now card.now after.now) faults.codes }
{
    let valid = has_valid_operands(source.cards, card, after);
    match () {
        _ if breaks(F1, source, known, valid, before, card, after) => Some(F1),
        _ if breaks(F2, source, known, valid, before, card, after) => Some(F2),
        _ if breaks(F3, source, known, valid, before, card, after) => Some(F3),
        _ if breaks(F4, source, known, valid, before, card, after) => Some(F4),
        _ if breaks(F5, source, known, valid, before, card, after) => Some(F5),
        _ if breaks(F6, source, known, valid, before, card, after) => Some(F6),
        _ if breaks(F7, source, known, valid, before, card, after) => Some(F7),
        _ if breaks(F8, source, known, valid, before, card, after) => Some(F8),
        _ if breaks(F9, source, known, valid, before, card, after) => Some(F9),
        _ if breaks(F10, source, known, valid, before, card, after) => Some(F10),
        _ if breaks(F11, source, known, valid, before, card, after) => Some(F11),
        _ if breaks(F12, source, known, valid, before, card, after) => Some(F12),
        _ if breaks(F13, source, known, valid, before, card, after) => Some(F13),
        _ if breaks(F14, source, known, valid, before, card, after) => Some(F14),
        _ if breaks(F15, source, known, valid, before, card, after) => Some(F15),
        _ if breaks(F16, source, known, valid, before, card, after) => Some(F16),
        _ if breaks(F17, source, known, valid, before, card, after) => Some(F17),
        _ if breaks(F18, source, known, valid, before, card, after) => Some(F18),
        _ => None,
    }
}

/// Whether a card breaks the rule of a code.
#[inline(always)]
fn breaks(
    code: FaultCode,
    source: &AnalyzedCards,
    known: &Before,
    has_valid_operands: bool,
    before: &[SpecCard],
    card: &SpecCard,
    after: &[SpecCard],
) -> bool
    requires split { source.now.cards.now ≡ before.now ++ card.now ∷ after.now }
    requires known { AreBefore source.now.cards.now before.now (card.now ∷ after.now) known.now }
    requires valid { OnTrue has_valid_operands (HasValidOperands source.now.cards.now card.now after.now) }
    ensures { result ≡ rules.rule code before.now card.now after.now }
{
    !keeps_rule(code, source.cards, has_valid_operands, before, card, after)
        && cause_of(code, source, known, before, card, after).is_some()
}
