//! A rewritten deck, with the faults of the result.

ghost use Rattle.std.specs.Prelude.{IfErr, IfOk};
ghost use Rattle.rpg_faults.specs.EverySource.{AreSourceFaults};
ghost use Rattle.rpg_fit_deck.specs.Laws.{IsFitted};
ghost use Rattle.rpg_fit.specs.Applied.{IsRewritten};
ghost use Rattle.rpg_fit.specs.Faults.{IsReason};

use crate::fault::FitFault;
use crate::note::{Note, notes};
use crate::rules::{OldDeckRules, RULES, Rules, apply_all};
use rpg_faults::{SourceFaults, source_faults};
use rpg_fit_cards::Settings;
use rpg_fit_deck::{Editor, Fitted, MOST_CARDS};
use std::alloc::Global;

/// A rewritten deck.
#[derive(Drop)]
pub struct FittedDeck {
    pub fitted: Fitted,
    /// Notes on cards that no longer mean the same.
    pub notes: Vec<Note>,
    /// The faults of the new deck, on its own cards.
    pub judged: SourceFaults,
}

/// Rewrites an old deck, as far as the rules go. The faults are those of the new deck: it has none exactly if it can be compiled.
pub fn fit(alloc: Global, source: &[u8], settings: &Settings) -> Result<FittedDeck, FitFault>
    ensures laws { IfOk result (λ fit. IsFitted source.now fit.fitted) }
    ensures faults { IfOk result (λ fit. AreSourceFaults fit.fitted.new.items fit.judged.faults.items) }
{
    fit_by(alloc, source, &OldDeckRules { settings })
}

/// Rewrites an old deck by any rules: each one is applied in turn, to what the ones before it left. A deck that one of them rejects
/// isn't returned, and neither is one with too many cards.
pub fn fit_by<R: Rules>(alloc: Global, source: &[u8], rules: &R) -> Result<FittedDeck, FitFault>
    ensures laws { IfOk result (λ fit. IsFitted source.now fit.fitted) }
    ensures faults { IfOk result (λ fit. AreSourceFaults fit.fitted.new.items fit.judged.faults.items) }
    ensures accepted { IfOk result (λ fit. IsRewritten (R.leaves rules.now) RULES source.now fit.fitted) }
    ensures rejected { IfErr result (λ fault. IsReason (R.leaves rules.now) RULES source.now fault) }
{
    if line_feeds(source) > MOST_CARDS {
        return Err(FitFault::TooMany);
    }
    let mut editor = Editor::new(alloc, source)?;
    let notes = notes(&editor.view()?)?;
    apply_all(&mut editor, rules);
    let fitted = editor.finish(source)?;
    let judged = source_faults(alloc, fitted.new.as_slice())?;
    Ok(FittedDeck {
        fitted,
        notes,
        judged,
    })
}

/// Counts the line feeds of a text, so that a deck of too many cards is rejected before it is read.
fn line_feeds(text: &[u8]) -> usize {
    let mut count: usize = 0;
    for byte in text {
        count = count.saturating_add(usize::from(*byte == b'\n'));
    }
    count
}
