//! Why a rule stops.

ghost use Rattle.std.specs.Prelude.{◌≡◌, MatchResult};
ghost use Rattle.rpg_fit_terms.specs.Stops.{IsStoppedBy};

use rpg_fit_deck::{Editor, Sentence, Word};
use std::alloc::{AllocError, AllocFailed};

/// Why a deck is rejected, and for which card of the source.
#[derive(Clone, Copy)]
pub struct Reason {
    pub card: usize,
    pub why: Sentence,
}

/// Why a rule stops before it is done.
#[derive(Clone, Copy)]
pub enum RuleStop {
    NoMemory,
    /// The deck has more cards than a deck may have.
    TooMany,
    Refused(Reason),
}

/// The outcome of a step of a rule.
pub type Outcome<T> = Result<T, RuleStop>;

/// The outcome of a rule, or of a step of it.
pub type Done = Outcome<()>;

impl RuleStop {
    /// Rejects the deck for a card.
    pub fn refused(card: usize, why: Sentence) -> RuleStop {
        RuleStop::Refused(Reason { card, why })
    }

    /// Rejects the deck for a card, with a sentence without words to fill in.
    pub fn because(card: usize, why: &'static str) -> RuleStop {
        RuleStop::refused(card, Sentence::of(why))
    }

    /// Rejects the deck for a card, with a sentence about a word.
    pub fn about(card: usize, why: &'static str, word: Word) -> RuleStop {
        RuleStop::refused(card, Sentence::about(why, word))
    }

    /// Rejects the deck for a card, with a sentence about several words.
    pub fn with(card: usize, why: &'static str, words: &[Word]) -> RuleStop {
        RuleStop::refused(card, Sentence::with(why, words))
    }
}

impl From<AllocError> for RuleStop {
    fn from(_: AllocError) -> Self {
        RuleStop::NoMemory
    }
}

impl<T: Drop> From<AllocFailed<T>> for RuleStop {
    fn from(_: AllocFailed<T>) -> Self {
        RuleStop::NoMemory
    }
}

/// Passes the outcome of a rule to the editor.
pub fn settle(editor: &mut Editor, outcome: Done)
    ensures { MatchResult outcome (λ _. editor.new ≡ editor.old) (λ stop. IsStoppedBy stop editor.old editor.new) }
{
    match outcome {
        Ok(()) => {}
        Err(RuleStop::NoMemory | RuleStop::TooMany) => editor.run_out(),
        Err(RuleStop::Refused(reason)) => editor.refuse(reason.card, reason.why),
    }
}
