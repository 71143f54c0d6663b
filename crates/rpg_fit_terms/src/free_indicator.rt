//! Unused indicators.

ghost use Rattle.std.specs.Prelude.{◌≡◌, ◌+◌, ◌<◌, ◌≤◌, ℕ, true, false, IfNone, IfOk, IfSome, OnErr};
ghost use Rattle.rpg_fit_terms.specs.Indicators.{AreUsed, halt, indicator_starts, is_indicator_on, is_indicator_used, greatest_untried, numbered, stands_in};

use crate::indicator::Indicator;
use crate::stop::RuleStop;
use rpg_fit_deck::{Card, Sentence, View};

/// The greatest number of an indicator.
const GREATEST: u8 = 99;

/// The number of halt indicators.
const HALTS: u8 = 9;

/// Hands out indicators that no card has, from 99 down.
#[derive(Clone, Copy)]
pub struct FreeIndicators {
    /// The number of the next one to try.
    left: u8,
}

/// The first column of each indicator on an I card.
const INPUT: &[u8] = &[19, 63, 65, 67, 69];

/// The first column of each indicator on a C card.
const CALCULATION: &[u8] = &[10, 13, 16, 54, 56, 58];

/// The first column of each indicator on an O card.
const OUTPUT: &[u8] = &[24, 27, 30];

/// The first column of the indicator on an F card.
const FILE: &[u8] = &[33];

/// Returns the first column of each indicator on cards of a form.
fn indicator_columns(form: u8) -> &'static [u8]
    ensures { result.now ≡ indicator_starts form }
{
    match form {
        b'I' => INPUT,
        b'C' => CALCULATION,
        b'O' => OUTPUT,
        b'F' => FILE,
        _ => &[],
    }
}

fn stands_in(card: &Card, columns: &[u8], indicator: Indicator) -> bool
    ensures { result ≡ stands_in indicator card.now columns.now }
{
    columns
        .iter()
        .any(|column| indicator.stands_at(card, *column))
}

/// Whether a card has an indicator.
#[tactic(auto, unfolding(crate::specs::Indicators::is_indicator_on))]
fn is_on(card: &Card, indicator: Indicator) -> bool
    ensures { result ≡ is_indicator_on indicator card.now }
{
    !card.is_comment() && stands_in(card, indicator_columns(card.form()), indicator)
}

/// Whether any card has an indicator.
#[tactic(auto, unfolding(crate::specs::Indicators::is_indicator_used))]
fn is_indicator_used(view: &View, indicator: Indicator) -> bool
    ensures { result ≡ is_indicator_used view.now indicator }
{
    view.cards.iter().any(|seen| is_on(&seen.card, indicator))
}

/// Returns an indicator, if no card has it.
fn if_free(view: &View, indicator: Indicator) -> Option<Indicator>
    ensures same { IfSome result (λ found. found ≡ indicator) }
    ensures free { IfSome result (λ found. is_indicator_used view.now found ≡ false) }
    ensures used { IfNone result (is_indicator_used view.now indicator ≡ true) }
{
    if is_indicator_used(view, indicator) {
        None
    } else {
        Some(indicator)
    }
}

impl FreeIndicators {
    /// Starts with all that no card has.
    pub fn new() -> FreeIndicators
        ensures { greatest_untried result ≡ 99 }
    {
        FreeIndicators { left: GREATEST }
    }

    /// Returns the greatest indicator that no card has, below those already taken. Rejects the deck, for a card, if all are in use.
    pub fn take(&mut self, view: &View, card: usize) -> Result<Indicator, RuleStop>
        ensures unused { IfOk result (λ indicator. is_indicator_used view.now indicator ≡ false) }
        ensures of_number { IfOk result (λ indicator. indicator ≡ numbered (greatest_untried self.new + 1)) }
        ensures below { IfOk result (λ _. greatest_untried self.new < greatest_untried self.old) }
        ensures greatest { IfOk result (λ _. AreUsed view.now (greatest_untried self.new + 1) (greatest_untried self.old)) }
        ensures all_used { OnErr result (AreUsed view.now 0 (greatest_untried self.old)) }
    {
        let left = self.left;
        for down in 0..left {
            match if_free(view, Indicator::of_number(left - down)) {
                Some(indicator) => {
                    self.left = left - down - 1;
                    return Ok(indicator);
                }
                None => {}
            }
        }
        Err(RuleStop::refused(card, Sentence::of("no indicator is free")))
    }
}

/// Returns the highest of H9 to H1 that no card has. Rejects the deck, for a card, if all are in use.
pub fn free_halt(view: &View, card: usize) -> Result<Indicator, RuleStop>
    ensures unused { IfOk result (λ indicator. is_indicator_used view.now indicator ≡ false) }
    ensures all_used { OnErr result ((n : ℕ) → 0 < n → n ≤ 9 → is_indicator_used view.now (halt n) ≡ true) }
{
    for down in 0..HALTS {
        match if_free(view, Indicator::halt(HALTS - down)) {
            Some(indicator) => return Ok(indicator),
            None => {}
        }
    }
    Err(RuleStop::refused(card, Sentence::of("no halt indicator is free")))
}
