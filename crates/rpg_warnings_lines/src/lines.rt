//! All warnings about lines and results.

ghost use Rattle.std.specs.Prelude.{◌≡◌, ◌++◌, OnOk};
ghost use Rattle.rpg_warnings_lines.specs.LineWarnings as warned;

use crate::overlaps::put_overlaps;
use crate::pages::page_on;
use crate::printer::overflow_on;
use crate::sums::put_unreset;
use crate::unheld::unheld_on;
use crate::unused::put_unused;
use crate::warning::{Warning, put_warning};
use rpg_card_index::IndexedCards;
use rpg_cards::SpecCard;
use rpg_sheet_specs::Spec;
use std::alloc::{AllocError, Global};

/// Returns the warning about a card's page number, line or printer. A card has at most one of these.
#[tactic(auto, unfolding(crate::specs::Pages::page_on, crate::specs::Printer::overflow_on))]
fn card_warning(cards: &[SpecCard], card: &SpecCard, after: &[SpecCard]) -> Option<Warning>
    ensures { result ≡ warned.card_warning cards.now card.now after.now }
{
    match &card.spec {
        Spec::File(_) => overflow_on(cards, card),
        Spec::Output(_) => page_on(card).or(unheld_on(card, after)),
        _ => None,
    }
}

/// Appends the warnings about page numbers, lines and printers, in the order of their cards.
fn put_card_warnings(warnings: &mut Vec<Warning>, cards: &[SpecCard]) -> Result<(), AllocError>
    ensures { OnOk result (warnings.new.items ≡ warnings.old.items ++ warned.card_warnings cards.now cards.now) }
{
    let mut rest = cards;
    while let Some((card, after)) = rest.split_first() {
        put_warning(warnings, card_warning(cards, card, after))?;
        rest = after;
    }
    Ok(())
}

/// Appends the warnings about lines and results of a source without faults: each kind in the order of the cards.
pub fn put_line_warnings(
    alloc: Global,
    warnings: &mut Vec<Warning>,
    source: &IndexedCards,
) -> Result<(), AllocError>
    ensures { OnOk result (warnings.new.items ≡ warnings.old.items ++ warned.line_warnings source.now) }
{
    put_unused(alloc, warnings, source)?;
    let mut placed = Vec::new(alloc);
    put_overlaps(warnings, &mut placed, source)?;
    put_card_warnings(warnings, source.as_slice())?;
    put_unreset(alloc, warnings, source)
}
