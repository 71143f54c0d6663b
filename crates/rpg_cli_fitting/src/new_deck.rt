//! The faults of a new deck, by its cards and by the cards of the old one.

use rpg_cli_diagnostics::{Diagnostics, Draft, FileName};
use rpg_cli_messages::source_diagnostics;
use rpg_fit::FittedDeck;
use std::alloc::Global;

/// The most faults that are listed.
const MOST: u16 = 20;

/// Returns the faults of the new deck, as for any source. None if it has no faults.
pub(crate) fn new_deck_faults<'a>(
    alloc: Global,
    new: FileName<'a>,
    fit: &'a FittedDeck,
) -> Diagnostics<'a> {
    if fit.judged.faults.is_empty() {
        return Diagnostics::new(alloc);
    }
    let deck = fit.fitted.new.as_slice();
    source_diagnostics(alloc, new, deck, &fit.judged, MOST)
}

/// Returns for each card of the new deck with a fault the card of the source that it comes from.
pub(crate) fn origins<'a>(
    alloc: Global,
    new: FileName<'a>,
    source: FileName<'a>,
    fit: &FittedDeck,
) -> Diagnostics<'a> {
    let mut out = Diagnostics::new(alloc);
    let mut last = 0;
    for fault in fit.judged.faults.iter().take(usize::from(MOST)) {
        let card = usize::from(fault.card);
        if card == last {
            continue;
        }
        last = card;
        if let Some(from) = fit.fitted.source_card(card) {
            let path = source.path.as_bytes();
            let draft = Draft::note(alloc, new.line(u64::from(fault.card)));
            out.push(draft.filled("it comes from {}:{}", &[path.into(), from.into()]));
        }
    }
    out
}
