//! Notes on cards that are accepted but mean something else than before.

use rpg_fit_deck::{Card, Seen, View};
use rpg_fit_words::{is, is_card, printer_card};
use std::alloc::AllocError;

/// A note on a card.
#[derive(Clone, Copy)]
pub struct Note {
    /// The card of the source, counted from 1.
    pub card: usize,
    pub text: &'static str,
}

/// Returns the notes on the cards of a source: halt indicators that calculations turn on, and a printer without an overflow
/// indicator.
pub(crate) fn notes(view: &View) -> Result<Vec<Note>, AllocError> {
    let mut notes = Vec::new(view.alloc);
    for seen in &view.cards {
        if turns_halt_on(seen) {
            notes.push(Note {
                card: seen.number,
                text: "the job ends after the lines of this record; the operator could go on",
            })?;
        }
    }
    if let Some(printer) = printer_card(view) {
        if printer.card.is_blank(33, 34) {
            notes.push(Note {
                card: printer.number,
                text: "no overflow indicator: the old system skipped over the fold by itself, here lines continue over it",
            })?;
        }
    }
    Ok(notes)
}

/// Whether a calculation turns on one of H1 to H9.
fn turns_halt_on(seen: &Seen) -> bool {
    let card = &seen.card;
    is_card(seen, b'C')
        && is(card.value(28, 32), b"SETON")
        && (is_halt(card, 54) || is_halt(card, 56) || is_halt(card, 58))
}

/// Whether a column and the next one hold one of H1 to H9.
fn is_halt(card: &Card, column: usize) -> bool {
    let digit = card.column(column.saturating_add(1));
    card.column(column) == b'H' && digit.is_ascii_digit() && digit != b'0'
}
