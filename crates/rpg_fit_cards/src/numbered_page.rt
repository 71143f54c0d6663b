//! Turns PAGE1 to PAGE7 into PAGE.

use rpg_fit_deck::{Editor, Sentence, View, Word};
use rpg_fit_terms::{is_name_on, rename};
use rpg_fit_words::{Done, List, RuleStop, is, is_card};

/// The page counters of the old language.
const COUNTERS: [&[u8]; 8] = [
    b"PAGE", b"PAGE1", b"PAGE2", b"PAGE3", b"PAGE4", b"PAGE5", b"PAGE6", b"PAGE7",
];

/// Turns the one page counter of a deck into PAGE.
pub fn numbered_pages(editor: &mut Editor) -> Done {
    let view = editor.view()?;
    let used = used_counters(&view);
    become_one(editor, &view, used.checked()?)
}

/// Turns the counter that is used into PAGE. Rejects a deck with two.
fn become_one(editor: &mut Editor, view: &View, used: &[&[u8]]) -> Done {
    match used {
        [first, second, ..] if is_page(*first) => Err(reason(view, *second, *first)),
        [first, second, ..] => Err(reason(view, *first, *second)),
        [counter] if !is_page(*counter) => {
            become_page(editor, view, *counter);
            Ok(())
        }
        _ => Ok(()),
    }
}

/// Returns the counters that a deck uses.
fn used_counters(view: &View) -> List<&'static [u8]> {
    let mut used = List::new(view.alloc);
    for counter in &COUNTERS {
        if counts(view, *counter) {
            used.push(*counter);
        }
    }
    used
}

fn is_page(counter: &[u8]) -> bool {
    is(counter, b"PAGE")
}

/// Whether a counter is used, and no calculation defines its length.
fn counts(view: &View, counter: &[u8]) -> bool {
    (is_page(counter) || !is_defined(view, counter)) && first_with(view, counter).is_some()
}

/// Whether a calculation defines the length of a name.
fn is_defined(view: &View, name: &[u8]) -> bool {
    view.cards.iter().any(|seen| {
        is_card(seen, b'C') && !seen.card.is_blank(49, 51) && is(seen.card.value(43, 48), name)
    })
}

/// Returns the first card that prints a name, or else the first that has it.
fn first_with(view: &View, name: &[u8]) -> Option<usize> {
    let mut first = None;
    for seen in &view.cards {
        if is_name_on(&seen.card, name) {
            if seen.card.form() == b'O' {
                return Some(seen.number);
            }
            first = first.or(Some(seen.number));
        }
    }
    first
}

/// Returns why a deck with two counters is rejected.
fn reason(view: &View, counter: &[u8], other: &[u8]) -> RuleStop {
    let why = "% beside %: one page counter is there";
    let card = first_with(view, counter).unwrap_or(1);
    RuleStop::with(card, why, &[Word::of(counter), Word::of(other)])
}

/// Turns a counter into PAGE wherever it is used, except as a label or a subroutine.
fn become_page(editor: &mut Editor, view: &View, counter: &[u8]) {
    if let Some(first) = first_with(view, counter) {
        editor.report(first, Sentence::about("% is PAGE now", Word::of(counter)));
        rename(editor, view, counter, b"PAGE", first);
    }
}
