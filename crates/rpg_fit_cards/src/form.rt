//! Completes L cards.

use rpg_fit_deck::{Card, Editor, Seen, Sentence};
use rpg_fit_words::{Done, is_card};

/// Writes the standard form where an L card leaves its lines or its overflow line blank.
pub fn forms(editor: &mut Editor) -> Done {
    let view = editor.view()?;
    for seen in &view.cards {
        if is_card(seen, b'L') {
            complete(editor, seen);
        }
    }
    Ok(())
}

/// Returns a card with a text in columns that are blank.
fn filled(card: Card, first: usize, last: usize, text: &[u8]) -> Card {
    if card.is_blank(first, last) {
        card.with(first, last, text)
    } else {
        card
    }
}

fn complete(editor: &mut Editor, seen: &Seen) {
    if seen.card.is_blank(15, 19) || seen.card.is_blank(20, 24) {
        let with_lines = filled(seen.card, 15, 19, b"066FL");
        let card = filled(with_lines, 20, 24, b"060OL");
        let sentence = Sentence::of(
            "blank columns filled: a page has 66 lines, and overflow is at line 60",
        );
        editor.rewrite(seen, card, sentence);
    }
}
