//! Turns directives for the listing, and DEBUG, into comments, and removes the cards of job control around a deck.

use rpg_fit_deck::{Card, Editor, Seen, Sentence};
use rpg_fit_words::{Done, Group, groups_now, is};

/// Turns directives for the listing into comments, and DEBUG with the cards of its conditions.
pub fn comments(editor: &mut Editor) -> Done {
    put_directives(editor)?;
    put_debugs(editor)
}

fn is_directive(card: &Card) -> bool {
    let directive = card.columns(7, 12);
    is(directive, b"/TITLE") || is(directive, b"/EJECT") || is(directive, b"/SPACE")
}

fn make_comment(editor: &mut Editor, seen: &Seen, with: usize) {
    editor.change(seen.at, seen.card.with(7, 7, b"*"), with);
}

fn put_directives(editor: &mut Editor) -> Done {
    let view = editor.view()?;
    for seen in &view.cards {
        if is_directive(&seen.card) {
            let sentence = Sentence::of("a directive for the listing is a comment now");
            editor.rewrite(seen, seen.card.with(7, 7, b"*"), sentence);
        }
    }
    Ok(())
}

fn put_debugs(editor: &mut Editor) -> Done {
    let groups = groups_now(editor)?;
    for group in groups.iter() {
        if is(group.operation(), b"DEBUG") {
            put_debug(editor, group);
        }
    }
    Ok(())
}

fn put_debug(editor: &mut Editor, group: &Group) {
    let number = group.last.number;
    let sentence = Sentence::of("DEBUG is a comment now, and its lines aren't printed");
    editor.report(number, sentence);
    for seen in group.leading.iter() {
        make_comment(editor, seen, number);
    }
    make_comment(editor, &group.last, number);
}

/// Removes the cards of job control before the data: `//`, `/&` and `* $$`.
pub fn job_control(editor: &mut Editor) -> Done {
    let view = editor.view()?;
    for seen in &view.cards {
        if is_job_control(&seen.card) {
            let sentence = Sentence::of("a card of job control, taken out");
            editor.report(seen.number, sentence);
            editor.remove(seen.at, seen.number);
        }
    }
    Ok(())
}

fn is_job_control(card: &Card) -> bool {
    matches!(card.columns(1, 2), b"//" | b"/&") || is(card.columns(1, 5), b"* $$ ")
}
