//! Evaluates conditions on external indicators.

use crate::settings::Switches;
use rpg_fit_deck::{Card, Editor, Seen, Sentence, View, Word};
use rpg_fit_words::{
    Conjunction, Done, Indicator, Line, RuleStop, Term, UseKind, indicator_uses, is, is_card, lines,
};

/// Evaluates conditions on U1 to U8: L0 replaces a condition that holds, NL0 one that doesn't.
pub fn switches(editor: &mut Editor, switches: &Switches) -> Done {
    let view = editor.view()?;
    check_results(&view)?;
    for seen in &view.cards {
        if is_card(seen, b'C') {
            decide_conditions(editor, seen, 9, switches);
        } else if is_card(seen, b'O') {
            decide_conditions(editor, seen, 23, switches);
        }
    }
    decide_files(editor, &view, switches)
}

/// Evaluates the conditions of files.
fn decide_files(editor: &mut Editor, view: &View, switches: &Switches) -> Done {
    for seen in &view.cards {
        if is_card(seen, b'F') {
            decide_file(editor, view, seen, switches)?;
        }
    }
    Ok(())
}

/// Returns the number of a switch, given its indicator.
fn switch_number(indicator: &[u8]) -> Option<usize> {
    match indicator {
        [b'U', digit] if matches!(*digit, b'1'..=b'8') => Some(usize::from(*digit - b'0')),
        _ => None,
    }
}

/// Rejects a card that turns a switch on or off.
fn check_results(view: &View) -> Done {
    let uses = indicator_uses(view);
    for one in uses.checked()? {
        let indicator = one.indicator.word();
        if switch_number(indicator.text()).is_some() && !matches!(one.kind, UseKind::Asked) {
            let why = "% is turned on or off here";
            return Err(RuleStop::about(one.number, why, indicator));
        }
    }
    Ok(())
}

/// Evaluates the three conditions of a card from a column on, if a switch is among them.
fn decide_conditions(editor: &mut Editor, seen: &Seen, first: usize, switches: &Switches) {
    let conditions = Conjunction::at(&seen.card, first);
    let decided = decided(&conditions, switches);
    if decided.terms() != conditions.terms() {
        let text = "switches are decided by --switches %: L0 is always on, NL0 never";
        let last = first.saturating_add(8);
        let card = seen.card.with(first, last, decided.columns(0).text());
        editor.rewrite(seen, card, Sentence::about(text, switches.word()));
    }
}

/// Returns conditions with those that always hold, or never, in place of those on switches.
fn decided(conditions: &Conjunction, switches: &Switches) -> Conjunction {
    let mut decided = Conjunction::none();
    for term in conditions.terms() {
        decided.push(match switch_number(term.indicator.word().text()) {
            Some(number) => Term {
                is_off: switches.is_on(number) == term.is_off,
                indicator: Indicator::ALWAYS,
            },
            None => *term,
        });
    }
    decided
}

/// Evaluates the condition of a file.
fn decide_file(editor: &mut Editor, view: &View, file: &Seen, switches: &Switches) -> Done {
    let condition = Word::of(file.card.value(71, 72));
    let Some(number) = switch_number(condition.text()) else {
        return Ok(());
    };
    if !switches.is_on(number) {
        if file.card.column(15) == b'I' {
            let why =
                "% is off, so the file has no records: blank 71-72 and run it with an empty file";
            return Err(RuleStop::about(file.number, why, condition));
        }
        drop_lines(editor, lines(view)?.as_slice(), file)?;
    }
    let text = "% is decided by --switches %";
    let sentence = Sentence::with(text, &[condition, switches.word()]);
    editor.rewrite(file, file.card.with(71, 72, &[]), sentence);
    Ok(())
}

/// Gives the lines of a file a condition that never holds.
fn drop_lines(editor: &mut Editor, lines: &[Line], file: &Seen) -> Done {
    for line in lines {
        if is(line.file.text(), file.card.value(7, 14)) {
            drop_line(editor, line, file.number)?;
        }
    }
    Ok(())
}

/// Gives a line a condition that never holds, unless it has a field that affects other lines.
fn drop_line(editor: &mut Editor, line: &Line, with: usize) -> Done {
    for field in line.fields.iter() {
        if has_effect(&field.card) {
            let why = "a line of a file that isn't there has PAGE or blank after";
            return Err(RuleStop::because(line.head.number, why));
        }
    }
    for alternative in line.alternatives.iter() {
        let seen = &alternative.card;
        editor.change(seen.at, seen.card.with(23, 31, b"NL0"), with);
    }
    Ok(())
}

/// Whether an output field affects other lines.
fn has_effect(field: &Card) -> bool {
    let counts = matches!(field.value(32, 37), [b'P', b'A', b'G', b'E', ..]);
    counts || field.column(39) == b'B'
}
