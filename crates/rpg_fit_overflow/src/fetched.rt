//! Lines that fetch overflow output: EXCPT prints them and all lines of their time.

use crate::fetch_moves::Moves;
use crate::overflow::{fetches, first_fetching};
use rpg_fit_deck::{Editor, View};
use rpg_fit_words::{
    Conjunction, DeckLines, Done, IndicatorUse, Line, Printer, RuleStop, Term, Time, indicator_uses,
};

/// Lets EXCPT print the lines of a time, if some of them fetch overflow output.
pub fn fetch(editor: &mut Editor) -> Done {
    let deck = DeckLines::of(editor)?;
    let lines = deck.lines.as_slice();
    match first_fetching(lines) {
        Some(card) => rewrite(editor, &deck.view, lines, card),
        None => Ok(()),
    }
}

/// Lets EXCPT print lines. `card`: the first that fetches, for which the change is reported.
fn rewrite(editor: &mut Editor, view: &View, lines: &[Line], card: usize) -> Done {
    let printer = Printer::of(view);
    if printer.overflow.is_blank() {
        return Err(RuleStop::because(card, "fetch without an overflow indicator"));
    }
    let moves = Moves {
        view,
        lines,
        printer,
        card,
    };
    check(&moves)?;
    moves.make(editor)
}

/// Rejects a deck whose lines EXCPT can't print.
fn check(moves: &Moves) -> Done {
    check_times(moves.lines)?;
    check_first(moves)?;
    check_uses(moves)
}

/// Rejects lines that EXCPT already prints.
fn check_times(lines: &[Line]) -> Done {
    for line in lines {
        if line.time == Time::Exception {
            let why = "fetch in a deck that has lines of time E";
            return Err(RuleStop::because(line.head.number, why));
        }
    }
    Ok(())
}

/// Rejects heading and detail lines that fetch overflow if the first output may reach it.
fn check_first(moves: &Moves) -> Done {
    let mut lines = moves.lines.iter();
    let is_fetched = lines.any(|line| line.time.is_detail() && fetches(line));
    if is_fetched && moves.printer.reaches_overflow(moves.lines) {
        let why = "fetch on a detail line, and the first output may reach overflow";
        return Err(RuleStop::because(moves.card, why));
    }
    Ok(())
}

/// Rejects a deck that tests the overflow indicator, or turns it on or off, anywhere but in alternatives of lines.
fn check_uses(moves: &Moves) -> Done {
    let uses = indicator_uses(moves.view);
    for one in uses.checked()? {
        let is_overflow = one.indicator == moves.printer.overflow && one.form != b'F';
        if is_overflow && !is_alternative(moves.lines, *one) {
            let why = "fetch, and % is tested beside overflow lines";
            return Err(RuleStop::about(one.number, why, one.indicator.word()));
        }
    }
    Ok(())
}

/// Whether an indicator is on a card of a line's alternatives, and must be on.
fn is_alternative(lines: &[Line], one: IndicatorUse) -> bool {
    for line in lines {
        if let Some(seen) = line.card_at(one.at) {
            return !Conjunction::at(&seen.card, 23).has(Term::off(one.indicator));
        }
    }
    false
}
