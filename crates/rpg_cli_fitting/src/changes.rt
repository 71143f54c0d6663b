//! The changes of a deck, one by one, and why a deck can't be rewritten.

use crate::sentence::write_sentence;
use rpg_cli_diagnostics::{At, Columns, Diagnostic, Draft, FileName, Level, Place};
use rpg_cli_files::{Listener, tell_made};
use rpg_cli_messages::CardLines;
use rpg_cli_text::{TextWriter, Topic};
use rpg_fit::{Card, Fitted, FittedDeck, Note, Refusal, Rule, Sentence, What};
use std::alloc::{AllocError, Global};

/// The columns of a card.
const COLUMNS: usize = 80;

/// Reports the changes of a deck: for each card the changes, the last with the card and a mark under the columns that changed; then the
/// notes on cards that didn't change.
pub(crate) fn report_changes<L: Listener>(
    alloc: Global,
    file: FileName<'_>,
    source: &[u8],
    fit: &FittedDeck,
    listener: &mut L,
) {
    let mut lines = CardLines::of(source);
    let cards = u16::try_from(fit.fitted.cards).unwrap_or(u16::MAX);
    for card in 1..=cards {
        if has_change(&fit.fitted, usize::from(card)) {
            let line = lines.line_of(card);
            report_card(alloc, file, line, &fit.fitted, card, listener);
        }
    }
    for note in fit.notes.as_slice() {
        tell_made(listener, note_of(alloc, file, source, note));
    }
}

/// Whether a card has a change of its own.
fn has_change(fitted: &Fitted, card: usize) -> bool {
    count_changes(fitted, card) > 0
}

/// Counts the changes of a card; those along with another card don't count.
fn count_changes(fitted: &Fitted, card: usize) -> usize {
    let mut count = 0usize;
    for remark in fitted.remarks(card) {
        if let What::Change(_) = &remark.what {
            count = count.saturating_add(1);
        }
    }
    count
}

/// Reports the changes of a card. The last one shows the card.
fn report_card<L: Listener>(
    alloc: Global,
    file: FileName<'_>,
    line: &[u8],
    fitted: &Fitted,
    card: u16,
    listener: &mut L,
) {
    let new = fitted.replacement(usize::from(card));
    let place = changed_place(file, line, card, &new);
    let mut left = count_changes(fitted, usize::from(card));
    for remark in fitted.remarks(usize::from(card)) {
        if let What::Change(sentence) = &remark.what {
            left = left.saturating_sub(1);
            let place = if left == 0 {
                place
            } else {
                place.without_picture()
            };
            tell_made(listener, change(alloc, place, remark.rule, sentence));
        }
    }
}

/// Returns a rule's topic.
fn topic_of(rule: Rule) -> Topic {
    Topic::Rewriting(usize::from(rule.number()))
}

/// Returns the note on a change.
fn change<'a>(
    alloc: Global,
    place: Place<'a>,
    rule: Rule,
    sentence: &Sentence,
) -> Result<Diagnostic<'a>, AllocError> {
    let mut draft = Draft::new(alloc, Level::Note, Some(place), Some(topic_of(rule)));
    write_sentence(&mut draft.message, sentence);
    draft.finish()
}

/// Returns the columns from the first to the last that changed.
fn changed_columns(old: &Card, new: &Card) -> Option<Columns> {
    let mut columns: Option<Columns> = None;
    for column in 1..=COLUMNS {
        if old.column(column) != new.column(column) {
            let first = match columns {
                Some(columns) => columns.first,
                None => column,
            };
            columns = Some(Columns {
                first,
                last: column,
            });
        }
    }
    columns
}

/// Returns a card that is replaced or removed, with the columns that changed.
fn changed_place<'a>(
    file: FileName<'a>,
    line: &'a [u8],
    card: u16,
    new: &'a Option<Card>,
) -> Place<'a> {
    let Some(new) = new else {
        return file.card(card, None, line);
    };
    let place = file.card(card, changed_columns(&Card::of(line), new), line);
    match place.at {
        At::Line(line) => Place {
            at: At::Line(line.changed_to(new.text())),
            ..place
        },
        _ => place,
    }
}

/// Returns a card of a source.
fn source_card<'a>(file: FileName<'a>, source: &'a [u8], card: usize) -> Place<'a> {
    let number = u16::try_from(card).unwrap_or(u16::MAX);
    file.card(number, None, CardLines::of(source).line_of(number))
}

/// Returns a note on a card that didn't change.
fn note_of<'a>(
    alloc: Global,
    file: FileName<'a>,
    source: &'a [u8],
    note: &Note,
) -> Result<Diagnostic<'a>, AllocError> {
    Draft::note(alloc, source_card(file, source, note.card)).filled("{}", &[note.text.into()])
}

/// Returns the note on an option for the L cards of an old deck, which are read now.
pub(crate) fn forms_note(alloc: Global, file: FileName<'_>) -> Result<Diagnostic<'_>, AllocError> {
    Draft::note(alloc, file.whole()).filled("--forms has no effect: L cards are read", &[])
}

/// Returns the diagnostic for a deck that can't be rewritten.
pub fn refusal_diagnostic<'a>(
    alloc: Global,
    file: FileName<'a>,
    source: &'a [u8],
    refusal: &Refusal,
) -> Result<Diagnostic<'a>, AllocError> {
    let place = source_card(file, source, refusal.card);
    let topic = topic_of(refusal.rule);
    let mut draft = Draft::new(alloc, Level::Error, Some(place), Some(topic));
    draft.message.write_str("can't be rewritten: ");
    write_sentence(&mut draft.message, &refusal.why);
    draft.finish()
}

/// Writes a number with a comma before each three of its digits, except the first.
fn write_grouped(out: &mut TextWriter, digits: &str) {
    for (place, digit) in digits.chars().enumerate() {
        let following = digits.len().saturating_sub(place);
        if place > 0 && following % 3 == 0 {
            out.write_char(',');
        }
        out.write_char(digit);
    }
}

/// Begins a fault of a deck with too many cards.
fn too_many(alloc: Global, place: Place<'_>) -> Draft<'_> {
    Draft::new(alloc, Level::Error, Some(place), Some(Topic::Sheet(6)))
}

/// Returns the diagnostic for a deck that has too many cards: `card` is the first over the limit.
pub(crate) fn long_deck_diagnostic(
    alloc: Global,
    file: FileName<'_>,
    cards: usize,
    card: u16,
) -> Result<Diagnostic<'_>, AllocError> {
    let mut digits = TextWriter::new(alloc);
    digits.fill_one("{}", cards);
    let digits = digits.finish()?;
    let mut draft = too_many(alloc, file.line(card.into()));
    draft.message.write_str("the deck has ");
    write_grouped(&mut draft.message, digits.as_str());
    draft.message.write_str(" cards, and 2,000 are the most");
    draft.finish()
}

/// Returns the diagnostic for a new deck that would have too many cards.
pub(crate) fn too_many_diagnostic(
    alloc: Global,
    file: FileName<'_>,
) -> Result<Diagnostic<'_>, AllocError> {
    too_many(alloc, file.whole()).filled("the new deck would have more than 2,000 cards", &[])
}
