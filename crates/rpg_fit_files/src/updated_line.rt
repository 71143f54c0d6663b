//! Lines that each write a record of their own to the new file, and those that no line changes.

use crate::updated::{Put, Updated};
use rpg_fit_deck::{Editor, Seen, Sentence, Word};
use rpg_fit_terms::address_after;
use rpg_fit_words::{
    Apart, Conditions, Conjunction, Done, Indicator, Line, List, Outcome, Printer, Term,
    before_output, push_conditions, put_cards,
};

/// Writes each line of a file to the new one, after the whole record, and the records that no line changes.
pub(crate) fn write_lines(editor: &mut Editor, updated: &Updated, puts: &[Put]) -> Done {
    let rest = unchanged(updated, puts)?;
    let rest = rest.checked()?;
    for line in updated.deck.lines.iter() {
        if updated.has(line) {
            write_line(editor, updated, line)?;
        }
    }
    if !rest.is_empty() {
        write_rest(editor, updated, rest)?;
    }
    editor.report(updated.file.number, remark(updated, rest.len()));
    Ok(())
}

/// Returns the sentence about a file with so many alternatives for records that no line changes.
fn remark(updated: &Updated, rest: usize) -> Sentence {
    let (none, one, several) = (
        "% is read, and % gets its records as they are after the job",
        "% is read, and % gets its records as they are after the job; % alternative puts out those that no line changes",
        "% is read, and % gets its records as they are after the job; % alternatives put out those that no line changes",
    );
    let text = match rest {
        0 => none,
        1 => one,
        _ => several,
    };
    Sentence::with(text, &[updated.name(), updated.new, Word::of_number(rest)])
}

/// Returns the conditions for records that no line changes.
fn unchanged(updated: &Updated, puts: &[Put]) -> Outcome<Conditions> {
    let mut found = List::new(updated.deck.view.alloc);
    for indicator in updated.types.indicators.as_slice() {
        let left = left_of(updated, puts, *indicator)?;
        push_possible(&mut found, updated, left.checked()?);
    }
    Ok(found)
}

/// Appends the conditions that may hold.
fn push_possible(found: &mut Conditions, updated: &Updated, conditions: &[Conjunction]) {
    for condition in conditions {
        if !updated.excludes(condition, condition) {
            found.push(*condition);
        }
    }
}

/// Returns the conditions for records of an indicator that no line changes.
fn left_of(updated: &Updated, puts: &[Put], indicator: Indicator) -> Outcome<Conditions> {
    let apart = Apart {
        alloc: updated.deck.view.alloc,
        overflow: Printer::of(&updated.deck.view).overflow,
        card: updated.file.number,
    };
    let own = Conjunction::on(indicator);
    let mut left = List::new(apart.alloc);
    left.push(own);
    for put in puts {
        if !updated.excludes(&put.condition, &own) {
            let other = put.condition.without(Term::on(indicator));
            left = apart.without(left.checked()?, &other)?;
        }
    }
    Ok(left)
}

/// Writes a line to the new file, after the whole record.
fn write_line(editor: &mut Editor, updated: &Updated, line: &Line) -> Done {
    let head = &line.head;
    let card = head.card.with(7, 14, updated.new.text()).with(17, 22, &[]);
    editor.change(head.at, card, updated.file.number);
    let last = line.more.last().unwrap_or(head);
    let mut cards = List::new(editor.alloc());
    updated.record.push_fields(&mut cards, head.number);
    let following = address_after(&updated.deck.view, last.at);
    put_cards(editor, following, cards.checked()?, updated.file.number)
}

/// Writes the records under some conditions to the new file as they are, after its last line.
fn write_rest(editor: &mut Editor, updated: &Updated, conditions: &[Conjunction]) -> Done {
    let (view, number) = (&updated.deck.view, updated.file.number);
    let mut cards = List::new(editor.alloc());
    push_conditions(&mut cards, updated.new_line(number), conditions)?;
    updated.record.push_fields(&mut cards, number);
    let lines = updated.lines();
    lines.check()?;
    let following = match lines.as_slice().last() {
        Some(line) => address_after(view, last_card(line).at),
        None => before_output(view),
    };
    put_cards(editor, following, cards.checked()?, number)
}

fn last_card(line: &Line) -> &Seen {
    let more = line.more.last().unwrap_or(&line.head);
    line.fields.last().unwrap_or(more)
}
