//! Data of more than 80 columns.

use crate::column::cut;
use crate::table::begins_data;
use crate::table_data::{COLUMNS, TableShape, entries_of};
use rpg_fit_deck::{Editor, Seen, Sentence, View, Word};
use rpg_fit_words::{Done, List, RuleStop, is_card, remove_cards};

/// Cuts data and the card `/*` after column 80. Entries that stand there are punched on more cards.
pub(crate) fn narrow_data(editor: &mut Editor) -> Done {
    let view = editor.view()?;
    if let Some(last) = &view.last {
        cut(editor, last);
    }
    let tables = tables_with_data(&view);
    let mut left = tables.checked()?;
    for part in view.data.as_slice().chunk_by(|_, next| !begins_data(next)) {
        narrow_part(editor, left.first(), part)?;
        left = left.get(1..).unwrap_or(&[]);
    }
    Ok(())
}

/// Whether one of some lines has more columns than a card.
fn are_wide(lines: &[Seen]) -> bool {
    for line in lines {
        if line.width > COLUMNS {
            return true;
        }
    }
    false
}

/// Returns the E cards whose data stand in the deck, in order.
fn tables_with_data(view: &View) -> List<Seen> {
    let mut found = List::new(view.alloc);
    for seen in &view.cards {
        if is_card(seen, b'E') && !seen.card.is_blank(33, 35) && seen.card.is_blank(11, 18) {
            found.push(*seen);
        }
    }
    found
}

/// Cuts the data of an E card, if there is one, or punches them anew, if a line is wider than a card.
fn narrow_part(editor: &mut Editor, table: Option<&Seen>, part: &[Seen]) -> Done {
    if !are_wide(part) {
        return Ok(());
    }
    let Some(table) = table else {
        cut_lines(editor, part);
        return Ok(());
    };
    match TableShape::of(&table.card) {
        Some(shape) if shape.record_columns() > COLUMNS => {
            return punch_anew(editor, table, &shape, part);
        }
        Some(_) => {
            let text = "columns 81 and on of its data cut: the entries stand before them";
            editor.report(table.number, Sentence::of(text));
            narrow_lines(editor, part, table.number);
        }
        None => cut_lines(editor, part),
    }
    Ok(())
}

/// Cuts lines, each with a sentence of its own.
fn cut_lines(editor: &mut Editor, lines: &[Seen]) {
    for line in lines {
        cut(editor, line);
    }
}

/// Cuts lines as part of the change of the card `with`.
fn narrow_lines(editor: &mut Editor, lines: &[Seen], with: usize) {
    for line in lines {
        if line.width > COLUMNS {
            editor.change(line.at, line.card, with);
        }
    }
}

/// Rejects data that don't have as many cards as their entries need, and entries that don't fit a card.
fn check_data(table: &Seen, shape: &TableShape, cards: usize) -> Done {
    let wanted = shape.records();
    if cards != wanted {
        let why = "its data are % cards, and % hold the % entries";
        let (cards, wanted) = (Word::of_number(cards), Word::of_number(wanted));
        let words = [cards, wanted, Word::of_number(shape.entries)];
        return Err(RuleStop::with(table.number, why, &words));
    }
    if shape.width > COLUMNS {
        let why = "entries of % columns don't fit a card";
        return Err(RuleStop::about(table.number, why, Word::of_number(shape.width)));
    }
    Ok(())
}

/// Puts as many of an E card's entries on each card as fit there.
fn punch_anew(editor: &mut Editor, table: &Seen, shape: &TableShape, part: &[Seen]) -> Done {
    let [lead, rows @ ..] = part else {
        return Ok(());
    };
    check_data(table, shape, rows.len())?;
    let lines = lines_of(editor, rows);
    let entries = entries_of(editor.alloc(), shape, lines.checked()?)?;
    narrow_lines(editor, &[*lead], table.number);
    if let Some(first) = rows.first() {
        shape.put_cards(editor, first.at, entries.as_slice(), table.number);
    }
    remove_cards(editor, rows, table.number);
    report_punched(editor, table, shape);
    Ok(())
}

/// Returns the lines of the source that cards stand for.
fn lines_of<'a>(editor: &Editor<'a>, rows: &[Seen]) -> List<&'a [u8]> {
    let mut lines = List::new(editor.alloc());
    for row in rows {
        lines.push(editor.line(row.number));
    }
    lines
}

fn report_punched(editor: &mut Editor, table: &Seen, shape: &TableShape) {
    let per_card = Word::of_number(shape.per_card());
    let text = "% entries a card in place of %, as a card has 80 columns";
    let sentence = Sentence::with(text, &[per_card, Word::of_number(shape.per_record)]);
    let card = table.card.with_right(33, 35, per_card.text());
    editor.rewrite(table, card, sentence);
}
