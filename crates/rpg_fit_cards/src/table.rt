//! Turns table files into data after `**` cards.

use crate::settings::Settings;
use crate::table_data::{TableShape, entries_of, records_of};
use rpg_fit_deck::{Address, Card, Editor, Seen, Sentence, View, Word};
use rpg_fit_words::{Done, List, RuleStop, is_card};
use rpg_text::has_only_characters;

/// Inserts the records of table files after `**` cards, in the order of the E cards, and removes the
/// files.
pub fn tables(editor: &mut Editor, settings: &Settings) -> Done {
    let view = editor.view()?;
    if let Some(first) = first_with_file(&view) {
        put_data(editor, settings, &view)?;
        drop_files(editor, &view, first);
    }
    Ok(())
}

/// Returns the number of the first E card whose table is read from a file.
fn first_with_file(view: &View) -> Option<usize> {
    let mut cards = view.cards.iter();
    let first = cards.find(|seen| is_card(seen, b'E') && has_file(&seen.card))?;
    Some(first.number)
}

/// Whether the table of an E card is read from a file.
fn has_file(card: &Card) -> bool {
    !card.is_blank(11, 18)
}

/// Whether a line begins the data of a table.
pub(crate) fn begins_data(seen: &Seen) -> bool {
    matches!(seen.card.columns(1, 3), b"** ")
}

/// Returns the addresses of the lines that begin data.
fn starts_of(view: &View) -> List<Address> {
    let mut starts = List::new(view.alloc);
    for seen in &view.data {
        if begins_data(seen) {
            starts.push(seen.at);
        }
    }
    starts
}

/// Inserts the records of all E cards' files, each before the data of the E cards after it.
fn put_data(editor: &mut Editor, settings: &Settings, view: &View) -> Done {
    let starts = starts_of(view);
    let mut left = starts.checked()?;
    for seen in &view.cards {
        if is_card(seen, b'E') {
            check_table(seen)?;
            if has_file(&seen.card) {
                let before = left.first().copied().unwrap_or(view.end);
                put_records(editor, settings, before, seen)?;
            } else if !seen.card.is_blank(33, 35) {
                left = after_first(left, seen)?;
            }
        }
    }
    Ok(())
}

/// Rejects a table that is written at the end.
fn check_table(seen: &Seen) -> Done {
    if seen.card.is_blank(19, 26) {
        return Ok(());
    }
    Err(RuleStop::because(seen.number, "a table that is written at the end (19 to 26)"))
}

/// Returns the starts of the data after those of an E card, which are the first.
fn after_first<'a>(starts: &'a [Address], seen: &Seen) -> Result<&'a [Address], RuleStop> {
    match starts {
        [_, rest @ ..] => Ok(rest),
        [] => Err(RuleStop::because(seen.number, "its data are missing")),
    }
}

/// Inserts the records of an E card's file before the data of a later one.
fn put_records(editor: &mut Editor, settings: &Settings, before: Address, seen: &Seen) -> Done {
    let name = Word::of(seen.card.value(11, 18));
    let Some(text) = settings.records_of(name.text()) else {
        let why = "the records of % are needed: give --table %=FILE";
        return Err(RuleStop::with(seen.number, why, &[name, name]));
    };
    let Some(shape) = TableShape::of(&seen.card) else {
        return Ok(());
    };
    let records = records_of(editor.alloc(), text);
    let records = records.checked()?;
    if let Some(why) = shape.reason(name, records.len()) {
        return Err(RuleStop::refused(seen.number, why));
    }
    let entries = entries_of(editor.alloc(), &shape, records)?;
    put_entries(editor, before, seen, &shape, entries.as_slice())?;
    take_over(editor, &shape, records.len(), seen);
    Ok(())
}

/// Inserts a table's entries after a `**` card.
fn put_entries(
    editor: &mut Editor,
    before: Address,
    seen: &Seen,
    shape: &TableShape,
    entries: &[u8],
) -> Done {
    if !has_only_characters(entries) {
        let name = Word::of(seen.card.value(11, 18));
        return Err(RuleStop::about(seen.number, "% has a byte that is no character", name));
    }
    editor.insert(before, Card::of(b"**"), seen.number);
    shape.put_cards(editor, before, entries, seen.number);
    Ok(())
}

/// Removes the file from an E card, and sets its entries per record to those of a data card.
fn take_over(editor: &mut Editor, shape: &TableShape, records: usize, seen: &Seen) {
    let text = if records == 1 {
        "% record of % stands after ** now; compile again when it changes"
    } else {
        "% records of % stand after ** now; compile again when they change"
    };
    let name = Word::of(seen.card.value(11, 18));
    let sentence = Sentence::with(text, &[Word::of_number(records), name]);
    let mut card = seen.card.with(11, 18, &[]);
    let per_card = shape.per_card();
    if per_card != shape.per_record {
        card = card.with_right(33, 35, Word::of_number(per_card).text());
    }
    editor.rewrite(seen, card, sentence);
}

/// Removes table files.
fn drop_files(editor: &mut Editor, view: &View, with: usize) {
    for seen in &view.cards {
        if is_card(seen, b'F') {
            drop_file(editor, seen, with);
        }
    }
}

/// Removes the F card of a table file, and blanks the letter on others that refers to E cards.
fn drop_file(editor: &mut Editor, file: &Seen, with: usize) {
    if matches!(file.card.columns(15, 16), b"IT") {
        editor.report(file.number, Sentence::of("a table file, taken out"));
        editor.remove(file.at, file.number);
    } else if file.card.column(39) == b'E' {
        editor.change(file.at, file.card.with(39, 39, &[]), with);
    }
}
