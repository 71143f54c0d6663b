//! Three or more input files: the secondary ones become the one that `rpg2 records --merge` writes.

use rpg_fit_deck::{Card, Editor, Seen, Sentence, View, Word};
use rpg_fit_terms::address_after;
use rpg_fit_words::{
    Done, List, NewCard, RecordType, RuleStop, file_name, files_read, is, name_types, put_cards,
    record_length, record_types, with_record_length,
};

/// The first columns of a card's codes.
const CODES: [usize; 3] = [21, 28, 35];

/// The most files that are merged, one a letter.
const MOST_FILES: usize = 26;

/// The longest record.
const LONGEST: usize = 9999;

/// Reads all secondary files of a deck as one, by a letter in front of each record. Files whose length can't be read stay, for the
/// compiler to report.
pub fn merged_files(editor: &mut Editor) -> Done {
    let view = editor.view()?;
    let files = secondary_files(&view);
    merge(editor, &view, files.checked()?)
}

fn merge(editor: &mut Editor, view: &View, files: &[Seen]) -> Done {
    let ([first, second, ..], Some(length)) = (files, new_length(files)) else {
        return Ok(());
    };
    let number = second.number;
    check_files(files)?;
    move_types(editor, view, files, file_name(first), number)?;
    editor.change(first.at, with_record_length(&first.card, length), number);
    remove_others(editor, first, files);
    Ok(())
}

/// Moves the columns of the files' types, and puts the first file on them.
fn move_types(editor: &mut Editor, view: &View, files: &[Seen], first: &[u8], with: usize) -> Done {
    let types = record_types(view)?;
    let types = types.as_slice();
    check_types(types, files)?;
    name_types(editor, types, with);
    for kind in types {
        if let Some(place) = place_of(files, kind.file.text()) {
            move_codes(editor, view, kind, letter(place), first, with)?;
            move_fields(editor, kind, with);
        }
    }
    Ok(())
}

/// Returns the cards of the secondary files, in order.
pub fn secondary_files(view: &View) -> List<Seen> {
    let mut found = List::new(view.alloc);
    for file in files_read(view).as_slice() {
        if file.card.column(16) == b'S' {
            found.push(*file);
        }
    }
    found
}

/// Returns the length of the merged records, or None if one can't be read or is too long, or there are too many files.
fn new_length(files: &[Seen]) -> Option<usize> {
    let mut longest = 0;
    for file in files {
        longest = record_length(&file.card)?.max(longest);
    }
    (files.len() <= MOST_FILES && longest < LONGEST).then_some(longest.saturating_add(1))
}

fn place_of(files: &[Seen], name: &[u8]) -> Option<usize> {
    files.iter().position(|file| is(file_name(file), name))
}

/// Returns the letter in front of the records of a file, by its place.
fn letter(place: usize) -> u8 {
    b'A'.saturating_add((place % 26) as u8)
}

/// Rejects files that are written too.
fn check_files(files: &[Seen]) -> Done {
    for file in files {
        if file.card.column(15) != b'I' {
            let first = files.first().unwrap_or(file);
            let why = "a file that is written too, beside a third input file";
            return Err(RuleStop::because(first.number, why));
        }
    }
    Ok(())
}

/// Rejects types with a sequence by number, and those that look ahead.
fn check_types(types: &[RecordType], files: &[Seen]) -> Done {
    let count = Word::of_number(files.len().saturating_add(1));
    for kind in types {
        if place_of(files, kind.file.text()).is_some() {
            check_type(kind, count)?;
        }
    }
    Ok(())
}

fn check_type(kind: &RecordType, count: Word) -> Done {
    let head = &kind.head;
    if head.card.column(15).is_ascii_digit() && head.card.column(16).is_ascii_digit() {
        let why = "a sequence by number in one of % files";
        return Err(RuleStop::about(head.number, why, count));
    }
    if kind.is_looked_ahead() {
        return Err(RuleStop::about(head.number, "look ahead in one of % files", count));
    }
    Ok(())
}

/// Returns a card with the number in columns one greater, if there is one.
fn one_more(card: Card, first: usize, last: usize) -> Card {
    match card.number(first, last) {
        Some(number) => {
            let digits = Word::of_number(number.saturating_add(1));
            card.with_right(first, last, digits.text())
        }
        None => card,
    }
}

fn move_fields(editor: &mut Editor, kind: &RecordType, with: usize) {
    for field in kind.fields.iter() {
        let card = one_more(field.card, 44, 47);
        editor.change(field.at, one_more(card, 48, 51), with);
    }
}

/// Returns the first column of the first code that a card has room for.
fn free_code(card: &Card) -> Option<usize> {
    for column in CODES {
        if card.is_blank(column, column.saturating_add(6)) {
            return Some(column);
        }
    }
    None
}

/// Returns a card with the positions of its codes one to the right.
fn moved_codes(mut card: Card) -> Card {
    for column in CODES {
        card = one_more(card, column, column.saturating_add(3));
    }
    card
}

/// Returns the last card with room for a code, by its place.
fn place_with_room(cards: &[Seen]) -> Option<usize> {
    let mut found = None;
    for (place, seen) in cards.iter().enumerate() {
        if free_code(&seen.card).is_some() {
            found = Some(place);
        }
    }
    found
}

/// Moves the codes of a type one to the right, adds one for its letter, and puts its file on it.
fn move_codes(
    editor: &mut Editor,
    view: &View,
    kind: &RecordType,
    letter: u8,
    file: &[u8],
    with: usize,
) -> Done {
    let head = &kind.head;
    let code = Word::of(b"   1 C").and(&[letter]);
    let cards = kind.code_cards(view.alloc);
    let room = place_with_room(cards.checked()?);
    for (place, seen) in cards.as_slice().iter().enumerate() {
        let mut card = moved_codes(seen.card);
        if let (true, Some(column)) = (room == Some(place), free_code(&card)) {
            card.put(column, column.saturating_add(6), code.text());
        }
        if seen.at == head.at {
            card = card.with(7, 14, file);
        }
        editor.change(seen.at, card, with);
    }
    if room.is_some() {
        return Ok(());
    }
    let and = NewCard::of_form(b'I', head.number).with(14, 16, b"AND");
    let following = address_after(view, kind.more.last().unwrap_or(head).at);
    put_cards(editor, following, &[and.with(21, 27, code.text())], with)
}

/// Removes the cards of all files but the first, and reports their letters.
fn remove_others(editor: &mut Editor, first: &Seen, files: &[Seen]) {
    let name = Word::of(file_name(first));
    let text =
        "% is read with %: rpg2 records --merge puts % in front of its records, and A in front of those of %";
    for (place, file) in files.iter().enumerate() {
        if file.at != first.at {
            let (file_name, letter) = (Word::of(file_name(file)), Word::of(&[letter(place)]));
            let words = [file_name, name, letter, name];
            editor.report(file.number, Sentence { text, words });
            editor.remove(file.at, file.number);
        }
    }
}
