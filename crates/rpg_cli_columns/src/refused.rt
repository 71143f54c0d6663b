//! Messages about columns that are rejected, and operations similar to a misspelt one.

use crate::ranges::{CardKind, Range, WantedRange, character_at, range_of, text_in, write_columns};
use crate::shift::{add_card_move, add_moves, is_readable};
use crate::unread::{Unread, feature_at, has_number_after};
use rpg_cli_diagnostics::Draft;
use rpg_cli_text::{TextWriter, is_near};
use rpg_sheet::{ColumnFault, Operation};
use rpg_text::trimmed;

/// Whether columns of a card are those of an operation.
fn is_operation(line: &[u8], columns: ColumnFault) -> bool {
    matches!((columns.column, columns.last), (28, 32))
        && matches!(CardKind::of(line), CardKind::Calculation)
}

/// Returns the operations whose names are similar to a text; None for the second if there is one, and none if there are more than two.
fn near_operations(text: &[u8]) -> (Option<Operation>, Option<Operation>) {
    let mut meant = (None, None);
    for operation in Operation::ALL {
        if is_near(text, trimmed(operation.letters())) {
            meant = match meant {
                (None, _) => (Some(operation), None),
                (first, None) => (first, Some(operation)),
                _ => return (None, None),
            };
        }
    }
    meant
}

fn meant_by(sign: &[u8]) -> &'static str {
    match sign {
        b"*" => "MULT",
        b"+" => "ADD",
        b"-" => "SUB",
        b"/" => "DIV",
        b"=" => "Z-ADD (a number) or MOVE",
        _ => "",
    }
}

/// Adds which operation may be meant by rejected columns, or which two, if they have a misspelt operation or a sign.
fn add_near_operations(draft: &mut Draft<'_>, line: &[u8], columns: ColumnFault) {
    let text = text_in(line, columns);
    if !is_operation(line, columns) || text.contains(&b' ') {
        return;
    }
    let mut remark = draft.text();
    match (near_operations(text), meant_by(text)) {
        ((None, _), "") => return,
        ((None, _), word) => remark.fill_one("is {} meant?", word),
        ((Some(it), None), _) => remark.fill_one("is {} meant?", trimmed(it.letters())),
        ((Some(first), Some(second)), _) => remark.fill_two(
            "is {} or {} meant?",
            trimmed(first.letters()),
            trimmed(second.letters()),
        ),
    }
    draft.remark(remark);
}

const FORM_TYPE: ColumnFault = ColumnFault { column: 6, last: 6 };

/// What is added if there is a small letter.
const CAPITALS: &str = ", and letters are capitals";

/// Writes what a feature is, with the text of the columns that it is about, and adds how to do without it.
fn write_feature(draft: &mut Draft<'_>, line: &[u8], feature: Unread) {
    let at = feature.at.unwrap_or(FORM_TYPE);
    draft.message.fill_one(feature.what, text_in(line, at));
    if !feature.way.is_empty() {
        let mut remark = draft.text();
        remark.write_str(feature.way);
        draft.remark(remark);
    }
}

/// Writes what is wrong with column 6: a directive, a sheet that isn't supported, a card in the wrong columns, or a comment.
pub fn write_form_type(draft: &mut Draft<'_>, line: &[u8]) {
    let feature = feature_at(line, FORM_TYPE);
    let form = character_at(line, 6);
    if !matches!(feature, Some(Unread { at: Some(_), .. })) {
        let found = [form];
        let out = &mut draft.message;
        out.fill_one("column 6 has \"{}\": ", found.as_slice());
    }
    if let Some(feature) = feature {
        write_feature(draft, line, feature);
        return;
    }
    let out = &mut draft.message;
    out.write_str("a form type is H, F, E, L, I, C or O");
    if form.is_ascii_lowercase() {
        out.write_str(CAPITALS);
    }
    if line.iter().copied().find(|byte| *byte != b' ') == Some(b'*') {
        out.write_str("; a comment has * in column 7");
    }
    add_card_move(draft, line);
}

const NUMBER_AFTER: &str =
    "columns 73 to 80 look like a card number: only 75 to 80 are free; `cut -c1-72` takes the numbers away";

/// What a rejected text is that begins in the first of its columns.
#[derive(Clone, Copy)]
enum Text {
    /// A text that could be read in capitals.
    SmallLetters,
    /// A name of so many characters.
    LongName(usize),
    Operation,
    Other,
}

impl Text {
    fn of(line: &[u8], columns: ColumnFault) -> Text {
        if character_at(line, columns.column.into()) == b' ' {
            Text::Other
        } else if capitalised(line, columns).is_some() {
            Text::SmallLetters
        } else if is_operation(line, columns) {
            Text::Operation
        } else {
            match long_name(line, columns) {
                Some(length) => Text::LongName(length),
                None => Text::Other,
            }
        }
    }
}

/// Returns a card with capitals in columns that have small letters, if it can be read then.
pub fn capitalised(line: &[u8], columns: ColumnFault) -> Option<[u8; 80]> {
    if !has_small_letter(text_in(line, columns)) {
        return None;
    }
    let mut card = [b' '; 80];
    for (place, byte) in card.iter_mut().enumerate() {
        let column = place.saturating_add(1);
        let character = character_at(line, column);
        let is_before = column < usize::from(columns.column);
        *byte = if is_before || usize::from(columns.last) < column {
            character
        } else {
            character.to_ascii_uppercase()
        };
    }
    if is_readable(&card) { Some(card) } else { None }
}

pub fn before_comma(text: &[u8]) -> &[u8] {
    match text.iter().position(|byte| *byte == b',') {
        Some(place) => text.get(..place).unwrap_or(text),
        None => text,
    }
}

/// Returns the length of a name in a factor, up to its index, if that is too long.
fn long_name(line: &[u8], columns: ColumnFault) -> Option<usize> {
    let text = text_in(line, columns);
    let name = before_comma(text);
    let is_factor = matches!((columns.column, columns.last), (18, 27) | (33, 42));
    (is_factor && is_word(name) && name.len() > 6).then_some(name.len())
}

/// Writes which columns have a bad value: what they hold, and what that is in RPG II or what they may hold. Adds the workaround, and which
/// text is in the wrong columns.
pub fn write_bad_columns(draft: &mut Draft<'_>, line: &[u8], columns: ColumnFault) {
    let range = range_of(CardKind::of(line), WantedRange::Columns(columns));
    let feature = feature_at(line, columns);
    let text = match feature {
        Some(_) => Text::Other,
        None => Text::of(line, columns),
    };
    if !matches!(feature, Some(Unread { at: Some(_), .. })) {
        write_columns_found(&mut draft.message, line, columns, range, text);
    }
    if has_number_after(line, columns) {
        draft.message.write_str(NUMBER_AFTER);
        return;
    }
    match (feature, text) {
        (Some(feature), _) => {
            write_feature(draft, line, feature);
            if feature.is_any {
                add_moves(draft, line, columns, 1);
            }
        }
        (None, Text::SmallLetters) => draft.message.write_str("letters are capitals"),
        (None, Text::LongName(length)) => draft
            .message
            .fill_one("a name has at most 6 characters, and this has {}", length),
        (None, Text::Operation | Text::Other) => {
            write_wanted(&mut draft.message, line, columns, range);
            write_overlong(&mut draft.message, line, columns);
            add_near_operations(draft, line, columns);
            add_moves(draft, line, columns, 2);
        }
    }
}

fn write_columns_found(
    out: &mut TextWriter,
    line: &[u8],
    columns: ColumnFault,
    range: Option<Range>,
    text: Text,
) {
    match range {
        Some(range) => out.fill_one("{} (", range.name),
        None => out.write_str("column "),
    }
    let ColumnFault { column, last } = columns;
    let numbers = if column < last { "{}-{}" } else { "{}" };
    out.fill_two(numbers, column, last);
    out.write_str(if range.is_some() {
        ") has \""
    } else {
        " has \""
    });
    match text {
        Text::Other => write_columns(out, line, column.into(), last.into()),
        _ => out.write_shown(text_in(line, columns)),
    }
    out.write_str("\": ");
}

fn has_small_letter(text: &[u8]) -> bool {
    text.iter().any(|byte| byte.is_ascii_lowercase())
}

/// Whether a text is a letter, and letters and digits after it.
fn is_word(text: &[u8]) -> bool {
    matches!(text, [b'A'..=b'Z', ..])
        && text
            .iter()
            .all(|byte| matches!(byte, b'A'..=b'Z' | b'0'..=b'9'))
}

/// Whether columns that may have a text between apostrophes have the first apostrophe and no other.
fn is_unclosed(line: &[u8], columns: ColumnFault) -> bool {
    let ColumnFault { column, last } = columns;
    if !matches!((column, last), (18, 27) | (33, 42) | (45, 70)) {
        return false;
    }
    let is_apostrophe = |place: u8| character_at(line, usize::from(place)) == b'\'';
    is_apostrophe(column) && !(column.saturating_add(1)..=last).any(is_apostrophe)
}

fn write_wanted(out: &mut TextWriter, line: &[u8], columns: ColumnFault, range: Option<Range>) {
    match range {
        Some(_) if is_unclosed(line, columns) => {
            out.fill_one("no closing apostrophe up to column {}", columns.last);
            return;
        }
        Some(range) => out.write_str(range.wanted),
        None => out.write_str("it must be blank on such a card"),
    }
    if has_small_letter(text_in(line, columns)) {
        out.write_str(CAPITALS);
    }
}

/// Writes that a name which continues from the columns before these may be too long for its own.
fn write_overlong(out: &mut TextWriter, line: &[u8], columns: ColumnFault) {
    let before = range_of(CardKind::of(line), WantedRange::NameBefore(columns.column));
    let Some(range) = before else {
        return;
    };
    let ColumnFault { column, last } = range.columns;
    let mut filled = column..=columns.column;
    if filled.all(|column| character_at(line, usize::from(column)) != b' ') {
        let length = columns.column.saturating_sub(column);
        out.fill(
            "; or {} ({}-{}) is longer than its {} columns",
            &[range.name.into(), column.into(), last.into(), length.into()],
        );
    }
}
