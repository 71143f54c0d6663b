//! What the sheets of RPG II have and this profile doesn't support.

use crate::features::FEATURES;
use crate::ranges::{CardKind, character_at, columns_at, is_at, sheet_of};
use rpg_sheet::ColumnFault;

/// The first column of the directives for a listing, whatever column 6 has.
const DIRECTIVE: ColumnFault = ColumnFault { column: 7, last: 7 };

/// The letter of a card that is on no sheet: data and comments may have any character in column 6.
const NO_SHEET: u8 = b'?';

/// Where the patterns of a place begin in its line, after a blank, the letter of the card and the columns.
const PATTERN: usize = 9;

/// A feature of RPG II that isn't supported.
#[derive(Clone, Copy)]
pub(crate) struct Unread {
    pub what: &'static str,
    /// How to do without it; empty if it can't be done.
    pub way: &'static str,
    /// The columns that it is about, if it is reported by itself.
    pub at: Option<ColumnFault>,
    /// Whether it applies whatever its columns hold.
    pub is_any: bool,
}

impl Unread {
    fn of(line: &'static [u8], is_any: bool) -> Unread {
        let (at, line) = match line {
            [b'!', ..] => (Some(columns_at(line, 2)), line.get(7..).unwrap_or(&[])),
            _ => (None, line),
        };
        let text = str::from_utf8(line).unwrap_or("");
        let (what, way) = text.split_once('|').unwrap_or((text, ""));
        Unread {
            what,
            way,
            at,
            is_any,
        }
    }
}

/// Whether rejected columns of a card are those of a place and match one of its patterns.
fn fits(place: &str, letter: u8, line: &[u8], columns: ColumnFault) -> bool {
    let ColumnFault { column, last } = columns_at(place.as_bytes(), 4);
    let mut patterns = place.get(PATTERN..).unwrap_or("").split(' ');
    character_at(place.as_bytes(), 2) == letter
        && column <= columns.column
        && columns.last <= last
        && patterns.any(|pattern| is_at(line, columns.column.into(), pattern.as_bytes()))
}

/// Returns the first feature in columns of a card with this letter.
fn first_at(letter: u8, line: &[u8], columns: ColumnFault) -> Option<Unread> {
    let mut sentence: &'static [u8] = &[];
    for row in FEATURES.lines() {
        if !row.starts_with(' ') {
            sentence = row.as_bytes();
        } else if fits(row, letter, line, columns) {
            return Some(Unread::of(sentence, row.len() < PATTERN));
        }
    }
    None
}

/// Whether columns 1 to 5 hold only blanks and a number, as a card's may.
pub fn has_card_number(line: &[u8]) -> bool {
    (1..6).all(|column| matches!(character_at(line, column), b' ' | b'0'..=b'9'))
}

/// The first and the last column after those that RPG II uses.
const AFTER: ColumnFault = ColumnFault {
    column: 73,
    last: 80,
};

/// Whether the rejected columns of a card belong to a number that fills columns 73 or 74 to 80.
pub(crate) fn has_number_after(line: &[u8], columns: ColumnFault) -> bool {
    if columns.column < AFTER.column {
        return false;
    }
    let is_digit = |column: u8| character_at(line, usize::from(column)).is_ascii_digit();
    let is_blank = character_at(line, usize::from(AFTER.column)) == b' ';
    (is_blank || is_digit(AFTER.column))
        && (AFTER.column.saturating_add(1)..=AFTER.last).all(is_digit)
}

/// Returns which feature of RPG II rejected columns hold, and the workaround; None if they hold no known feature.
pub(crate) fn feature_at(line: &[u8], columns: ColumnFault) -> Option<Unread> {
    let (letter, _) = sheet_of(CardKind::of(line));
    match first_at(b'/', line, DIRECTIVE) {
        Some(directive) => Some(directive),
        None if letter == NO_SHEET && !has_card_number(line) => None,
        None => first_at(letter, line, columns),
    }
}

/// Returns the columns that a diagnostic on rejected columns points at.
pub fn pointed_at(line: &[u8], columns: ColumnFault) -> ColumnFault {
    match feature_at(line, columns) {
        Some(Unread { at: Some(at), .. }) => at,
        _ => columns,
    }
}
