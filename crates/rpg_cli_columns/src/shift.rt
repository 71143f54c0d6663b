//! Texts that are shifted by a column or two from the columns they belong in.

use crate::ranges::{CardKind, WantedRange, character_at, range_of, write_columns};
use rpg_cli_diagnostics::Draft;
use rpg_sheet::{Card, ColumnFault};
use rpg_text::has_only_characters;

const COLUMNS: usize = 80;

const FORM_TYPE: usize = 6;

/// The first and the last column that sheets use.
const FIRST: usize = 7;

const LAST: usize = 74;

/// Columns of a card, counted from 1, whose text is shifted as a whole.
#[derive(Clone, Copy)]
struct Run {
    first: usize,
    last: usize,
}

/// How many columns a text is shifted to the right; to the left if it is negative.
#[derive(Clone, Copy)]
struct Move(isize);

impl Run {
    fn has(self, column: usize) -> bool {
        self.first <= column && column <= self.last
    }
}

impl Move {
    fn back(self) -> Move {
        Move(self.0.saturating_neg())
    }

    fn applied_to(self, column: usize) -> usize {
        column.saturating_add_signed(self.0)
    }

    fn words(self) -> &'static str {
        match self.0 {
            1 => "one column to the right",
            -1 => "one column to the left",
            2 => "two columns to the right",
            _ => "two columns to the left",
        }
    }
}

/// Whether the columns that a text is shifted to are on the card, and blank except for the text's own.
fn has_room(line: &[u8], run: Run, by: Move) -> bool {
    let first = by.applied_to(run.first);
    let last = by.applied_to(run.last);
    let mut columns = first..=last;
    let is_free = columns.all(|column| run.has(column) || character_at(line, column) == b' ');
    is_free && first > 0 && last <= COLUMNS
}

/// Returns the character in a column after a text is shifted.
fn moved_at(line: &[u8], run: Run, by: Move, column: usize) -> u8 {
    let source = by.back().applied_to(column);
    if run.has(source) {
        character_at(line, source)
    } else if run.has(column) {
        b' '
    } else {
        character_at(line, column)
    }
}

/// Whether a card can be read after a text is shifted.
fn helps(line: &[u8], run: Run, by: Move) -> bool {
    if !has_room(line, run, by) {
        return false;
    }
    let mut moved = [b' '; 80];
    for (place, byte) in moved.iter_mut().enumerate() {
        *byte = moved_at(line, run, by, place.saturating_add(1));
    }
    is_readable(&moved)
}

/// Whether a card can be read, as one of the sheet that its column 6 names.
pub(crate) fn is_readable(line: &[u8; 80]) -> bool {
    if !has_only_characters(line) {
        return false;
    }
    let card = Card::new(line);
    match card.form_type() {
        Some(sheet) => !card.is_skipped() && card.read(sheet).is_ok(),
        None => false,
    }
}

fn is_in_range(line: &[u8], column: usize) -> bool {
    range_of(CardKind::of(line), WantedRange::Around(column)).is_some()
}

/// Whether shifting a text helps and brings it to columns that sheets use, since unused ones allow any text. If the whole card is shifted,
/// only its first text has to.
fn helps_run(line: &[u8], run: Run, by: Move, is_card: bool) -> bool {
    is_in_range(line, by.applied_to(run.first))
        && (is_card || is_in_range(line, by.applied_to(run.last)))
        && helps(line, run, by)
}

fn word_at(line: &[u8], column: usize) -> Run {
    let mut first = FIRST;
    for at in FIRST..column {
        if character_at(line, at) == b' ' {
            first = at.saturating_add(1);
        }
    }
    let mut columns = column..LAST;
    let end = columns.find(|at| character_at(line, at.saturating_add(1)) == b' ');
    let last = end.unwrap_or(LAST);
    Run { first, last }
}

fn rest_from(line: &[u8], first: usize) -> Run {
    let mut last = first;
    for column in first..=LAST {
        if character_at(line, column) != b' ' {
            last = column;
        }
    }
    Run { first, last }
}

/// Adds that a text is to be moved, or the whole card.
fn add_move(draft: &mut Draft<'_>, line: &[u8], run: Run, by: Move, is_card: bool) {
    let mut remark = draft.text();
    if is_card {
        remark.write_str("move the card");
    } else {
        remark.write_str("move \"");
        write_columns(&mut remark, line, run.first, run.last);
        remark.write_char('"');
    }
    remark.fill_one(" {}", by.words());
    draft.remark(remark);
}

/// Adds the shift of a text, or of the whole card, that makes the card readable, if exactly one does.
fn add_run_move(draft: &mut Draft<'_>, line: &[u8], run: Run, by: Move, is_card: bool) -> bool {
    let right = helps_run(line, run, by, is_card);
    if right == helps_run(line, run, by.back(), is_card) {
        return false;
    }
    let only = if right { by } else { by.back() };
    add_move(draft, line, run, only, is_card);
    true
}

/// Like `add_run_move`, for each text that the rejected columns have a part of.
fn add_word_move(draft: &mut Draft<'_>, line: &[u8], refused: ColumnFault, by: Move) -> bool {
    let first = usize::from(refused.column);
    let mut before = b' ';
    for column in first..=usize::from(refused.last) {
        let character = character_at(line, column);
        let begins_text = before == b' ' && character != b' ';
        if begins_text && add_run_move(draft, line, word_at(line, column), by, false) {
            return true;
        }
        before = character;
    }
    false
}

/// Adds which text, or whether the whole card, can be read after a shift by a column or, at most, a few. Adds nothing if no shift helps, or
/// both ways do.
pub(crate) fn add_moves(draft: &mut Draft<'_>, line: &[u8], refused: ColumnFault, most: isize) {
    let first = (FIRST..=LAST).find(|column| character_at(line, *column) != b' ');
    for by in 1..=most {
        if add_word_move(draft, line, refused, Move(by)) {
            return;
        }
        if let Some(first) = first {
            if add_run_move(draft, line, rest_from(line, first), Move(by), true) {
                return;
            }
        }
    }
}

/// Adds that a card is to be moved, if that brings a form type into its column and makes the card readable.
fn add_card_move_by(draft: &mut Draft<'_>, line: &[u8], by: Move) -> bool {
    let column = by.back().applied_to(FORM_TYPE);
    let run = rest_from(line, column);
    let is_in_word = character_at(line, column.saturating_sub(1)).is_ascii_alphabetic();
    if is_in_word || !helps(line, run, by) {
        return false;
    }
    add_move(draft, line, run, by, true);
    true
}

/// Adds where a card is to be moved, if it can be read after a shift.
pub(crate) fn add_card_move(draft: &mut Draft<'_>, line: &[u8]) {
    for by in 1..=2 {
        let by = Move(by);
        if add_card_move_by(draft, line, by) || add_card_move_by(draft, line, by.back()) {
            return;
        }
    }
}
