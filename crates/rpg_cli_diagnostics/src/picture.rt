//! A line below a ruler, with a mark under its columns.

use crate::value::{Columns, Line};
use rpg_cli_text::TextWriter;
use rpg_text::trimmed;

const COLUMNS: usize = 80;

const MARGIN: &str = "      | ";

/// A ruler: a digit at each tenth column, a plus at each fifth.
const RULER: &str =
    "....+....1....+....2....+....3....+....4....+....5....+....6....+....7....+....8";

/// The escape sequence for bold red, which colours a mark on a terminal.
const BOLD_RED: &str = "\x1b[1;31m";

const PLAIN: &str = "\x1b[0m";

pub fn write_times(out: &mut TextWriter, character: char, count: usize) {
    for _ in 0..count {
        out.write_char(character);
    }
}

/// Writes the columns of a card, and the first one past them.
pub fn write_card(out: &mut TextWriter, line: &[u8]) {
    out.write_shown(line.get(..COLUMNS + 1).unwrap_or(line));
}

/// Writes a ruler in tens of columns, long enough for the text of a line and for its columns.
fn write_ruler(out: &mut TextWriter, line: Line<'_>) {
    let last = line.columns.map_or(0, |columns| columns.last);
    let columns = trimmed(line.bytes).len().max(last).min(COLUMNS);
    out.write_str(RULER.get(..(columns + 9) / 10 * 10).unwrap_or(RULER));
}

/// Returns what a line has in a column; a blank past its end.
fn character_at(line: &[u8], column: usize) -> u8 {
    line.get(column.saturating_sub(1)).copied().unwrap_or(b' ')
}

/// Whether a column of a line is marked, if it is one of its columns.
fn is_marked(line: Line<'_>, column: usize) -> bool {
    line.new.is_empty() || character_at(line.bytes, column) != character_at(line.new, column)
}

fn write_marks(out: &mut TextWriter, line: Line<'_>, columns: Columns) {
    write_times(out, ' ', columns.first.saturating_sub(1));
    for column in columns.first..=columns.last {
        out.write_char(if is_marked(line, column) { '^' } else { ' ' });
    }
}

fn write_mark_line(out: &mut TextWriter, line: Line<'_>, columns: Columns, has_colours: bool) {
    let (begin, end) = if has_colours {
        (BOLD_RED, PLAIN)
    } else {
        ("", "")
    };
    out.write_str(MARGIN);
    out.write_str(begin);
    write_marks(out, line, columns);
    out.write_str(end);
    out.write_char('\n');
}

/// Writes a line with its number below a ruler, and a mark under its columns if it has some.
pub(crate) fn write_picture(out: &mut TextWriter, line: Line<'_>, has_colours: bool) {
    out.write_str(MARGIN);
    write_ruler(out, line);
    out.fill("\n{:>5} | ", &[line.number.into()]);
    write_card(out, trimmed(line.bytes));
    out.write_char('\n');
    if let Some(columns) = line.columns {
        write_mark_line(out, line, columns, has_colours);
    }
}
