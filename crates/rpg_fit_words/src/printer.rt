//! The printer, its overflow line, and what is printed before any calculation.

use crate::file::file_name;
use crate::line::{Line, Time};
use crate::record_type::{RecordType, record_types};
use rpg_fit_deck::{Card, Seen, View, Word};
use rpg_fit_terms::{Conjunction, Indicator, Outcome, Term, is, is_card};

/// A deck's first printer. If there is none, its name and its overflow indicator are blank, and no line is its overflow line.
#[derive(Clone, Copy)]
pub struct Printer {
    file: Word,
    /// Its overflow indicator, which may be blank.
    pub overflow: Indicator,
    /// The first line of a page that counts as overflow.
    overflow_line: usize,
}

/// The overflow line of a form without an L card.
const OVERFLOW_LINE: usize = 60;

/// Returns the overflow line of a printer: that of the first L card with its name.
fn overflow_line_of(view: &View, file: &[u8]) -> usize {
    for seen in view.cards.iter() {
        if is_card(seen, b'L') && is(file_name(seen), file) {
            return seen.card.number(20, 22).unwrap_or(OVERFLOW_LINE);
        }
    }
    OVERFLOW_LINE
}

/// Returns the card of a deck's first printer.
pub fn printer_card(view: &View) -> Option<&Seen> {
    let mut cards = view.cards.iter();
    cards.find(|seen| is_card(*seen, b'F') && is(seen.card.value(40, 46), b"PRINTER"))
}

/// Returns the line that two columns skip to: A0 to A9 are 100 to 109, and B0 to B2 are 110 to 112.
fn skip(card: &Card, column: usize) -> usize {
    let last = column.saturating_add(1);
    let (hundred, first) = match card.column(column) {
        b'A' => (100, last),
        b'B' => (110, last),
        _ => (0, column),
    };
    let line = card.number(first, last).unwrap_or(0);
    line.saturating_add(hundred)
}

/// Returns the last line of the page that printing a line's card may reach, from line `at`.
fn line_following(at: usize, card: &Card) -> usize {
    let (before, after) = (card.number(17, 17), card.number(18, 18));
    let spaces = before.unwrap_or(0).saturating_add(after.unwrap_or(0));
    let moved = if card.is_blank(17, 22) { 1 } else { spaces };
    let before = skip(card, 19).saturating_add(spaces);
    let after = skip(card, 21).saturating_add(spaces);
    at.saturating_add(moved).max(before).max(after)
}

/// Returns how many types have control fields.
fn count_leveled(types: &[RecordType]) -> usize {
    let mut count: usize = 0;
    for kind in types {
        count = count.saturating_add(usize::from(kind.has_levels()));
    }
    count
}

impl Printer {
    /// Returns that of a deck.
    pub fn of(view: &View) -> Printer {
        match printer_card(view) {
            Some(seen) => Printer {
                file: Word::of(file_name(seen)),
                overflow: Indicator::at(&seen.card, 33),
                overflow_line: overflow_line_of(view, file_name(seen)),
            },
            None => Printer {
                file: Word::empty(),
                overflow: Indicator::BLANK,
                overflow_line: usize::MAX,
            },
        }
    }

    fn has(&self, line: &Line) -> bool {
        is(self.file.text(), line.file.text())
    }

    /// Whether a line is printed at overflow under a condition.
    pub fn is_overflow(&self, line: &Line, condition: &Conjunction) -> bool {
        !self.overflow.is_blank()
            && line.time != Time::Exception
            && self.has(line)
            && condition.has(Term::on(self.overflow))
    }

    /// Whether a condition tests the overflow indicator.
    pub fn is_tested(&self, condition: &Conjunction) -> bool {
        !self.overflow.is_blank() && condition.tests(self.overflow)
    }

    /// Whether a line has an alternative for overflow.
    pub fn has_overflow(&self, line: &Line) -> bool {
        let mut alternatives = line.alternatives.iter();
        alternatives.any(|alternative| self.is_overflow(line, &alternative.condition))
    }

    /// Whether the first output may reach the overflow line.
    pub fn reaches_overflow(&self, lines: &[Line]) -> bool {
        let mut at = 1;
        for line in lines {
            if self.has(line) && line.is_put_first() {
                at = line_following(at, &line.head.card);
            }
        }
        at >= self.overflow_line
    }

    /// Whether overflow output may come before any total calculation: the first output reaches the overflow line, or only some types
    /// have control fields.
    pub fn is_total_skipped_late(&self, view: &View, lines: &[Line]) -> Outcome<bool> {
        let types = record_types(view)?;
        let leveled = count_leveled(types.as_slice());
        Ok(leveled > 0 && leveled < types.len() || self.reaches_overflow(lines))
    }
}
