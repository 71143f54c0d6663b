//! Overflow output.

use rpg_fit_words::{Conditions, Indicator, Line, Place, Printer, Term, Time};

/// A time of the cycle at which lines are printed.
#[derive(Clone, Copy)]
pub(crate) enum Part {
    Total,
    /// Heading and detail lines.
    Detail,
}

impl Part {
    /// Returns that of a line's time, which isn't an exception.
    pub fn of(time: Time) -> Part {
        if time == Time::Total {
            Part::Total
        } else {
            Part::Detail
        }
    }

    pub fn has(self, time: Time) -> bool {
        match self {
            Part::Total => time == Time::Total,
            Part::Detail => time.is_detail(),
        }
    }

    /// Returns columns 7 to 8 of its calculations.
    pub fn level(self) -> Indicator {
        match self {
            Part::Total => Indicator::ALWAYS,
            Part::Detail => Indicator::BLANK,
        }
    }

    /// Returns the place for calculations before its lines.
    pub fn end(self) -> Place {
        match self {
            Part::Total => Place::TotalEnd,
            Part::Detail => Place::DetailEnd,
        }
    }
}

/// Whether a line fetches overflow output.
pub(crate) fn fetches(line: &Line) -> bool {
    line.head.card.column(16) == b'F'
}

/// Returns the number of the first line's card that fetches overflow output.
pub(crate) fn first_fetching(lines: &[Line]) -> Option<usize> {
    let line = lines.iter().find(|line| fetches(line))?;
    Some(line.head.number)
}

/// Appends the conditions under which a line is printed at overflow, in order.
pub(crate) fn push_overflow(found: &mut Conditions, printer: &Printer, line: &Line) {
    for alternative in line.alternatives.iter() {
        if printer.is_overflow(line, &alternative.condition) {
            found.push(alternative.condition);
        }
    }
}

/// Whether a line may be printed other than at overflow and at the first output.
pub(crate) fn is_put_later(printer: &Printer, line: &Line) -> bool {
    line.alternatives.iter().any(|alternative| {
        let condition = &alternative.condition;
        !printer.is_overflow(line, condition) && !condition.has(Term::on(Indicator::FIRST_PAGE))
    })
}
