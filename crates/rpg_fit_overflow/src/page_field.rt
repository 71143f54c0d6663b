//! The output fields that print PAGE.

use crate::overflow::Part;
use rpg_fit_deck::Seen;
use rpg_fit_words::{Conditions, Conjunction, Indicator, Line, List, Printer, Term, is};
use std::alloc::Global;

/// A field that prints PAGE, its line, and the lines before that.
#[derive(Clone, Copy)]
pub(crate) struct PageField<'a> {
    pub field: &'a Seen,
    pub line: &'a Line,
    pub earlier: &'a [Line],
}

/// When PAGE is reset for a field.
#[derive(Drop)]
pub(crate) struct Resets {
    /// Before the lines of the field's time.
    pub normal: Conditions,
    /// Before overflow output.
    pub at_overflow: Conditions,
}

/// Whether a field prints PAGE.
pub(crate) fn is_page(field: &Seen) -> bool {
    is(field.card.value(32, 37), b"PAGE")
}

/// Returns the number of a line's first card that prints PAGE.
pub(crate) fn page_card(line: &Line) -> Option<usize> {
    let field = line.fields.iter().find(|field| is_page(field))?;
    Some(field.number)
}

/// Whether calculations reset PAGE for an alternative: it may hold, and not only at the first output, before which there are none.
fn is_live(alternative: &Conjunction, own: &Conjunction) -> bool {
    let first = Term::on(Indicator::FIRST_PAGE);
    !alternative.has(first) && !own.has(first) && !alternative.clashes_with(own)
}

impl PageField<'_> {
    /// Returns its own conditions.
    pub fn own(&self) -> Conjunction {
        Conjunction::at(&self.field.card, 23)
    }

    /// Returns when PAGE is reset: if an alternative of its line and its own conditions hold, without the overflow indicator of overflow
    /// output.
    pub fn resets(&self, alloc: Global, printer: &Printer) -> Resets {
        let own = self.own();
        let mut resets = Resets {
            normal: List::new(alloc),
            at_overflow: List::new(alloc),
        };
        for alternative in self.line.alternatives.iter() {
            let condition = &alternative.condition;
            if is_live(condition, &own) {
                if printer.is_overflow(self.line, condition) {
                    let rest = condition.without(Term::on(printer.overflow));
                    push_new(&mut resets.at_overflow, rest.and_missing(&own));
                } else {
                    push_new(&mut resets.normal, condition.and_missing(&own));
                }
            }
        }
        resets
    }

    /// Returns the time of the cycle at which its line is printed.
    pub fn part(&self) -> Part {
        Part::of(self.line.time)
    }
}

/// Appends a condition, unless it is there.
fn push_new(found: &mut Conditions, condition: Conjunction) {
    let mut others = found.as_slice().iter();
    if !others.any(|other| other.terms() == condition.terms()) {
        found.push(condition);
    }
}
