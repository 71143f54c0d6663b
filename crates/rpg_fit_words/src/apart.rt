//! Conditions that never hold together with others.

use crate::list::{Conditions, List};
use rpg_fit_terms::{Conjunction, Done, Indicator, Outcome, RuleStop};
use std::alloc::Global;

/// The most alternatives of a line, since no deck has more cards.
const MOST_ALTERNATIVES: usize = 2000;

/// What alternatives are made for.
#[derive(Clone, Copy)]
pub struct Apart {
    pub alloc: Global,
    /// The deck's overflow indicator, which may be blank. No alternative may test it.
    pub overflow: Indicator,
    /// The card that a rejection is reported for.
    pub card: usize,
}

impl Apart {
    /// Returns conditions that hold if one of some does and another one doesn't. Rejects one that would test overflow, and more than 2,000.
    pub fn without(&self, some: &[Conjunction], other: &Conjunction) -> Outcome<Conditions> {
        let mut left = List::new(self.alloc);
        for condition in some {
            if condition.clashes_with(other) {
                left.push(*condition);
            } else {
                self.push_negated(&mut left, condition, other)?;
            }
        }
        Ok(left)
    }

    /// Appends conditions that hold if one does and another one doesn't: for each term of that one, the terms before it and its opposite.
    fn push_negated(&self, left: &mut Conditions, one: &Conjunction, other: &Conjunction) -> Done {
        let mut met = *one;
        for term in other.terms() {
            if !one.has(*term) {
                self.check(term.indicator, left.as_slice().len())?;
                left.push(met.and(term.opposite()));
                met.push(*term);
            }
        }
        Ok(())
    }

    /// Rejects an alternative that would test overflow, or is one too many: an earlier line may turn overflow on.
    fn check(&self, tested: Indicator, alternatives: usize) -> Done {
        if !self.overflow.is_blank() && tested == self.overflow {
            return Err(RuleStop::because(self.card, "an earlier alternative tests overflow"));
        }
        if alternatives >= MOST_ALTERNATIVES {
            return Err(RuleStop::because(self.card, "more than 2000 alternatives"));
        }
        Ok(())
    }
}
