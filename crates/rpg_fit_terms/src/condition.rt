//! Conditions: indicators that must be on or off together.

use crate::indicator::Indicator;
use crate::stop::{Done, RuleStop};
use rpg_fit_deck::{Card, Sentence, Word};

/// The most conditions of an alternative.
const MOST_TERMS: usize = 60;

/// The most conditions of a card.
const TERMS_OF_CARD: usize = 3;

/// An indicator that must be on, or off.
#[derive(Clone, Copy, PartialEq, Eq)]
pub struct Term {
    /// Whether it must be off: N.
    pub is_off: bool,
    pub indicator: Indicator,
}

impl Term {
    /// Returns the term of an indicator that must be on.
    pub fn on(indicator: Indicator) -> Term {
        Term {
            is_off: false,
            indicator,
        }
    }

    /// Returns the term of an indicator that must be off.
    pub fn off(indicator: Indicator) -> Term {
        Term {
            is_off: true,
            indicator,
        }
    }

    /// Returns the opposite term.
    pub fn opposite(self) -> Term {
        Term {
            is_off: !self.is_off,
            indicator: self.indicator,
        }
    }

    /// Whether it holds at the first output, when only L0 and 1P are on.
    pub fn holds_first(self) -> bool {
        let is_on = self.indicator == Indicator::ALWAYS || self.indicator == Indicator::FIRST_PAGE;
        is_on != self.is_off
    }
}

/// Conditions that must hold together, in order. It keeps 60 and remembers if there were more.
#[derive(Clone, Copy)]
pub struct Conjunction {
    terms: [Term; 60],
    length: usize,
    is_too_long: bool,
}

impl Conjunction {
    /// Returns the condition that always holds.
    pub fn none() -> Conjunction {
        Conjunction {
            terms: [Term::on(Indicator::BLANK); MOST_TERMS],
            length: 0,
            is_too_long: false,
        }
    }

    /// Returns the condition of one indicator that must be on.
    pub fn on(indicator: Indicator) -> Conjunction {
        Conjunction::none().and(Term::on(indicator))
    }

    /// Returns the conditions in nine columns of a card, from `column` on.
    pub fn at(card: &Card, column: usize) -> Conjunction {
        let mut condition = Conjunction::none();
        for place in 0..TERMS_OF_CARD {
            let first = column.saturating_add(place.saturating_mul(3));
            if !card.is_blank(first, first.saturating_add(2)) {
                condition.push(Term {
                    is_off: card.column(first) == b'N',
                    indicator: Indicator::at(card, first.saturating_add(1)),
                });
            }
        }
        condition
    }

    /// Returns its terms.
    pub fn terms(&self) -> &[Term] {
        self.terms.get(..self.length).unwrap_or(&[])
    }

    /// Rejects more than 60 terms, for a card.
    pub fn check(&self, card: usize) -> Done {
        if self.is_too_long {
            return Err(RuleStop::refused(card, Sentence::of("more than 60 conditions together")));
        }
        Ok(())
    }

    /// Appends a term.
    pub fn push(&mut self, term: Term) {
        if let Some(there) = self.terms.get_mut(self.length) {
            *there = term;
            self.length = self.length.saturating_add(1);
        } else {
            self.is_too_long = true;
        }
    }

    /// Returns this condition with one more term.
    pub fn and(mut self, term: Term) -> Conjunction {
        self.push(term);
        self
    }

    /// Returns this condition with all terms of another one.
    pub fn and_all(mut self, other: &Conjunction) -> Conjunction {
        for term in other.terms() {
            self.push(*term);
        }
        self.is_too_long = self.is_too_long || other.is_too_long;
        self
    }

    /// Returns this condition with those terms of another one that it lacks.
    pub fn and_missing(mut self, other: &Conjunction) -> Conjunction {
        for term in other.terms() {
            if !self.has(*term) {
                self.push(*term);
            }
        }
        self.is_too_long = self.is_too_long || other.is_too_long;
        self
    }

    /// Returns this condition without a term.
    pub fn without(&self, term: Term) -> Conjunction {
        let mut rest = Conjunction::none();
        for one in self.terms() {
            if *one != term {
                rest.push(*one);
            }
        }
        rest.is_too_long = self.is_too_long;
        rest
    }

    /// Whether it has a term.
    pub fn has(&self, term: Term) -> bool {
        self.terms().iter().any(|one| *one == term)
    }

    /// Whether it tests an indicator, on or off.
    pub fn tests(&self, indicator: Indicator) -> bool {
        self.terms().iter().any(|one| one.indicator == indicator)
    }

    /// Whether it has the opposite of a term of another condition.
    fn is_against(&self, other: &Conjunction) -> bool {
        self.terms().iter().any(|one| other.has(one.opposite()))
    }

    /// Whether it never holds together with another one: an indicator would have to be on and off.
    pub fn clashes_with(&self, other: &Conjunction) -> bool {
        self.is_against(self) || other.is_against(other) || self.is_against(other)
    }

    /// Whether it holds at the first output, when only L0 and 1P are on.
    pub fn holds_first(&self) -> bool {
        self.terms().iter().all(|one| one.holds_first())
    }

    /// Returns how many cards its terms need, at least one.
    pub fn cards(&self) -> usize {
        self.length.div_ceil(TERMS_OF_CARD).max(1)
    }

    /// Returns the terms of one of its cards, counted from 0, as nine columns have them.
    pub fn columns(&self, card: usize) -> Word {
        let first = card.saturating_mul(TERMS_OF_CARD);
        let last = first.saturating_add(TERMS_OF_CARD).min(self.length);
        let mut word = Word::empty();
        for term in self.terms().get(first..last).unwrap_or(&[]) {
            word.push(if term.is_off { b'N' } else { b' ' });
            word.push_all(term.indicator.word().text());
        }
        word
    }
}
