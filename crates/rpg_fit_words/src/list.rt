//! Lists that rules fill.

use rpg_fit_terms::{Conjunction, Done, NewCard, Outcome, RuleStop};
use std::alloc::Global;

/// Cards that a rule makes.
pub type Cards = List<NewCard>;

/// Conditions of which one must hold.
pub type Conditions = List<Conjunction>;

/// A list of values. If memory runs out for one, it remembers that, so that only `check` and `checked` return an error.
#[derive(Drop)]
pub struct List<T> {
    values: Vec<T>,
    ran_out: bool,
}

impl<T: Copy> List<T> {
    /// Returns an empty list.
    pub fn new(alloc: Global) -> List<T> {
        List {
            values: Vec::new(alloc),
            ran_out: false,
        }
    }

    /// Appends a value.
    pub fn push(&mut self, value: T) {
        if self.values.push(value).is_err() {
            self.ran_out = true;
        }
    }

    /// Appends values.
    pub fn push_all(&mut self, values: &[T]) {
        for value in values {
            self.push(*value);
        }
    }

    /// Appends the values of another list, and whether memory ran out for one of them.
    pub fn append(&mut self, more: &List<T>) {
        self.ran_out = self.ran_out || more.ran_out;
        self.push_all(more.as_slice());
    }

    /// Returns the values so far.
    pub fn as_slice(&self) -> &[T] {
        self.values.as_slice()
    }

    /// Whether there are no values so far.
    pub fn is_empty(&self) -> bool {
        self.values.is_empty()
    }

    /// Checks that memory ran out for none of the values.
    pub fn check(&self) -> Done {
        self.checked()?;
        Ok(())
    }

    /// Returns all values, in place, unless memory ran out for one of them.
    pub fn checked(&self) -> Outcome<&[T]> {
        if self.ran_out {
            Err(RuleStop::NoMemory)
        } else {
            Ok(self.values.as_slice())
        }
    }
}
