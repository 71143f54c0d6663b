//! How many names or constants there are, and the bytes that they take.

ghost use Rattle.std.specs.Prelude.{◌≡◌, ◌++◌, ◌∷◌, [], ◌<◌, ◌^◌, length, IfOk, OnOk};
ghost use Rattle.rpg_symbols.specs.Totals.{is_counted_at, first_totals, with_item};

use std::alloc::{AllocError, Global};
use std::marker::Model;

/// How many different names or constants there are, and the bytes that they take.
#[derive(Clone, Copy)]
pub struct Totals {
    pub number: u64,
    pub bytes: u64,
}

impl Totals {
    /// The date and the page number.
    pub const GIVEN: Totals = Totals {
        number: 2,
        bytes: 10,
    };

    pub const NONE: Totals = Totals {
        number: 0,
        bytes: 0,
    };

    /// Returns the totals with one more item, which counts if it is new.
    fn with(self, is_new: bool, bytes: u32) -> Self
        requires number { self.number < 2 ^ 63 }
        requires bytes { self.bytes < 2 ^ 63 }
        ensures { result ≡ with_item self is_new bytes }
    {
        if is_new {
            Totals {
                number: self.number + 1,
                bytes: self.bytes + u64::from(bytes),
            }
        } else {
            self
        }
    }
}

/// The totals of the first items of a list, for each number of items.
#[derive(Drop)]
pub struct RunningTotals {
    /// Before each item.
    before: Vec<Totals>,
    all: Totals,
}

impl Model for RunningTotals {
    ghost use Rattle.rpg_symbols.specs.Totals.{TotalsByItem};

    ghost Value = { TotalsByItem };

    ghost view = { λ r. record { before = r.before.items; all = r.all } };
}

impl RunningTotals {
    /// Returns the totals of known items alone, with room for `count` items after them.
    pub fn with_capacity(alloc: Global, known: Totals, count: usize) -> Result<Self, AllocError>
        ensures { IfOk result (λ totals. totals ≡ record { before = []; all = known }) }
    {
        Ok(RunningTotals {
            before: Vec::with_capacity(alloc, count)?,
            all: known,
        })
    }

    /// Returns the number of items, which is the place of the next one.
    pub fn count(&self) -> usize
        ensures { result ≡ length self.now.before }
    {
        self.before.len()
    }

    /// Adds an item, which counts if it is new.
    pub fn push(&mut self, is_new: bool, bytes: u32) -> Result<(), AllocError>
        requires number { self.old.all.number < 2 ^ 63 }
        requires bytes { self.old.all.bytes < 2 ^ 63 }
        ensures before { OnOk result (self.new.before ≡ self.old.before ++ self.old.all ∷ []) }
        ensures all { OnOk result (self.new.all ≡ with_item self.old.all is_new bytes) }
    {
        self.before.push(self.all)?;
        self.all = self.all.with(is_new, bytes);
        Ok(())
    }

    /// Returns the totals of all items.
    pub fn all(&self) -> Totals
        ensures { result ≡ self.now.all }
    {
        self.all
    }

    /// Returns the totals of the first `count` items, or of all if there are fewer.
    pub fn first(&self, count: usize) -> Totals
        ensures { result ≡ first_totals self.now count }
    {
        match self.before.get(count) {
            Some(totals) => *totals,
            None => self.all,
        }
    }

    /// Whether the item at a place counts, because it was new.
    pub fn counts(&self, place: usize) -> bool
        ensures { result ≡ is_counted_at self.now place }
    {
        match self.before.get(place) {
            Some(before) => before.number < self.first(place + 1).number,
            None => false,
        }
    }
}
