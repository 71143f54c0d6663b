//! The entries that a line blanks.

ghost use Rattle.std.specs.Prelude.{◌≡◌, ◌<◌, ◌≤◌, [], ◌∷◌, ◌++◌, length};

use std::marker::Model;

/// The most fields of a line.
const MOST_FIELDS: usize = 200;

/// The entries, by field and position, that are to be blanked after the line is
/// written.
#[derive(Drop)]
pub struct Entries {
    entries: [(u16, u16); MOST_FIELDS],
    count: usize,
}

impl Model for Entries {
    ghost use Rattle.std.specs.Prelude.{ℕ, List, take, ◌≤◌};

    ghost Value = { List (ℕ × ℕ) };

    ghost view = { λ e. take e.count e.entries };

    ghost invariant = { λ e. e.count ≤ 200 };
}

impl Entries {
    pub fn new() -> Self
        ensures { result ≡ [] }
    {
        Entries {
            entries: [(0, 0); MOST_FIELDS],
            count: 0,
        }
    }

    pub(crate) fn clear(&mut self)
        ensures { self.new ≡ [] }
    {
        self.count = 0;
    }

    #[inline(always)]
    pub(crate) fn push(&mut self, entry: (u16, u16))
        requires { length self.old < 200 }
        ensures { self.new ≡ self.old ++ entry ∷ [] }
    {
        self.entries[self.count] = entry;
        self.count += 1;
    }

    pub(crate) fn as_slice(&self) -> &[(u16, u16)]
        ensures value { result.now ≡ self.now }
        ensures few { length result.now ≤ 200 }
    {
        &self.entries[..self.count]
    }
}
