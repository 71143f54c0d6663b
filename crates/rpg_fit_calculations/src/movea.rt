//! A MOVEA as moves of single entries.

use rpg_fit_deck::Sentence;

/// One side of a MOVEA.
#[derive(Clone, Copy)]
pub(crate) enum Side {
    /// A field or a literal of this many characters.
    Field(usize),
    /// An array from one of its entries on.
    Array(Entries),
}

/// The entries of an array from a given one on.
#[derive(Clone, Copy)]
pub(crate) struct Entries {
    /// The number of the first entry, from 1.
    pub first: usize,
    /// How many entries there are.
    pub count: usize,
    /// The length of an entry.
    pub length: usize,
}

impl Entries {
    /// Returns those that a field's characters fill, or all of them if they are shorter.
    fn filled_by(self, characters: usize) -> Result<Entries, Sentence> {
        let moved = characters.min(self.count.saturating_mul(self.length));
        if self.length == 0 || moved % self.length != 0 {
            return Err(Sentence::of("MOVEA ends within an entry"));
        }
        Ok(Entries {
            count: moved / self.length,
            ..self
        })
    }
}

/// What a MOVEA becomes.
#[derive(Clone, Copy)]
pub(crate) enum Moves {
    /// A MOVEL.
    Left,
    /// A MOVE for each entry.
    EntryToEntry {
        from: usize,
        to: usize,
        count: usize,
    },
    /// Into entries, through work fields.
    Into(Entries),
    /// Out of entries, through work fields.
    OutOf(Entries),
}

/// Returns what a MOVEA becomes, or why moves of entries don't have the same meaning. `is_same`: both sides are the same array.
pub(crate) fn moves_of(from: Side, to: Side, is_same: bool) -> Result<Moves, Sentence> {
    match (from, to) {
        (Side::Field(_), Side::Field(_)) => Ok(Moves::Left),
        (Side::Array(from), Side::Array(to)) => entry_to_entry(from, to, is_same),
        (Side::Field(characters), Side::Array(to)) => Ok(Moves::Into(to.filled_by(characters)?)),
        (Side::Array(from), Side::Field(characters)) => {
            Ok(Moves::OutOf(from.filled_by(characters)?))
        }
    }
}

fn entry_to_entry(from: Entries, to: Entries, is_same: bool) -> Result<Moves, Sentence> {
    if from.length != to.length {
        Err(Sentence::of("MOVEA between entries of other lengths"))
    } else if is_same && from.first < to.first {
        Err(Sentence::of("MOVEA of an array over itself"))
    } else {
        Ok(Moves::EntryToEntry {
            from: from.first,
            to: to.first,
            count: from.count.min(to.count),
        })
    }
}
