//! Where the entries of a table are on each card of its deck.

ghost use Rattle.std.specs.Prelude.{◌≡◌, ◌≤◌, ◌<◌, ◌+◌, ◌*◌, length};

/// Where the entries of a table are on each card of its deck.
#[derive(Clone, Copy)]
pub(crate) struct Layout {
    pub per_card: usize,
    /// How many columns each takes, including that of an alternating table.
    pub width: usize,
    /// The first column of the first, counted from 0.
    pub from: usize,
    pub length: usize,

    ghost inside: { from + length ≤ width },
    ghost fits: { per_card * width ≤ 80 },
}

impl Layout {
    ghost use Rattle.rpg_faults_data.specs.Data.{entry_on};

    /// Returns an entry on a card, by its number from 0.
    pub(crate) fn entry(self, card: &[u8], number: usize) -> &[u8]
        requires card { length card.now ≡ 80 }
        requires number { number < self.per_card }
        ensures value { result.now ≡ entry_on self.width self.from self.length card.now number }
        ensures length { length result.now ≡ self.length }
    {
        let start = number * self.width + self.from;
        &card[start..start + self.length]
    }
}
