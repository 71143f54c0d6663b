//! The contents of a record's column.

ghost use Rattle.std.specs.Prelude.{◌≡◌};
ghost use Rattle.rpg_records.specs.Columns.{column_kind_number};

/// The contents of a record's column, which determine the character of its byte.
#[derive(Clone, Copy)]
pub enum Column {
    /// A character.
    Text,
    /// The last digit of a zoned number, with its sign.
    LastPlace,
    /// A byte of a packed or binary number, whose digits are elsewhere.
    Number,
    /// Anything: a byte that isn't a character counts as a blank.
    Unnamed,
}

impl Column {
    /// Returns its row in a translation's table.
    #[inline(always)]
    pub(crate) fn row(self) -> usize
        ensures { result ≡ column_kind_number self }
    {
        match self {
            Column::Text => 0,
            Column::LastPlace => 1,
            Column::Number => 2,
            Column::Unnamed => 3,
        }
    }
}
