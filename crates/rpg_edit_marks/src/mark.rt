//! The marks of an edited number, one for each of its places.

ghost use Rattle.std.specs.Prelude.{◌≡◌};

/// One place of an edited number.
#[derive(Clone, Copy, Default)]
pub enum Mark {
    /// A digit, suppressed if it is a leading zero.
    #[default]
    Digit,
    /// A character between digits, suppressed if no digit precedes it.
    Insert(u8),
    /// A character that is always printed.
    Always(u8),
    /// A character that is printed only for a negative number.
    Sign(u8),
}

impl Mark {
    ghost use Rattle.rpg_edit_marks.specs.Edited.{is_digit_place};

    /// Whether it is for a digit.
    pub fn is_place(self) -> bool
        ensures { result ≡ is_digit_place self }
    {
        matches!(self, Mark::Digit)
    }
}
