//! Indicators.

ghost use Rattle.std.specs.Prelude.{◌≡◌, ◌<◌};
ghost use Rattle.rpg_fit_terms.specs.Indicators.{halt, numbered, stands_at};

use rpg_fit_deck::{Card, Word};

/// An indicator: two characters of a card, which may be blank.
#[derive(Clone, Copy, PartialEq, Eq)]
pub struct Indicator(u8, u8);

impl Indicator {
    /// No indicator.
    pub const BLANK: Indicator = Indicator(b' ', b' ');

    /// L0, which is always on.
    pub const ALWAYS: Indicator = Indicator(b'L', b'0');

    /// 1P, which is on only at the first output.
    pub const FIRST_PAGE: Indicator = Indicator(b'1', b'P');

    /// SR, in columns 7 to 8 of a subroutine's calculations.
    pub const SUBROUTINE: Indicator = Indicator(b'S', b'R');

    /// Returns the characters in a column and the next one.
    pub fn at(card: &Card, column: usize) -> Indicator {
        Indicator(card.column(column), card.column(column.saturating_add(1)))
    }

    /// Whether a card has it in a column and the next one.
    pub(crate) fn stands_at(self, card: &Card, column: u8) -> bool
        ensures { result ≡ stands_at self card.now column }
    {
        let first = usize::from(column);
        card.column(first) == self.0 && card.column(first + 1) == self.1
    }

    /// Returns the indicator with a number below 100.
    pub fn of_number(number: u8) -> Indicator
        ensures { result ≡ numbered number }
    {
        Indicator(b'0' + number / 10 % 10, b'0' + number % 10)
    }

    /// Returns the halt indicator with a number below 10.
    pub fn halt(number: u8) -> Indicator
        ensures { result ≡ halt number }
    {
        Indicator(b'H', b'0' + number % 10)
    }

    /// Whether it is blank.
    pub fn is_blank(self) -> bool {
        self == Indicator::BLANK
    }

    /// Whether it is one of 00 to 99.
    pub fn is_number(self) -> bool {
        self.0.is_ascii_digit() && self.1.is_ascii_digit()
    }

    /// Returns its characters.
    pub fn word(self) -> Word {
        Word::of(&[self.0, self.1])
    }
}
