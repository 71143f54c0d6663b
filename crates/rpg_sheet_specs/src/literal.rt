//! Literals: numbers and texts on the card.

ghost use Rattle.std.specs.Prelude.{◌≡◌, ◌^◌, ◌≤◌, ◌<◌, length, unsigned_abs, IsTrue};
ghost use Rattle.std.specs.List.{list_all};
ghost use Rattle.rpg_sheet_specs.specs.Numeral.{IsNumeral};
ghost use Rattle.rpg_text.specs.Texts.{is_character};

use crate::entry::Entry;
use crate::word::Word;
use std::marker::Model;

/// A number of at most 10 digits.
#[derive(Clone, Copy)]
pub struct NumericLiteral {
    value: i64,
    digits: u8,
    decimals: u8,
}

impl Model for NumericLiteral {
    ghost use Rattle.rpg_sheet_specs.specs.Numeral.{Numeral, IsNumeral};

    ghost Value = { Numeral };

    ghost view = { λ n. record { value = n.value; length = n.digits; decimals = n.decimals } };

    ghost invariant = { λ n. IsNumeral n.value n.digits n.decimals };

    ghost inverse = { λ n. record { value = n.value; digits = n.length; decimals = n.decimals } };
}

impl NumericLiteral {
    /// Returns the number with this value, ignoring its decimal point, written with `digits`
    /// digits.
    pub fn new(value: i64, digits: u8, decimals: u8) -> Self
        requires { IsNumeral value digits decimals }
        ensures { result ≡ record { value = value; length = digits; decimals = decimals } }
    {
        NumericLiteral {
            value,
            digits,
            decimals,
        }
    }

    /// Returns the number without its decimal point: 125 for `1.25`.
    pub fn value(self) -> i64
        ensures value { result ≡ self.value }
        ensures fits { unsigned_abs result < 10 ^ self.length }
    {
        self.value
    }

    /// Returns how many digits it is written with, including leading zeros.
    pub fn length(self) -> u8
        ensures value { result ≡ self.length }
        ensures least { 1 ≤ result }
        ensures most { result ≤ 10 }
    {
        self.digits
    }

    /// Returns how many of its digits follow the decimal point.
    pub fn decimals(self) -> u8
        ensures value { result ≡ self.decimals }
        ensures within { result ≤ self.length }
        ensures most { result ≤ 9 }
    {
        self.decimals
    }
}

/// A text of at least one character and at most `N`.
#[derive(Drop)]
pub struct TextLiteral<const N: usize> {
    word: Word<N>,
}

impl<const N: usize> Model for TextLiteral<N> {
    ghost use Rattle.std.specs.Prelude.{ℕ, List, length, ◌≤◌, IsTrue};
    ghost use Rattle.std.specs.List.{list_all};
    ghost use Rattle.rpg_text.specs.Texts.{is_character};

    ghost Value = { List ℕ };

    ghost view = { λ t. t.word };

    ghost invariant = { λ t. (1 ≤ length t.word) × IsTrue (list_all is_character t.word) };
}

impl<const N: usize> TextLiteral<N> {
    pub fn new(word: Word<N>) -> Self
        requires least { 1 ≤ length word }
        requires characters { IsTrue (list_all is_character word) }
        ensures { result ≡ word.entry }
    {
        TextLiteral { word }
    }

    pub fn as_slice(&self) -> &[u8]
        ensures value { result.now ≡ self.now }
        ensures least { 1 ≤ length result.now }
        ensures most { length result.now ≤ N }
        ensures characters { IsTrue (list_all is_character result.now) }
    {
        self.word.as_slice()
    }
}

#[derive(Drop)]
pub enum Literal {
    Number(NumericLiteral),
    Text(TextLiteral<8>),
}

/// An operand of a calculation.
#[derive(Drop)]
pub enum Factor {
    Entry(Entry),
    Literal(Literal),
}
