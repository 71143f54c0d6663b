//! Indicators, and the conditions that name them.

use std::alloc::AllocError;
use std::marker::Model;

/// An indicator by its number: 1 to 99, L0 to L9 (100 to 109), LR (110), 1P (111), OA to OG and OV
/// (112 to 119), H1 to H9 (120 to 128), MR (129).
#[derive(Clone, Copy)]
pub struct Indicator {
    number: u8,
}

impl Model for Indicator {
    ghost use Rattle.std.specs.Prelude.{ℕ, ◌≤◌};

    ghost Value = { ℕ };

    ghost view = { λ i. i.number };

    ghost invariant = { λ i. (1 ≤ i.number) × (i.number ≤ 129) };

    ghost inverse = { λ n. record { number = n } };
}

impl Indicator {
    ghost use Rattle.std.specs.Prelude.{◌≡◌, ◌≤◌};

    pub const fn new(number: u8) -> Self
        requires first { 1 ≤ number }
        requires last { number ≤ 129 }
        ensures { result ≡ number }
    {
        Indicator { number }
    }

    pub const fn number(self) -> u8
        ensures value { result ≡ self }
        ensures first { 1 ≤ result }
        ensures last { result ≤ 129 }
    {
        self.number
    }
}

/// An indicator that must be on, or off if it is negated.
#[derive(Clone, Copy)]
pub struct ConditionSpec {
    pub negated: bool,
    pub indicator: Indicator,
}

/// Three of a kind, in the order of their columns.
#[derive(Copy, Drop)]
pub struct Three<T> {
    pub first: T,
    pub second: T,
    pub third: T,
}

impl<T: Copy> Clone for Three<T> {
    fn clone(&self) -> Result<Self, AllocError> {
        Ok(*self)
    }
}

impl<T: Copy> Three<Option<T>> {
    ghost use Rattle.std.specs.Prelude.{◌≡◌, ◌≤◌, None};
    ghost use Rattle.rpg_sheet_specs.specs.Three.{filled_count};

    /// Returns three empty places.
    pub const fn none() -> Self
        ensures { result ≡ record { first = None; second = None; third = None } }
    {
        Three {
            first: None,
            second: None,
            third: None,
        }
    }

    /// Returns how many places are filled.
    pub fn filled(self) -> u64
        ensures value { result ≡ filled_count self }
        ensures few { result ≤ 3 }
    {
        u64::from(self.first.is_some())
            + u64::from(self.second.is_some())
            + u64::from(self.third.is_some())
    }
}
