//! The indicators that are on.
ghost use Rattle.std.specs.Prelude.{◌≡◌, if◌then◌else◌};
ghost use Rattle.std.specs.FinSet as set;
ghost use Rattle.rpg_program.specs.Showing as showing;

use std::marker::Model;

#[derive(Drop)]
pub struct Indicators {
    on: [bool; 256],
}

impl Model for Indicators {
    ghost use Rattle.std.specs.Ordering.{nat_cmp};
    ghost use Rattle.std.specs.Coded.{coded_ℕ};
    ghost use Rattle.std.specs.FinSet as set;
    ghost use Rattle.rpg_memory.specs.Marked.{marked_numbers};

    ghost Value = { set.FinSet nat_cmp };

    ghost coded = { set.code coded_ℕ };

    ghost view = { λ a. marked_numbers a.on };
}

impl Indicators {
    /// All off.
    pub fn new() -> Indicators
        ensures { result ≡ set.empty }
    {
        Indicators { on: [false; 256] }
    }

    pub fn is_on(&self, number: u8) -> bool
        ensures { result ≡ set.contains self.now number }
    {
        self.on[number as usize]
    }

    pub fn turn(&mut self, number: u8, is_on: bool)
        ensures { self.new ≡ (if is_on then set.insert self.old number else set.remove self.old
            number) }
    {
        self.on[number as usize] = is_on;
    }
}

/// Turns an indicator on, if there is one.
pub fn turn_on(on: &mut Indicators, indicator: Option<u8>)
    ensures { on.new ≡ showing.turned_on indicator on.old }
{
    match indicator {
        None => {}
        Some(n) => on.turn(n, true),
    }
}

/// Turns an indicator off, if there is one.
pub fn turn_off(on: &mut Indicators, indicator: Option<u8>)
    ensures { on.new ≡ showing.turned_off indicator on.old }
{
    match indicator {
        None => {}
        Some(n) => on.turn(n, false),
    }
}
