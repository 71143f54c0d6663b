//! The return cells of subroutines.
ghost use Rattle.std.specs.Prelude.{◌≡◌, ◌<◌};
ghost use Rattle.std.specs.FinMap as map;

use rpg_program::section::Place;
use std::marker::Model;

/// The most subroutines that a program can have.
const MOST_SUBROUTINES: usize = 100;

/// Where each running subroutine returns to. Subroutines are numbered from 0.
#[derive(Drop)]
pub(crate) struct Cells {
    at: [Option<Place>; MOST_SUBROUTINES],
}

impl Model for Cells {
    ghost use Rattle.std.specs.Ordering.{nat_cmp};
    ghost use Rattle.std.specs.Coded.{coded_ℕ};
    ghost use Rattle.std.specs.FinMap as map;
    ghost use Rattle.rpg_machine.specs.Cells.{cells_set};
    ghost use Rattle.rpg_machine.specs.Codes.{place_code};
    ghost use Rattle.rpg_program.specs.declared.section.Place.{Place};

    ghost Value = { map.FinMap nat_cmp Place };

    ghost coded = { map.code coded_ℕ place_code };

    ghost view = { λ a. cells_set a.at };
}

impl Cells {
    /// No cell is set.
    pub fn new() -> Cells
        ensures { result ≡ map.empty }
    {
        Cells {
            at: [None; MOST_SUBROUTINES],
        }
    }

    pub fn get(&self, subroutine: u16) -> Option<Place>
        requires { subroutine < 100 }
        ensures { result ≡ map.get self.now subroutine }
    {
        self.at[subroutine as usize]
    }

    pub fn set(&mut self, subroutine: u16, place: Place)
        requires { subroutine < 100 }
        ensures { self.new ≡ map.insert self.old subroutine place }
    {
        self.at[subroutine as usize] = Some(place);
    }

    pub fn unset(&mut self, subroutine: u16)
        requires { subroutine < 100 }
        ensures { self.new ≡ map.remove self.old subroutine }
    {
        self.at[subroutine as usize] = None;
    }
}
