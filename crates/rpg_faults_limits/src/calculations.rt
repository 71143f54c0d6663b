//! The number of calculation cards and of subroutines.

ghost use Rattle.std.specs.Prelude.{◌≡◌, [], ◌∷◌, ◌++◌, ◌≤◌, false, length, Option};
ghost use Rattle.std.specs.Option.{option_map_or};
ghost use Rattle.rpg_cards.specs.Calculations.{CalculationGroup, calculation_ending, group_with};
ghost use Rattle.rpg_cards.specs.Labels.{begins_subroutine};
ghost use Rattle.rpg_faults_limits.specs.State.{AreCalculations, is_in_subroutine, is_of_subroutine, is_open_subroutine};

use crate::filled::one_if;
use rpg_cards::{SpecCard, begins_subroutine, is_subroutine, joins, last_card};
use rpg_sheet_specs::CalculationSpec;

/// The number of C cards, and of BEGSRs on SR cards.
#[derive(Clone, Copy)]
pub struct Calculations {
    pub cards: u64,
    pub subroutines: u64,
    /// Whether the group of the previous card begins with an SR card.
    pub is_subroutine: bool,
}

impl Calculations {
    /// The counts before the first card.
    pub(crate) const NONE: Calculations = Calculations {
        cards: 0,
        subroutines: 0,
        is_subroutine: false,
    };

    /// Returns the counts after one more card.
    pub(crate) fn with(self, before: &[SpecCard], card: &SpecCard, after: &[SpecCard]) -> Self
        requires few { length before.now ≤ 2000 }
        requires calculations { AreCalculations before.now (card.now ∷ after.now) self }
        ensures { AreCalculations (before.now ++ card.now ∷ []) after.now result }
    {
        Calculations {
            cards: self.cards + one_if(card.calculation().is_some()),
            subroutines: self.subroutines + one_if(self.begins(before, card, after)),
            is_subroutine: self.is_subroutine_after(before, card),
        }
    }

    /// Whether the calculation that ends on the card is a BEGSR of an SR card.
    pub(crate) fn begins(self, before: &[SpecCard], card: &SpecCard, after: &[SpecCard]) -> bool
        requires { self.is_subroutine ≡ is_in_subroutine before.now }
        ensures { result ≡ option_map_or begins_subroutine (calculation_ending before.now card.now after.now) false }
    {
        match last_card(card, after) {
            None => false,
            Some(calculation) => {
                self.is_subroutine_with(calculation) && begins_subroutine(calculation)
            }
        }
    }

    /// Whether the card belongs to a group of SR cards.
    fn is_subroutine_after(self, before: &[SpecCard], card: &SpecCard) -> bool
        requires { self.is_subroutine ≡ is_in_subroutine before.now }
        ensures { result ≡ is_in_subroutine (before.now ++ card.now ∷ []) }
    {
        match card.calculation() {
            None => false,
            Some(calculation) => self.is_subroutine_with(calculation),
        }
    }

    /// Whether the group that the card continues or begins is one of SR cards.
    fn is_subroutine_with(self, calculation: &CalculationSpec) -> bool
        ensures { (g : Option CalculationGroup) → self.is_subroutine ≡ is_open_subroutine g → result ≡ is_of_subroutine (group_with g calculation.now) }
    {
        if joins(calculation) {
            self.is_subroutine
        } else {
            is_subroutine(calculation.control_level)
        }
    }
}
