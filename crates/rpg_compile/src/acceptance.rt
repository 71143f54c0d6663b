//! Laws of the definitions. The functions do nothing: they are called only for their contracts.

ghost use Rattle.std.specs.Prelude.{ℕ, List};
ghost use Rattle.rpg_cards.specs.declared.spec_card.SpecCard.{SpecCard};
ghost use Rattle.rpg_compile.specs.CallLevels.{HasCallLevels};
ghost use Rattle.rpg_faults.specs.Faults.{Faultless};
ghost use Rattle.rpg_verify_rules.specs.Accepted.{IsAccepted};
ghost use Rattle.rpg_compile_program.specs.Program.{program_of};

use rpg_cards::SpecCard;
use rpg_compile_program::laws::programs_are_accepted;
use rpg_compile_program::ranges::cards_are_in_range;

/// The program of a source without faults obeys all rules of the verifier, whatever its allowance.
pub fn faultless_sources_are_accepted(cards: &[SpecCard])
    ensures { (allowance : ℕ) → Faultless cards.now → IsAccepted (program_of cards.now allowance) }
{
    cards_are_in_range(cards);
    programs_are_accepted();
}

/// In the program of a source without faults, a subroutine's level is the number of subroutines on the longest chain of calls that ends in
/// it.
pub fn levels_are_longest_chains()
    ensures { (cards : List SpecCard) (allowance : ℕ) → Faultless cards → HasCallLevels cards (program_of cards allowance) }
{}
