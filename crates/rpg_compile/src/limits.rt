//! Laws of the definitions. The functions do nothing: they are called only for their contracts.

ghost use Rattle.std.specs.Prelude.{◌≤◌, length};
ghost use Rattle.rpg_faults.specs.Faults.{Faultless};
ghost use Rattle.rpg_compile.specs.Limits.{KeepsLimits};

use rpg_cards::SpecCard;
use rpg_compile_program::ranges::cards_are_in_range;

/// The program of a source without faults keeps the limits of the object format.
pub fn faultless_sources_keep_limits(cards: &[SpecCard])
    ensures { Faultless cards.now → length cards.now ≤ 2000 → KeepsLimits cards.now }
{
    cards_are_in_range(cards);
}
