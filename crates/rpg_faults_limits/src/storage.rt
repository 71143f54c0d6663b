//! The names and constants of cards, which take storage.

ghost use Rattle.std.specs.Prelude.{◌≡◌, ◌≤◌, length};
ghost use Rattle.std.specs.Bool.{OnTrue};
ghost use Rattle.rpg_cards.specs.Constants as constants;
ghost use Rattle.rpg_cards.specs.Names.{definitions};
ghost use Rattle.rpg_faults_limits.specs.Limits as limits;
ghost use Rattle.rpg_faults_limits.specs.State.{BeginsWith, KeepsStorage};

use rpg_card_index::IndexedCards;
use rpg_cards::SpecCard;
use rpg_symbols::Totals;

/// Whether all names and constants of a source are within the limits.
pub(crate) fn keeps_storage(source: &IndexedCards) -> bool
    requires { length source.now ≤ 2000 }
    ensures { OnTrue result (KeepsStorage source.now) }
{
    let names = all_names(source);
    let constants = source.all_constants();
    names.number + constants.number <= 4000 && names.bytes + constants.bytes <= 65535
}

/// Returns the totals of all names.
pub(crate) fn all_names(source: &IndexedCards) -> Totals
    requires { length source.now ≤ 2000 }
    ensures number { result.number ≡ limits.name_count source.now }
    ensures bytes { result.bytes ≡ limits.name_bytes source.now }
    ensures few { result.number ≤ 4002 }
    ensures few_bytes { result.bytes ≤ 17179869183970 }
{
    source.all_names()
}

/// Returns the totals of the names that the first cards define; `count` is the number of their definitions.
pub(crate) fn names_in(source: &IndexedCards, count: usize, front: &[SpecCard]) -> Totals
    requires few { length source.now ≤ 2000 }
    requires front { BeginsWith source.now front.now }
    requires count { count ≡ length (definitions front.now) }
    ensures number { result.number ≡ limits.name_count front.now }
    ensures bytes { result.bytes ≡ limits.name_bytes front.now }
    ensures few { result.number ≤ 4002 }
{
    let _ = front;
    source.name_totals(count)
}

/// Returns the totals of the constants of the first cards; `count` is the number of these with repetitions.
pub(crate) fn constants_in(source: &IndexedCards, count: usize, front: &[SpecCard]) -> Totals
    requires few { length source.now ≤ 2000 }
    requires front { BeginsWith source.now front.now }
    requires count { count ≡ length (constants.constants_in front.now) }
    ensures number { result.number ≡ length (constants.constants front.now) }
    ensures bytes { result.bytes ≡ limits.constant_bytes front.now }
    ensures few { result.number ≤ 4002 }
    ensures few_bytes { result.bytes ≤ 17179869183970 }
{
    let _ = front;
    source.constant_totals(count)
}
