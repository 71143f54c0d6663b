//! The levels of input fields.

ghost use Rattle.std.specs.Prelude.{◌≡◌};
ghost use Rattle.rpg_cards.specs.Levels as levels;

use crate::spec_card::SpecCard;

/// Whether any field has a match level.
pub fn has_match_field(cards: &[SpecCard]) -> bool
    ensures { result ≡ levels.has_match_field cards.now }
{
    cards.iter().any(is_match_card)
}

fn is_match_card(card: &SpecCard) -> bool
    ensures { result ≡ levels.is_match_card card.now }
{
    match card.input_field() {
        None => false,
        Some(field) => field.match_level.is_some(),
    }
}
