//! The control levels that fields have.

ghost use Rattle.std.specs.Prelude.{◌≡◌};
ghost use Rattle.std.specs.List.{list_any};
ghost use Rattle.rpg_cli_warnings.specs.Indicators as indicators;

use rpg_cards::SpecCard;
use rpg_sheet_specs::{InputSpec, Spec, Within};

fn is_of_level(level: Option<Within<1, 9>>, indicator: u8) -> bool
    ensures { result ≡ indicators.is_level_indicator indicator level }
{
    match level {
        None => false,
        Some(level) => 100 + level.number() == indicator,
    }
}

/// Whether a card has a control field of the level with this indicator.
fn has_level(card: &SpecCard, indicator: u8) -> bool
    ensures { result ≡ indicators.card_has_level indicator card.now }
{
    match &card.spec {
        Spec::Input(InputSpec::Field(field)) => is_of_level(field.level, indicator),
        _ => false,
    }
}

/// Whether one of the cards has a control field of the level with this indicator.
pub(crate) fn any_has_level(cards: &[SpecCard], indicator: u8) -> bool
    ensures { result ≡ list_any (indicators.card_has_level indicator) cards.now }
{
    for card in cards {
        if has_level(card, indicator) {
            return true;
        }
    }
    false
}
