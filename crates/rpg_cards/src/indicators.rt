//! Indicators by number.

ghost use Rattle.std.specs.Prelude.{◌≡◌};
ghost use Rattle.std.specs.Option.{ForSome};
ghost use Rattle.rpg_cards.specs.Statements as statements;
ghost use Rattle.rpg_program.specs.Kept.{AreIndicators, IsIndicator};

use rpg_program::operation::Shows;
use rpg_sheet_specs::{Indicator, Three};

/// Returns the number of an indicator, which may be missing.
pub fn number_of(indicator: Option<Indicator>) -> Option<u8>
    ensures value { result ≡ indicator }
    ensures kept { ForSome result IsIndicator }
{
    indicator.map(|indicator| indicator.number())
}

/// Plus or high, minus or low, zero or equal.
pub fn shows_of(indicators: Three<Option<Indicator>>) -> Shows
    ensures value { result ≡ statements.shows_of indicators }
    ensures kept { AreIndicators result }
{
    Shows {
        plus: number_of(indicators.first),
        minus: number_of(indicators.second),
        zero: number_of(indicators.third),
    }
}
