//! The header sheet (H).

ghost use Rattle.std.specs.Prelude.{◌≡◌};
ghost use Rattle.rpg_sheet_specs.specs.Tables as tables;

use crate::card::Card;
use rpg_sheet_specs::{ColumnFault, HeaderSpec, ranges};

#[tactic(auto, unfolding(rpg_sheet_specs::specs::Tables::header, rpg_sheet_specs::specs::Columns::values, rpg_sheet_specs::specs::Columns::past, rpg_sheet_specs::specs::Columns::blank))]
#[inline(never)]
pub(crate) fn header(card: &Card) -> Result<HeaderSpec, ColumnFault>
    ensures { result ≡ tables.header.reading card.now }
{
    card.blank(ranges::AFTER_HEADER)?;
    Ok(HeaderSpec)
}
