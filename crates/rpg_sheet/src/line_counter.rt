//! The line counter sheet (L).

ghost use Rattle.std.specs.Prelude.{◌≡◌};
ghost use Rattle.rpg_sheet_specs.specs.Tables as tables;

use crate::card::Card;
use crate::columns::at;
use rpg_sheet_specs::{ColumnFault, FormSpec, ranges};

#[tactic(auto, unfolding(rpg_sheet_specs::specs::Tables::form_card, rpg_sheet_specs::specs::Columns::values, rpg_sheet_specs::specs::Columns::at_with, rpg_sheet_specs::specs::Columns::also, rpg_sheet_specs::specs::Columns::past, rpg_sheet_specs::specs::Columns::blank))]
#[inline(never)]
pub(crate) fn form_card(card: &Card) -> Result<FormSpec, ColumnFault>
    ensures { result ≡ tables.form_card.reading card.now }
{
    let file = card.name(ranges::FORM_FILE)?;
    let lines = card.number_within(ranges::FORM_LINES)?;
    let text = card.columns(ranges::LINES_WORD);
    at(ranges::LINES_WORD, rpg_sheet_values::only(b"FL", text))?;
    let overflow_line = card.number_within(ranges::OVERFLOW_LINE)?;
    let text = card.columns(ranges::OVERFLOW_WORD);
    at(ranges::OVERFLOW_WORD, rpg_sheet_values::only(b"OL", text))?;
    card.blank(ranges::AFTER_FORM)?;
    Ok(FormSpec {
        file,
        lines,
        overflow_line,
    })
}
