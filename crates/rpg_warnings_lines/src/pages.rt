//! W6: page numbers that are written under conditions.

ghost use Rattle.std.specs.Prelude.{◌≡◌};
ghost use Rattle.rpg_warnings_lines.specs.Pages as pages;

use crate::overlaps::is_always_out;
use crate::warning::{Warning, WarningKind};
use rpg_cards::SpecCard;
use rpg_sheet_specs::{ColumnFault, Entry};

/// The columns of an output field's name.
const NAME: ColumnFault = ColumnFault {
    column: 32,
    last: 37,
};

fn is_page(operand: &Option<Entry>) -> bool
    ensures { result ≡ pages.is_page_entry operand.now }
{
    match operand {
        None => false,
        Some(entry) => entry.name.as_slice() == b"PAGE".as_slice(),
    }
}

/// Returns the warning of a page number with conditions.
#[tactic(auto, unfolding(crate::specs::Pages::page_on))]
pub(crate) fn page_on(card: &SpecCard) -> Option<Warning>
    ensures { result ≡ pages.page_on card.now }
{
    let field = card.output_field()?;
    if is_page(&field.operand) && !is_always_out(field) {
        Some(Warning {
            card: card.number,
            columns: NAME,
            kind: WarningKind::PageConditions,
        })
    } else {
        None
    }
}
