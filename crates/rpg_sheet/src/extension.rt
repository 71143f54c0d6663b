//! The extension sheet (E).
#![tactic(auto, unfolding(rpg_sheet_specs::specs::Columns::values, rpg_sheet_specs::specs::Columns::at_with, rpg_sheet_specs::specs::Columns::also, rpg_sheet_specs::specs::Columns::past, rpg_sheet_specs::specs::Columns::blank, rpg_sheet_specs::specs::Columns::where_card, rpg_sheet_specs::specs::Tables::extension, rpg_sheet_specs::specs::Tables::alternating, rpg_sheet_specs::specs::Tables::alternating_table))]

ghost use Rattle.std.specs.Prelude.{◌≡◌};
ghost use Rattle.rpg_sheet.specs.Rest.{rest_of_extension};
ghost use Rattle.rpg_sheet_specs.specs.Tables as tables;

use crate::card::Card;
use rpg_sheet_specs::{ColumnFault, ExtensionSpec, TableSpec, Word, ranges};

#[inline(never)]
pub(crate) fn extension(card: &Card) -> Result<ExtensionSpec, ColumnFault>
    ensures { result ≡ tables.extension.reading card.now }
{
    card.blank(ranges::BEFORE_TABLE)?;
    let name = card.name(ranges::TABLE_NAME)?;
    let entries_per_card = card.optional_number(ranges::ENTRIES_PER_CARD)?;
    let entries = card.number(ranges::ENTRIES)?;
    let length = card.number(ranges::ENTRY_LENGTH)?;
    extension_with(card, name, entries_per_card, entries, length)
}

/// Reads the rest of an extension whose table has this name and these sizes.
fn extension_with(
    card: &Card,
    name: Word<6>,
    entries_per_card: Option<u16>,
    entries: u16,
    length: u16,
) -> Result<ExtensionSpec, ColumnFault>
    ensures { result ≡ (rest_of_extension name entries_per_card entries length).reading card.now }
{
    card.blank(ranges::ENTRY_FORMAT)?;
    let decimals = card.optional_digit(ranges::ENTRY_DECIMALS)?;
    let ascending = card.mark(ranges::ENTRY_SEQUENCE, b"A")?;
    let alternating = alternating(card)?;
    Ok(ExtensionSpec {
        table: TableSpec {
            name,
            length,
            decimals,
            ascending,
        },
        entries_per_card,
        entries,
        alternating,
    })
}

fn alternating(card: &Card) -> Result<Option<TableSpec>, ColumnFault>
    ensures { result ≡ tables.alternating.reading card.now }
{
    if rpg_sheet_values::has_only_blanks(card.columns(ranges::ALTERNATING_NAME)) {
        card.blank(ranges::ALTERNATING)?;
        Ok(None)
    } else {
        Ok(Some(alternating_table(card)?))
    }
}

fn alternating_table(card: &Card) -> Result<TableSpec, ColumnFault>
    ensures { result ≡ tables.alternating_table.reading card.now }
{
    let name = card.name(ranges::ALTERNATING_NAME)?;
    let length = card.number(ranges::ALTERNATING_LENGTH)?;
    card.blank(ranges::ALTERNATING_FORMAT)?;
    let decimals = card.optional_digit(ranges::ALTERNATING_DECIMALS)?;
    let ascending = card.mark(ranges::ALTERNATING_SEQUENCE, b"A")?;
    Ok(TableSpec {
        name,
        length,
        decimals,
        ascending,
    })
}
