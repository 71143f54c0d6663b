//! What an E card says of the data of its tables.

ghost use Rattle.std.specs.Prelude.{◌≡◌, length};
ghost use Rattle.rpg_cards.specs.Groups.{data_role, followers};
ghost use Rattle.rpg_faults_data.specs.Data as rules;

use rpg_cards::{SpecCard, is_table, table_form};
use rpg_sheet_specs::{DataSpec, ExtensionSpec};

/// Whether one of a card's names is a table's.
pub(crate) fn has_table(extension: &ExtensionSpec) -> bool
    ensures { result ≡ rules.has_table extension.now }
{
    is_table(&extension.table.name)
        || match &extension.alternating {
            None => false,
            Some(table) => is_table(&table.name),
        }
}

/// Whether the lengths, decimals and entries of a card's tables are within their limits.
pub(crate) fn has_forms(extension: &ExtensionSpec) -> bool
    ensures { result ≡ rules.has_forms extension.now }
{
    table_form(extension.entries, &extension.table).is_some()
        && match &extension.alternating {
            None => true,
            Some(table) => table_form(extension.entries, table).is_some(),
        }
}

/// Returns how many columns an entry takes, including that of the alternating table.
pub fn data_columns(extension: &ExtensionSpec) -> u32
    ensures { result ≡ rules.data_columns extension.now }
{
    let alternating = match &extension.alternating {
        None => 0,
        Some(table) => table.length as u32,
    };
    extension.table.length as u32 + alternating
}

/// Counts the cards of data up to the next `**` card.
pub(crate) fn data_cards(deck: &[SpecCard]) -> usize
    ensures { result ≡ length (followers data_role deck.now) }
{
    let mut count = 0;
    for card in deck {
        match card.data() {
            None => {}
            Some(DataSpec::Begin) => return count,
            Some(DataSpec::Card(_)) => count += 1,
        }
    }
    count
}
