//! F1: names that are used but never defined.

ghost use Rattle.std.specs.Prelude.{◌≡◌, false, option_copied};
ghost use Rattle.std.specs.Option.{option_map_or};
ghost use Rattle.rpg_faults_operands.specs.Names as names;

use crate::operands::Operand;
use rpg_card_index::IndexedCards;
use rpg_cards::Defined;
use rpg_sheet_specs::{Entry, EntryIndex};
use rpg_symbols::Name;

pub(crate) fn names_nothing(source: &IndexedCards, operand: &Option<Operand>) -> bool
    ensures { result ≡ option_map_or (names.names_nothing source.now) operand.now false }
{
    let Some(operand) = operand else {
        return false;
    };
    is_undefined(source, &operand.field.name)
        || match index_name(operand.field) {
            None => false,
            Some(name) => is_undefined(source, name),
        }
}

/// Returns the name of an index; a literal one has none.
pub(crate) fn index_name(entry: &Entry) -> Option<&Name>
    ensures { option_copied result ≡ names.index_name entry.now }
{
    match &entry.index {
        None => None,
        Some(EntryIndex::Literal(_)) => None,
        Some(EntryIndex::Name(name)) => Some(name),
    }
}

fn is_undefined(source: &IndexedCards, name: &Name) -> bool
    ensures { result ≡ names.is_undefined source.now name.now }
{
    match source.form_of_name(name) {
        Defined::Missing => true,
        Defined::Bad | Defined::Valid(_) => false,
    }
}
