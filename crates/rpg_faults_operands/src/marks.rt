//! Which columns of a card the faults of its operands point at.

ghost use Rattle.std.specs.Prelude.{◌≡◌};
ghost use Rattle.rpg_faults_operands.specs.Marks as marks;

use crate::editing::lacks_fill;
use crate::indexes::is_badly_indexed;
use crate::names::names_nothing;
use crate::operands::operands_ending;
use rpg_card_index::IndexedCards;
use rpg_cards::SpecCard;
use rpg_sheet_specs::{ColumnRange, OutputField};

/// F1: the columns of a name that no card defines.
pub fn unknown_name(source: &IndexedCards, card: &SpecCard, after: &[SpecCard]) -> ColumnRange
    ensures { result ≡ marks.unknown_name source.now card.now after.now }
{
    let operands = operands_ending(card, after);
    if names_nothing(source, &operands.first) {
        ColumnRange::FirstFactor
    } else if names_nothing(source, &operands.second) {
        ColumnRange::SecondFactor
    } else if names_nothing(source, &operands.third) {
        ColumnRange::ResultName
    } else {
        ColumnRange::OutputName
    }
}

/// F5: the columns of an entry whose index is wrong.
pub fn wrong_index(source: &IndexedCards, card: &SpecCard, after: &[SpecCard]) -> ColumnRange
    ensures { result ≡ marks.wrong_index source.now card.now after.now }
{
    let operands = operands_ending(card, after);
    if is_badly_indexed(source, &operands.first) {
        ColumnRange::FirstFactor
    } else if is_badly_indexed(source, &operands.second) {
        ColumnRange::SecondFactor
    } else if is_badly_indexed(source, &operands.third) {
        ColumnRange::ResultName
    } else {
        ColumnRange::OutputName
    }
}

/// F17: the code, or the fill or word.
pub fn editing_columns(card: &SpecCard) -> Option<ColumnRange>
    ensures { result ≡ marks.editing_columns card.now }
{
    Some(editing_range(card.output_field()?))
}

fn editing_range(field: &OutputField) -> ColumnRange
    ensures { result ≡ marks.editing_range field.now }
{
    if field.code.is_some() && !lacks_fill(field) {
        ColumnRange::OutputCode
    } else {
        ColumnRange::OutputText
    }
}
