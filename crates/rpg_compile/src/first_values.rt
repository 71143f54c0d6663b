//! Laws of the definitions. The functions do nothing: they are called only for their contracts.

ghost use Rattle.rpg_faults.specs.Faults.{Faultless};
ghost use Rattle.rpg_program.specs.Kept.{AreValuesOf};
ghost use Rattle.rpg_compile_program.specs.Data.{values_of};
ghost use Rattle.rpg_compile_program.specs.Table.{forms, table_of};

use rpg_cards::SpecCard;
use rpg_compile_program::ranges::cards_are_in_range;
use rpg_decimal::texts_spell_by_places;

/// The values that the fields of a source without faults have before the first cycle fit them: each field has one value
/// for each entry, of the field's kind and length. Arrays and tables with data have the values on their cards.
pub fn faultless_sources_fill_their_fields(cards: &[SpecCard])
    ensures { Faultless cards.now → AreValuesOf (forms (table_of cards.now)) (values_of cards.now) }
{
    cards_are_in_range(cards);
    texts_spell_by_places();
}
