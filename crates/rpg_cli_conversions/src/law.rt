//! What the output of `rpg2 records` depends on.

ghost use Rattle.rpg_cli_conversions.specs.Laws.{CardsSayTheOutput};

/// A law of the definitions: OUT is a function of IN and the cards. Does nothing.
///
/// `input_layout` of rpg_record_outputs returns a layout that the cards describe, if no I card reads a packed or binary array; any two of
/// these give the same conversion.
pub fn cards_say_the_output()
    ensures { CardsSayTheOutput }
{}
