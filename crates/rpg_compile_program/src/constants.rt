//! The fields of a program's constants.

ghost use Rattle.std.specs.Prelude.{◌≡◌, ◌+◌, Some, length, slice_get, IfOk, OnOk};
ghost use Rattle.std.specs.Option.{option_to_list};
ghost use Rattle.rpg_cards.specs.Constants as known;
ghost use Rattle.rpg_program.specs.Values.{entries_held, held};
ghost use Rattle.rpg_compile_program.specs.Constants.{AddsConstant, AddsConstants, AddsDifferent};
ghost use Rattle.rpg_card_index.specs.Index.{StandAt};
ghost use Rattle.rpg_compile_program.specs.Data.{constant_value, constant_values};

use crate::names::FieldRows;
use rpg_card_index::IndexedCards;
use rpg_cards::{Constant, SpecCard, constant_in, text_constant};
use rpg_program::value::{FieldValues, Value};
use rpg_sheet_specs::{OutputSpec, Spec};
use std::alloc::{AllocError, Global};

impl FieldRows {
    /// Adds the fields of the constants of cards, each where it comes first.
    pub(crate) fn add_constants(
        &mut self,
        alloc: Global,
        source: &IndexedCards,
    ) -> Result<(), AllocError>
        ensures { OnOk result (AddsConstants (known.constants source.now) self.old self.new) }
    {
        let mut place = 0;
        for card in source.as_slice() {
            place = self.add_constants_on(alloc, source, place, card)?;
        }
        Ok(())
    }

    /// Adds the constants that a card is the first to have. Its first constant is at `start`. Returns the place after its last.
    fn add_constants_on(
        &mut self,
        alloc: Global,
        source: &IndexedCards,
        start: usize,
        card: &SpecCard,
    ) -> Result<usize, AllocError>
        requires { StandAt start (known.constants_on card.now.spec) (known.constants_in source.now) }
        ensures place { IfOk result (λ place. place ≡ start + length (known.constants_on card.now.spec)) }
        ensures added { IfOk result (λ place. AddsDifferent (known.constants_in source.now) start place self.old self.new) }
    {
        match &card.spec {
            Spec::Calculation(calculation) => {
                let first = constant_in(&calculation.factor_1);
                let place = self.add_optional_constant(alloc, source, start, first)?;
                let second = constant_in(&calculation.factor_2);
                self.add_optional_constant(alloc, source, place, second)
            }
            Spec::Output(OutputSpec::Field(field)) => {
                self.add_optional_constant(alloc, source, start, text_constant(field))
            }
            _ => Ok(start),
        }
    }

    /// Adds the constant at a place, if there is one and it is the first of its kind. Returns the place after it.
    fn add_optional_constant(
        &mut self,
        alloc: Global,
        source: &IndexedCards,
        place: usize,
        constant: Option<Constant>,
    ) -> Result<usize, AllocError>
        requires { StandAt place (option_to_list constant) (known.constants_in source.now) }
        ensures place { IfOk result (λ after. after ≡ place + length (option_to_list constant)) }
        ensures added { IfOk result (λ after. AddsDifferent (known.constants_in source.now) place after self.old self.new) }
    {
        source.keeps_limit();
        match constant {
            None => Ok(place),
            Some(constant) => {
                self.add_constant_if_first(alloc, source, place, &constant)?;
                Ok(place + 1)
            }
        }
    }

    /// Adds the constant at a place, if it is the first of its kind.
    fn add_constant_if_first(
        &mut self,
        alloc: Global,
        source: &IndexedCards,
        place: usize,
        constant: &Constant,
    ) -> Result<(), AllocError>
        requires { slice_get (known.constants_in source.now) place ≡ Some constant.now }
        ensures { OnOk result (AddsDifferent (known.constants_in source.now) place (place + 1) self.old self.new) }
    {
        if source.is_first_constant(place) {
            self.add_constant(alloc, constant)
        } else {
            Ok(())
        }
    }

    fn add_constant(&mut self, alloc: Global, constant: &Constant) -> Result<(), AllocError>
        ensures { OnOk result (AddsConstant constant.now self.old self.new) }
    {
        constant.keeps_limits();
        self.forms.push(constant.form())?;
        self.values.push(values_of(alloc, constant)?)?;
        Ok(())
    }
}

/// Returns the value of its one entry.
fn values_of(alloc: Global, constant: &Constant) -> Result<FieldValues, AllocError>
    ensures { IfOk result (λ v. entries_held v ≡ constant_values constant.now) }
{
    Ok(FieldValues::One(value_of(alloc, constant)?))
}

fn value_of(alloc: Global, constant: &Constant) -> Result<Value, AllocError>
    ensures { IfOk result (λ v. held v ≡ constant_value constant.now) }
{
    match constant {
        Constant::Number(number) => Ok(Value::Number(number.value())),
        Constant::Text(text) => Ok(Value::Text(Vec::from_slice(alloc, text.as_slice())?)),
    }
}
