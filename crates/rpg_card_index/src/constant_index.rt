//! The first place of each constant, and how many different constants there are.

ghost use Rattle.std.specs.Prelude.{◌≡◌, ◌∷◌, [], length, IfOk, OnOk};
ghost use Rattle.std.specs.Map.{lookup};
ghost use Rattle.std.specs.Option.{option_to_list};
ghost use Rattle.rpg_cards.specs.Constants.{constants_on, factor_constants, is_same};
ghost use Rattle.rpg_card_index.specs.Index.{IsConstantIndex, KnowsAtMost, Notes};
ghost use Rattle.rpg_symbols.specs.Totals.{is_counted_at, first_totals};

use crate::first_files::note;
use rpg_cards::{Constant, SpecCard, constant_in, text_constant};
use rpg_sheet_specs::{CalculationSpec, OutputSpec, Spec};
use rpg_symbols::{RunningTotals, Totals};
use std::alloc::{AllocError, Global};
use std::collections::HashMap;

/// The first place of each constant, and the totals of the constants.
#[derive(Drop)]
pub struct ConstantIndex {
    first: HashMap<Constant, usize>,
    totals: RunningTotals,
}

impl ConstantIndex {
    /// Returns the index of no constants, with room for `count`.
    pub(crate) fn with_capacity(alloc: Global, count: usize) -> Result<Self, AllocError>
        ensures { IfOk result (IsConstantIndex []) }
    {
        Ok(ConstantIndex {
            first: HashMap::with_capacity(alloc, count)?,
            totals: RunningTotals::with_capacity(alloc, Totals::NONE, count)?,
        })
    }

    /// Notes the constants of a card.
    pub(crate) fn note_card(&mut self, card: &SpecCard) -> Result<(), AllocError>
        requires { KnowsAtMost 2000000000 IsConstantIndex self.old }
        ensures { OnOk result (Notes IsConstantIndex (constants_on card.now.spec) self.old self.new) }
    {
        match &card.spec {
            Spec::Calculation(calculation) => self.note_factors(calculation),
            Spec::Output(OutputSpec::Field(field)) => self.note(text_constant(field)),
            _ => Ok(()),
        }
    }

    fn note_factors(&mut self, calculation: &CalculationSpec) -> Result<(), AllocError>
        requires { KnowsAtMost 2000000000 IsConstantIndex self.old }
        ensures { OnOk result (Notes IsConstantIndex (factor_constants calculation.now) self.old self.new) }
    {
        self.note(constant_in(&calculation.factor_1))?;
        self.note(constant_in(&calculation.factor_2))?;
        Ok(())
    }

    /// Notes a constant, if there is one. It counts unless it is known.
    fn note(&mut self, constant: Option<Constant>) -> Result<(), AllocError>
        requires { KnowsAtMost 2000000001 IsConstantIndex self.old }
        ensures { OnOk result (Notes IsConstantIndex (option_to_list constant) self.old self.new) }
    {
        match constant {
            None => Ok(()),
            Some(constant) => self.note_constant(constant),
        }
    }

    fn note_constant(&mut self, constant: Constant) -> Result<(), AllocError>
        requires { KnowsAtMost 2000000001 IsConstantIndex self.old }
        ensures { OnOk result (Notes IsConstantIndex (constant ∷ []) self.old self.new) }
    {
        let bytes = constant.form().size();
        let place = self.totals.count();
        let is_first = note(&mut self.first, constant, place)?;
        self.totals.push(is_first, bytes)?;
        Ok(())
    }

    /// Returns the number of constants, with duplicates.
    pub(crate) fn count(&self) -> usize
        ensures { result ≡ length self.now.totals.before }
    {
        self.totals.count()
    }

    /// Returns the first place of a constant.
    pub(crate) fn first(&self, constant: &Constant) -> Option<usize>
        ensures { result ≡ lookup (is_same constant.now) self.now.first.entries }
    {
        self.first.get(constant).copied()
    }

    /// Returns the totals of the first `count` constants.
    pub(crate) fn totals(&self, count: usize) -> Totals
        ensures { result ≡ first_totals self.now.totals count }
    {
        self.totals.first(count)
    }

    pub(crate) fn all(&self) -> Totals
        ensures { result ≡ self.now.totals.all }
    {
        self.totals.all()
    }

    /// Whether the constant at a place is the first of its kind.
    pub(crate) fn counts(&self, place: usize) -> bool
        ensures { result ≡ is_counted_at self.now.totals place }
    {
        self.totals.counts(place)
    }
}
