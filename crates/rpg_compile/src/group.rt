//! Groups: a C card with the AN and OR cards that follow it.

ghost use Rattle.std.specs.Prelude.{◌≡◌, ◌≤◌, ◌<◌, ◌∷◌, [], length, take, drop, None, Some, unwrap_or, MatchOption};
ghost use Rattle.std.specs.List.{last_or};
ghost use Rattle.rpg_cards.specs.Calculations as calculations;
ghost use Rattle.rpg_compile_program.specs.Code as code_of;
ghost use Rattle.rpg_cards.specs.Cards.{calculation_specs_in};
ghost use Rattle.rpg_compile.specs.Walk as walk;

use crate::tests::count_tests;
use rpg_cards::{SpecCard, has_instruction, joins, level};
use rpg_sheet_specs::CalculationSpec;
use std::marker::Model;

/// A group of C cards, as a slice of the source.
#[derive(Drop)]
pub(crate) struct CardGroup<'a> {
    first: &'a CalculationSpec,
    last: &'a CalculationSpec,
    cards: &'a [SpecCard],
}

impl<'a> Model for CardGroup<'a> {
    ghost use Rattle.rpg_cards.specs.Calculations.{CalculationGroup};
    ghost use Rattle.rpg_compile.specs.Walk.{IsGroup, group_of};

    ghost Value = { CalculationGroup };

    ghost view = { λ g. group_of g.first.now g.cards.now };

    ghost invariant = { λ g. IsGroup g.first.now g.last.now g.cards.now };
}

impl<'a> CardGroup<'a> {
    pub(crate) fn first(&self) -> &'a CalculationSpec
        ensures { result.now ≡ self.now.first }
    {
        self.first
    }

    /// Returns the card with the operation.
    pub(crate) fn last(&self) -> &'a CalculationSpec
        ensures { result.now ≡ calculations.last_card self.now }
    {
        self.last
    }

    pub(crate) fn cards(&self) -> &'a [SpecCard]
        ensures first { walk.first_calculation result.now ≡ Some self.now.first }
        ensures group { walk.group_of self.now.first result.now ≡ self.now }
    {
        self.cards
    }

    /// Returns how many instructions the group compiles to.
    pub(crate) fn size(&self) -> u16
        requires { code_of.size (calculations.calculation_of self.now) < 65536 }
        ensures { result ≡ code_of.size (calculations.calculation_of self.now) }
    {
        if !has_instruction(self.last) {
            return 0;
        }
        size_of(self.first, self.cards)
    }
}

/// Returns the size of a group whose operation has an instruction.
fn size_of(first: &CalculationSpec, cards: &[SpecCard]) -> u16
    requires { walk.size_with first.now cards.now < 65536 }
    ensures { result ≡ walk.size_with first.now cards.now }
{
    let waits = if level(first.control_level).is_some() {
        1
    } else {
        0
    };
    waits + count_tests(cards) + 1
}

/// Returns the cards up to the last C card; none if there is no C card.
#[tactic(auto, using(crate::proofs::Walk::without_last))]
pub(crate) fn up_to_calculations(cards: &[SpecCard]) -> &[SpecCard]
    ensures same { calculations.calculations cards.now ≡ calculations.calculations result.now }
    ensures within { length result.now ≤ length cards.now }
{
    let mut rest = cards;
    while let Some((card, before)) = rest.split_last() {
        if card.calculation().is_some() {
            return rest;
        }
        rest = before;
    }
    rest
}

/// Returns the next group, and the cards after it.
pub(crate) fn next_group(cards: &[SpecCard]) -> Option<(CardGroup<'_>, &[SpecCard])>
    ensures { MatchOption result (calculations.calculations cards.now ≡ [])
        (λ r. walk.IsNextGroup cards.now r.0 r.1.now) }
{
    let mut rest = cards;
    while let Some((card, following)) = rest.split_first() {
        if let Some(first) = card.calculation() {
            return Some(group_at(first, rest, following));
        }
        rest = following;
    }
    None
}

/// Returns the group that begins with the first of these cards, and the cards after it.
fn group_at<'a>(
    first: &'a CalculationSpec,
    cards: &'a [SpecCard],
    following: &'a [SpecCard],
) -> (CardGroup<'a>, &'a [SpecCard])
    requires first { walk.first_calculation cards.now ≡ Some first.now }
    requires following { following.now ≡ drop 1 cards.now }
    ensures groups { calculations.calculations cards.now ≡ calculations.calculation_of result.0 ∷ calculations.calculations result.1.now }
    ensures shorter { length result.1.now ≤ length following.now }
{
    let (count, last) = followers_of(first, following);
    let (cards, rest) = cards.split_at(count + 1);
    (CardGroup { first, last, cards }, rest)
}

/// Returns how many AN and OR cards follow a card, and the last card of the group.
#[tactic(auto, using(crate::proofs::Walk::joining_more, crate::proofs::Walk::joining_apart, crate::proofs::Walk::joining_other, crate::proofs::Walk::last_more))]
fn followers_of<'a>(
    first: &'a CalculationSpec,
    following: &'a [SpecCard],
) -> (usize, &'a CalculationSpec)
    ensures count { result.0 ≡ walk.joining following.now }
    ensures within { result.0 ≤ length following.now }
    ensures last { result.1.now ≡ unwrap_or (last_or None (calculation_specs_in (take (walk.joining following.now) following.now))) first.now }
{
    let mut last = first;
    for (i, card) in following.iter().enumerate() {
        let Some(calculation) = card.calculation() else {
            return (i, last);
        };
        if !joins(calculation) {
            return (i, last);
        }
        last = calculation;
    }
    (following.len(), last)
}
