//! F12 of calculation cards: sections out of order, unpaired BEGSR and ENDSR, and AN and OR cards without a card to continue.

ghost use Rattle.std.specs.Prelude.{◌≡◌, List, ◌∷◌, is_some, option_and_then};
ghost use Rattle.rpg_cards.specs.Calculations.{card_ending};
ghost use Rattle.rpg_cards.specs.Cards.{calculation_on};
ghost use Rattle.rpg_cards.specs.Groups as groups;
ghost use Rattle.rpg_cards.specs.declared.spec_card.SpecCard.{SpecCard};
ghost use Rattle.rpg_causes_flow.specs.Flow as flows;
ghost use Rattle.rpg_causes_flow.specs.Order as causes;
ghost use Rattle.rpg_faults_flow.specs.Order as rules;

use crate::brackets::{Bracket, is_bracket, level_in, next_bracket, opens};
use crate::flow::Flow;
use rpg_cards::{
    SpecCard, begins_subroutine, defined_name, ends_subroutine, group_end, is_subroutine, joins,
    last_card,
};
use rpg_sheet_specs::{CalculationSpec, ColumnRange, ControlLevel};
use rpg_symbols::Name;

/// What is wrong with the order of calculation cards.
#[derive(Drop)]
pub enum OrderCause {
    /// AN or OR without a calculation card right before it.
    Unjoined,
    /// The card's section comes before that of an earlier card.
    Early {
        own: ControlLevel,
        later: ControlLevel,
        card: u16,
    },
    /// SR outside all subroutines: after the ENDSR of that card, or before the first BEGSR.
    Outside(Option<u16>),
    /// ENDSR, or otherwise BEGSR, on a card without SR.
    OutsideSection {
        is_end: bool,
    },
    /// ENDSR without BEGSR: after the ENDSR of that card, or as the first.
    NoBegsr(Option<u16>),
    /// BEGSR without ENDSR, with its name: the BEGSR of that card comes next, or none.
    NoEndsr {
        name: Option<Name>,
        next: Option<u16>,
    },
}

/// Returns the columns of a card that is out of order: BEGSR or ENDSR, otherwise columns 7 and 8.
pub fn order_range(card: &SpecCard) -> Option<ColumnRange>
    ensures { result ≡ causes.order_range card.now }
{
    Some(bracket_range(card.calculation()?))
}

fn bracket_range(calculation: &CalculationSpec) -> ColumnRange
    ensures { result ≡ causes.bracket_range calculation.now }
{
    if is_bracket(calculation) {
        ColumnRange::Operation
    } else {
        ColumnRange::ControlLevel
    }
}

/// F12 of a calculation card: what it needs before it, or after it.
#[tactic(auto, using(crate::proofs::OrderLemmas::order_rule))]
pub fn order_cause(
    flow: &Flow,
    before: &[SpecCard],
    card: &SpecCard,
    after: &[SpecCard],
) -> Option<OrderCause>
    requires { flows.IsFlow before.now (card.now ∷ after.now) flow.now }
    ensures cause { result ≡ causes.order_cause before.now card.now after.now }
    ensures rule { is_some result ≡ rules.breaks_order before.now card.now after.now }
{
    of_card(flow, before, card, after)
}

fn of_card(
    flow: &Flow,
    before: &[SpecCard],
    card: &SpecCard,
    after: &[SpecCard],
) -> Option<OrderCause>
    requires { flows.IsFlow before.now (card.now ∷ after.now) flow.now }
    ensures { result ≡ causes.order_cause before.now card.now after.now }
{
    match on_first(flow, before, card, after) {
        Some(cause) => Some(cause),
        None => on_last(flow, before, card, after),
    }
}

// ---- on the first card of a group

fn on_first(
    flow: &Flow,
    before: &[SpecCard],
    card: &SpecCard,
    after: &[SpecCard],
) -> Option<OrderCause>
    requires { flows.IsFlow before.now (card.now ∷ after.now) flow.now }
    ensures { result ≡ option_and_then (causes.first_card before.now card.now after.now) (calculation_on card.now.spec) }
{
    of_group(flow, before, card, card.calculation()?, after)
}

fn of_group(
    flow: &Flow,
    before: &[SpecCard],
    card: &SpecCard,
    calculation: &CalculationSpec,
    after: &[SpecCard],
) -> Option<OrderCause>
    requires { flows.IsFlow before.now (card.now ∷ after.now) flow.now }
    ensures { result ≡ causes.of_group (groups.joins calculation.now.control_level) before.now card.now calculation.now after.now }
{
    if joins(calculation) {
        return unless_open(flow);
    }
    match first_later(flow, &calculation.control_level) {
        Some(cause) => Some(cause),
        None => if_outside(calculation, after, flow.bracket),
    }
}

/// Returns the cause for AN or OR without a calculation right before it.
fn unless_open(flow: &Flow) -> Option<OrderCause>
    ensures { (before rest : List SpecCard) → flows.IsFlow before rest flow.now → result ≡ causes.unless_open before }
{
    if flow.group.is_some() {
        return None;
    }
    Some(OrderCause::Unjoined)
}

/// Returns the first card of a later section.
fn first_later(flow: &Flow, own: &ControlLevel) -> Option<OrderCause>
    ensures { (before rest : List SpecCard) → flows.IsFlow before rest flow.now → result ≡ causes.first_later own.now before }
{
    let later = match own {
        ControlLevel::Detail | ControlLevel::And | ControlLevel::Or => flow.total?,
        ControlLevel::Total(_) => flow.subroutine?,
        ControlLevel::Subroutine => {
            return None;
        }
    };
    Some(OrderCause::Early {
        own: *own,
        later: later.level,
        card: later.card,
    })
}

fn closes(bracket: Option<Bracket>) -> bool
    ensures { result ≡ causes.closes bracket }
{
    match bracket {
        None => false,
        Some(bracket) => bracket.is_end,
    }
}

fn card_of(bracket: Option<Bracket>) -> Option<u16>
    ensures { result ≡ causes.bracket_card bracket }
{
    Some(bracket?.card)
}

/// Returns the cause for SR outside all subroutines, by the last BEGSR or ENDSR before.
fn if_outside(
    calculation: &CalculationSpec,
    after: &[SpecCard],
    last: Option<Bracket>,
) -> Option<OrderCause>
    ensures { result ≡ causes.if_outside calculation.now after.now last }
{
    if is_subroutine(calculation.control_level)
        && !is_bracket(group_end(calculation, after))
        && !opens(last)
    {
        return Some(OrderCause::Outside(card_of(last)));
    }
    None
}

// ---- on the last card of a group

fn on_last(
    flow: &Flow,
    before: &[SpecCard],
    card: &SpecCard,
    after: &[SpecCard],
) -> Option<OrderCause>
    requires { flows.IsFlow before.now (card.now ∷ after.now) flow.now }
    ensures { result ≡ option_and_then (causes.of_end before.now card.now after.now) (card_ending card.now after.now) }
{
    let calculation = last_card(card, after)?;
    let level = level_in(&flow.group, calculation);
    if !is_subroutine(level) {
        return if_elsewhere(calculation);
    }
    match if_unbegun(calculation, flow.bracket) {
        Some(cause) => Some(cause),
        None if begins_subroutine(calculation) => {
            if_unended(calculation, next_bracket(&level, after))
        }
        None => None,
    }
}

/// Returns the cause for BEGSR or ENDSR without SR.
fn if_elsewhere(calculation: &CalculationSpec) -> Option<OrderCause>
    ensures { result ≡ causes.if_elsewhere calculation.now }
{
    if !is_bracket(calculation) {
        return None;
    }
    Some(OrderCause::OutsideSection {
        is_end: ends_subroutine(calculation),
    })
}

/// Returns the cause for ENDSR without BEGSR.
fn if_unbegun(calculation: &CalculationSpec, last: Option<Bracket>) -> Option<OrderCause>
    ensures { result ≡ causes.if_unbegun calculation.now last }
{
    if ends_subroutine(calculation) && !opens(last) {
        return Some(OrderCause::NoBegsr(card_of(last)));
    }
    None
}

/// Returns the cause for BEGSR without ENDSR.
fn if_unended(calculation: &CalculationSpec, next: Option<Bracket>) -> Option<OrderCause>
    ensures { result ≡ causes.if_unended calculation.now next }
{
    if begins_subroutine(calculation) && !closes(next) {
        return Some(OrderCause::NoEndsr {
            name: begun_name(calculation),
            next: card_of(next),
        });
    }
    None
}

fn begun_name(calculation: &CalculationSpec) -> Option<Name>
    ensures { result ≡ causes.begun_name calculation.now }
{
    Some(defined_name(calculation)?.name)
}
