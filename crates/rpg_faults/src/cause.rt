//! The table of rules: for each code the cause, which there is exactly if a card breaks the rule, and the columns that it is about.

ghost use Rattle.std.specs.Prelude.{◌≡◌, ◌≤◌, ◌∷◌, ◌++◌, is_some, length};
ghost use Rattle.rpg_faults.specs.Before.{AreBefore};
ghost use Rattle.rpg_faults.specs.CauseRanges as ranges;
ghost use Rattle.rpg_faults.specs.Causes as causes;
ghost use Rattle.rpg_faults.specs.Rules as rules;
ghost use Rattle.rpg_faults.specs.declared.code.FaultCode.TheVariants.{F9, F12, F16};

use crate::before::Before;
use crate::code::FaultCode;
use rpg_card_index::IndexedCards;
use rpg_cards::{SpecCard, last_card};
use rpg_causes_flow::{
    AnalyzedCards, NowhereCause, OrderCause, StrayCause, Target, TwiceFault, apart_cause,
    nowhere_cause, order_cause, order_range, recursion_cause, stray_cause, twice_cause,
};
use rpg_causes_operands::{
    FieldCause, IndexCause, IndicatorFault, OperandCause, Redefined, SizeFault, field_cause,
    index_cause, indicator_cause, operand_cause, redefined_name, size_cause, undefined_name,
};
use rpg_faults_data::{DataCause, data_cause};
use rpg_faults_flow::{ColumnCause, RoundingCause, on_calculation, rounding_cause};
use rpg_faults_limits::{
    FileCause, FileOnCard, LimitCause, file_cause, limit_cause, moved_disk, movement_range,
};
use rpg_faults_operands::{
    EditingCause, editing_cause, editing_columns, unknown_name, wrong_index,
};
use rpg_faults_places::{JoinCause, PlaceCause, join_cause, outside_cause};
use rpg_sheet_specs::ColumnRange;
use rpg_symbols::Name;

/// Why a card has a fault.
#[derive(Drop)]
pub enum Cause {
    /// F1: no card defines that name.
    UndefinedName(Name),
    /// F2
    RedefinedName(Redefined),
    /// F3
    Size(SizeFault),
    /// F4
    Operand(OperandCause),
    /// F5
    Index(IndexCause),
    /// F6
    Limit(LimitCause),
    /// F7
    File(FileCause),
    /// F8
    Indicator(IndicatorFault),
    /// F9 of a calculation.
    Column(ColumnCause),
    /// F9 of what LOKUP searches, and of an output field.
    Field(FieldCause),
    /// F9: spaces and skips for that file, the disk file.
    Movement(FileOnCard),
    /// F10
    Nowhere(NowhereCause),
    /// F11
    Twice(TwiceFault),
    /// F12 of a calculation card.
    Order(OrderCause),
    /// F12 of an I or O card.
    Stray(StrayCause),
    /// F13: the label, which is in another section.
    Apart(Target),
    /// F14: the subroutine that is called.
    Recursion(Target),
    /// F15
    Rounding(RoundingCause),
    /// F16: what is outside the record or the line.
    Outside(PlaceCause),
    /// F16 of control fields and match fields.
    Join(JoinCause),
    /// F17
    Editing(EditingCause),
    /// F18
    Data(DataCause),
}

/// Returns why a card breaks the rule of a code, or None if it doesn't. Inlined: a code that is known takes no table.
#[inline(always)]
#[tactic(auto, unfolding(crate::specs::Causes::cause_of, crate::specs::Rules::rule))]
pub(crate) fn cause_of(
    code: FaultCode,
    source: &AnalyzedCards,
    known: &Before,
    before: &[SpecCard],
    card: &SpecCard,
    after: &[SpecCard],
) -> Option<Cause>
    requires split { source.now.cards.now ≡ before.now ++ card.now ∷ after.now }
    requires known { AreBefore source.now.cards.now before.now (card.now ∷ after.now) known.now }
    ensures cause { result ≡ causes.cause_of code before.now card.now after.now }
    ensures rule { is_some result ≡ rules.rule code before.now card.now after.now }
{
    let cards = source.cards;
    let labels = &source.labels;
    let flow = &known.flow;
    match code {
        FaultCode::F1 => Some(Cause::UndefinedName(undefined_name(cards, card, after)?)),
        FaultCode::F2 => {
            let count = flow.definition_count();
            Some(Cause::RedefinedName(redefined_name(cards, count, before, card, after)?))
        }
        FaultCode::F3 => Some(Cause::Size(size_cause(card)?)),
        FaultCode::F4 => Some(Cause::Operand(operand_cause(cards, card, after)?)),
        FaultCode::F5 => Some(Cause::Index(index_cause(cards, card, after)?)),
        FaultCode::F6 => {
            let cause = limit_cause(cards, &known.sheets, &known.limits, before, card, after)?;
            Some(Cause::Limit(cause))
        }
        FaultCode::F7 => {
            Some(Cause::File(file_cause(cards, &known.sheets, before, card, after)?))
        }
        FaultCode::F8 => Some(Cause::Indicator(indicator_cause(cards, card)?)),
        FaultCode::F9 => missing(cards, known, before, card, after),
        FaultCode::F10 => Some(Cause::Nowhere(nowhere_cause(labels, before, card, after)?)),
        FaultCode::F11 => {
            Some(Cause::Twice(twice_cause(cards, labels, flow, before, card, after)?))
        }
        FaultCode::F12 => misordered(cards, known, before, card, after),
        FaultCode::F13 => Some(Cause::Apart(apart_cause(labels, flow, before, card, after)?)),
        FaultCode::F14 => {
            Some(Cause::Recursion(recursion_cause(labels, flow, before, card, after)?))
        }
        FaultCode::F15 => Some(Cause::Rounding(rounding_cause(before, card, after)?)),
        FaultCode::F16 => misplaced(cards, known, before, card, after),
        FaultCode::F17 => Some(Cause::Editing(editing_cause(cards, card)?)),
        FaultCode::F18 => Some(Cause::Data(data_cause(cards, &known.decks, before, card)?)),
    }
}

/// F9: the cause in a calculation, in fields, or in a line.
#[tactic(auto, unfolding(crate::specs::Rules::rule))]
fn missing(
    source: &IndexedCards,
    known: &Before,
    before: &[SpecCard],
    card: &SpecCard,
    after: &[SpecCard],
) -> Option<Cause>
    requires split { source.now ≡ before.now ++ card.now ∷ after.now }
    requires known { AreBefore source.now before.now (card.now ∷ after.now) known.now }
    ensures cause { result ≡ causes.missing_cause before.now card.now after.now }
    ensures rule { is_some result ≡ rules.rule F9 before.now card.now after.now }
{
    if let Some(cause) = on_calculation(known.group, before, card, after) {
        return Some(Cause::Column(cause));
    }
    if let Some(cause) = field_cause(source, card, after) {
        return Some(Cause::Field(cause));
    }
    Some(Cause::Movement(moved_disk(source, &known.sheets, before, card)?))
}

/// F12: the cause on a calculation card, or on an I or O card.
#[tactic(auto, unfolding(crate::specs::Rules::rule))]
fn misordered(
    source: &IndexedCards,
    known: &Before,
    before: &[SpecCard],
    card: &SpecCard,
    after: &[SpecCard],
) -> Option<Cause>
    requires split { source.now ≡ before.now ++ card.now ∷ after.now }
    requires known { AreBefore source.now before.now (card.now ∷ after.now) known.now }
    ensures cause { result ≡ causes.misordered before.now card.now after.now }
    ensures rule { is_some result ≡ rules.rule F12 before.now card.now after.now }
{
    if let Some(cause) = order_cause(&known.flow, before, card, after) {
        return Some(Cause::Order(cause));
    }
    Some(Cause::Stray(stray_cause(source, &known.sheets, before, card)?))
}

/// F16: the cause in the card's own columns, or in control fields and match fields.
#[tactic(auto, unfolding(crate::specs::Rules::rule), using(rpg_faults_places::proofs::JoinRule::misplaces_is))]
fn misplaced(
    source: &IndexedCards,
    known: &Before,
    before: &[SpecCard],
    card: &SpecCard,
    after: &[SpecCard],
) -> Option<Cause>
    requires split { source.now ≡ before.now ++ card.now ∷ after.now }
    requires few { length source.now ≤ 2000 }
    requires known { AreBefore source.now before.now (card.now ∷ after.now) known.now }
    ensures cause { result ≡ causes.misplaced_cause before.now card.now after.now }
    ensures rule { is_some result ≡ rules.rule F16 before.now card.now after.now }
{
    if let Some(cause) = outside_cause(source, &known.sheets, before, card) {
        return Some(Cause::Outside(cause));
    }
    Some(Cause::Join(join_cause(source, &known.places, before, card, after)?))
}

/// Returns the columns of a card that a cause is about, or None for the card as a whole.
pub(crate) fn cause_range(
    source: &IndexedCards,
    card: &SpecCard,
    after: &[SpecCard],
    cause: &Cause,
) -> Option<ColumnRange>
    ensures { result ≡ ranges.cause_range source.now card.now after.now cause.now }
{
    match cause {
        Cause::UndefinedName(_) => Some(unknown_name(source, card, after)),
        Cause::RedefinedName(redefined) => redefined.range(card),
        Cause::Size(fault) => Some(fault.at),
        Cause::Operand(cause) => Some(cause.range(card)),
        Cause::Index(_) => Some(wrong_index(source, card, after)),
        Cause::Limit(cause) => cause.range(),
        Cause::File(cause) => Some(cause.range()),
        Cause::Indicator(fault) => Some(fault.at),
        Cause::Column(cause) => Some(cause.range(card.calculation()?)),
        Cause::Field(cause) => Some(cause.range(last_card(card, after))),
        Cause::Movement(_) => movement_range(card),
        Cause::Nowhere(_) | Cause::Apart(_) | Cause::Recursion(_) => {
            Some(ColumnRange::SecondFactor)
        }
        Cause::Twice(fault) => Some(fault.at),
        Cause::Order(_) => order_range(card),
        Cause::Stray(cause) => cause.range(),
        Cause::Rounding(cause) => Some(cause.range()),
        Cause::Outside(cause) => Some(cause.range()),
        Cause::Join(cause) => cause.range(),
        Cause::Editing(_) => editing_columns(card),
        Cause::Data(_) => data_range(card),
    }
}

/// F18: the entries per card, which require data.
fn data_range(card: &SpecCard) -> Option<ColumnRange>
    ensures { result ≡ ranges.data_range card.now }
{
    card.extension()?;
    Some(ColumnRange::EntriesPerCard)
}
