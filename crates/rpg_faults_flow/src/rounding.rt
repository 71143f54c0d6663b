//! F15: H on an operation that can't half-adjust, and MVR without a division.

ghost use Rattle.std.specs.Prelude.{◌≡◌, is_some, false, option_copied};
ghost use Rattle.std.specs.Option.{option_map_or};
ghost use Rattle.rpg_cards.specs.Cards.{calculation_on};
ghost use Rattle.rpg_faults_flow.specs.RoundingCauses as causes;
ghost use Rattle.rpg_faults_flow.specs.Rounding as rules;

use rpg_cards::{SpecCard, columns, joins, last_card};
use rpg_sheet_specs::{CalculationSpec, ColumnRange, Operation};

/// Why H or MVR isn't allowed.
#[derive(Clone, Copy)]
pub enum RoundingCause {
    /// H on a card followed by AN or OR cards.
    LastCardAlone,
    /// H without an operation.
    NoOperation,
    /// H with an operation that can't half-adjust.
    NotRounded,
    /// MVR with AN or OR cards.
    SeveralCards,
    /// MVR without a DIV without H right before it.
    NoDivision,
}

impl RoundingCause {
    /// Returns the columns of a card that the cause is about: H, or the operation that requires a division before it.
    pub fn range(self) -> ColumnRange
        ensures { result ≡ causes.rounding_range self }
    {
        match self {
            RoundingCause::LastCardAlone | RoundingCause::NoOperation | RoundingCause::NotRounded =>
                ColumnRange::HalfAdjust,
            RoundingCause::SeveralCards | RoundingCause::NoDivision => ColumnRange::Operation,
        }
    }
}

/// F15: why H or MVR isn't allowed.
pub fn rounding_cause(
    before: &[SpecCard],
    card: &SpecCard,
    after: &[SpecCard],
) -> Option<RoundingCause>
    ensures cause { result ≡ causes.rounding_cause before.now card.now after.now }
    ensures rule { is_some result ≡ rules.bad_rounding before.now card.now after.now }
{
    let calculation = card.calculation()?;
    let last = last_card(card, after);
    match of_half_adjust(calculation, last) {
        Some(cause) => Some(cause),
        None => of_remainder(before, calculation, last),
    }
}

fn of_half_adjust(
    calculation: &CalculationSpec,
    last: Option<&CalculationSpec>,
) -> Option<RoundingCause>
    ensures cause { result ≡ causes.of_half_adjust calculation.now (option_copied last.entry) }
    ensures rule { is_some result ≡ rules.rounds_nothing calculation.now (option_copied last.entry) }
{
    if !calculation.half_adjust {
        return None;
    }
    let Some(last) = last else {
        return Some(RoundingCause::LastCardAlone);
    };
    match last.operation {
        None => Some(RoundingCause::NoOperation),
        Some(operation) if columns(operation).may_half_adjust => None,
        Some(_) => Some(RoundingCause::NotRounded),
    }
}

fn of_remainder(
    before: &[SpecCard],
    calculation: &CalculationSpec,
    last: Option<&CalculationSpec>,
) -> Option<RoundingCause>
    ensures cause { result ≡ causes.of_remainder before.now calculation.now (option_copied last.entry) }
    ensures rule { is_some result ≡ rules.lacks_remainder before.now calculation.now (option_copied last.entry) }
{
    let is_remainder = last?.operation == Some(Operation::MoveRemainder);
    if !is_remainder {
        None
    } else if joins(calculation) {
        Some(RoundingCause::SeveralCards)
    } else if follows_division(before) {
        None
    } else {
        Some(RoundingCause::NoDivision)
    }
}

/// Whether the previous card is the last one of a division without H.
#[tactic(auto, using(crate::proofs::Groups::is_division_after))]
fn follows_division(before: &[SpecCard]) -> bool
    ensures { result ≡ rules.follows_division before.now }
{
    match before.split_last() {
        None => false,
        Some((card, _)) => leaves_remainder(card),
    }
}

fn leaves_remainder(card: &SpecCard) -> bool
    ensures { result ≡ option_map_or rules.leaves_remainder (calculation_on card.now.spec) false }
{
    match card.calculation() {
        None => false,
        Some(calculation) => {
            calculation.operation == Some(Operation::Divide) && !calculation.half_adjust
        }
    }
}
