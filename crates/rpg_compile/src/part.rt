//! The sections of calculations.

ghost use Rattle.std.specs.Prelude.{◌≡◌, [], option_copied, MatchOption};
ghost use Rattle.rpg_cards.specs.Statements as statements;
ghost use Rattle.rpg_compile.specs.Walk as walk;

use crate::group::{CardGroup, next_group};
use rpg_cards::{SpecCard, begins_subroutine, is_subroutine, plain_name};
use rpg_sheet_specs::{CalculationSpec, ControlLevel};
use rpg_symbols::Name;

/// Which calculations are compiled together.
#[derive(Clone, Copy)]
pub(crate) enum Part {
    Detail,
    Total,
    /// Those of a subroutine, up to the next BEGSR.
    Body,
}

impl Part {
    /// Whether the section has the groups whose first card has this in columns 7 and 8.
    fn has(self, control_level: ControlLevel) -> bool
        ensures { result ≡ walk.belongs self control_level }
    {
        matches!(
            (self, control_level),
            (Part::Detail, ControlLevel::Detail)
                | (Part::Total, ControlLevel::Total(_))
                | (Part::Body, ControlLevel::Subroutine)
        )
    }

    /// Whether the section ends before a group with this operation.
    fn ends_before(self, calculation: &CalculationSpec) -> bool
        ensures { result ≡ walk.ends_before self (statements.statement_of calculation.now) }
    {
        match self {
            Part::Detail | Part::Total => false,
            Part::Body => begins_subroutine(calculation),
        }
    }
}

/// Returns the next group of a section, and the cards after it.
pub(crate) fn next_in(part: Part, cards: &[SpecCard]) -> Option<(CardGroup<'_>, &[SpecCard])>
    ensures { MatchOption result (walk.section_in part cards.now ≡ [])
        (λ r. walk.IsNextInPart part cards.now r.0 r.1.now) }
{
    let mut rest = cards;
    while let Some((group, following)) = next_group(rest) {
        if part.has(group.first().control_level) {
            if part.ends_before(group.last()) {
                return None;
            }
            return Some((group, following));
        }
        rest = following;
    }
    None
}

/// Returns the name of the next subroutine, and the cards after its BEGSR.
pub(crate) fn next_subroutine(cards: &[SpecCard]) -> Option<(Option<&Name>, &[SpecCard])>
    ensures { MatchOption result (walk.subroutines_in cards.now ≡ [])
        (λ r. walk.IsNextSubroutine cards.now (option_copied r.0) r.1.now) }
{
    let mut rest = cards;
    while let Some((group, following)) = next_group(rest) {
        let begin = group.last();
        if is_subroutine(group.first().control_level) && begins_subroutine(begin) {
            return Some((given_name(begin), following));
        }
        rest = following;
    }
    None
}

/// Returns the name in factor 1.
pub(crate) fn given_name(calculation: &CalculationSpec) -> Option<&Name>
    ensures { option_copied result ≡ statements.given_name calculation.now }
{
    plain_name(calculation.factor_1.as_ref()?)
}

/// Returns the name in factor 2.
pub(crate) fn wanted_name(calculation: &CalculationSpec) -> Option<&Name>
    ensures { option_copied result ≡ statements.wanted_name calculation.now }
{
    plain_name(calculation.factor_2.as_ref()?)
}
