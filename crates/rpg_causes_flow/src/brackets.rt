//! The BEGSR and ENDSR of SR groups, by card.

ghost use Rattle.std.specs.Prelude.{◌≡◌, Some};
ghost use Rattle.rpg_cards.specs.Statements as statements;
ghost use Rattle.rpg_causes_flow.specs.Order as causes;
ghost use Rattle.rpg_causes_flow.specs.ByCard as by_card;
ghost use Rattle.rpg_faults_flow.specs.Order as rules;

use rpg_cards::{SpecCard, begins_subroutine, ends_subroutine, is_subroutine, joins, last_card};
use rpg_sheet_specs::{CalculationSpec, ControlLevel};

/// A BEGSR or an ENDSR, and the card on which its group ends.
#[derive(Clone, Copy)]
pub(crate) struct Bracket {
    pub(crate) card: u16,
    pub(crate) is_end: bool,
}

// ---- the section of a group

/// Returns columns 7 and 8 of the first card of a card's group.
pub(crate) fn level_in(group: &Option<ControlLevel>, calculation: &CalculationSpec) -> ControlLevel
    ensures { result ≡ by_card.calculation_level group.now calculation.now }
{
    match group {
        None => calculation.control_level,
        Some(level) => {
            if joins(calculation) {
                *level
            } else {
                calculation.control_level
            }
        }
    }
}

/// Returns those of the group that a card opens or continues.
pub(crate) fn level_with(group: &Option<ControlLevel>, card: &SpecCard) -> Option<ControlLevel>
    ensures { result ≡ by_card.level_with group.now card.now }
{
    Some(level_in(group, card.calculation()?))
}

// ---- BEGSR and ENDSR

pub(crate) fn is_bracket(calculation: &CalculationSpec) -> bool
    ensures { result ≡ rules.is_bracket (statements.statement_of calculation.now) }
{
    begins_subroutine(calculation) || ends_subroutine(calculation)
}

/// Returns the BEGSR or ENDSR that ends on a card.
pub(crate) fn bracket_on(
    group: &Option<ControlLevel>,
    card: &SpecCard,
    after: &[SpecCard],
) -> Option<Bracket>
    ensures { result ≡ causes.bracket_on group.now card.now after.now }
{
    let calculation = last_card(card, after)?;
    if is_subroutine(level_in(group, calculation)) && is_bracket(calculation) {
        Some(Bracket {
            card: card.number,
            is_end: ends_subroutine(calculation),
        })
    } else {
        None
    }
}

/// Returns the first one on the cards after a group of this section.
pub(crate) fn next_bracket(level: &ControlLevel, after: &[SpecCard]) -> Option<Bracket>
    ensures { result ≡ causes.next_bracket (Some level.now) after.now }
{
    let mut group = Some(*level);
    let mut rest = after;
    while let Some((card, following)) = rest.split_first() {
        let found = bracket_on(&group, card, following);
        if found.is_some() {
            return found;
        }
        group = level_with(&group, card);
        rest = following;
    }
    None
}

/// Whether a subroutine is open after one.
pub(crate) fn opens(bracket: Option<Bracket>) -> bool
    ensures { result ≡ causes.opens bracket }
{
    match bracket {
        None => false,
        Some(bracket) => !bracket.is_end,
    }
}
