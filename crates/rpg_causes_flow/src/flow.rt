//! What the cards before a card have come to, as far as the flow of control depends on it.

ghost use Rattle.std.specs.Prelude.{◌≡◌, ◌≤◌, List, [], ◌∷◌, ◌++◌, length, option_and_then};
ghost use Rattle.std.specs.Option.{option_or};
ghost use Rattle.rpg_cards.specs.Cards.{calculation_on};
ghost use Rattle.rpg_cards.specs.Names.{definitions};
ghost use Rattle.rpg_cards.specs.declared.spec_card.SpecCard.{SpecCard};
ghost use Rattle.rpg_causes_flow.specs.Flow as flows;
ghost use Rattle.rpg_causes_flow.specs.Order as causes;
ghost use Rattle.rpg_faults_flow.specs.Order as rules;

use crate::brackets::{Bracket, bracket_on, level_in, level_with, opens};
use rpg_cards::{Section, SpecCard, begins_subroutine};
use rpg_sheet_specs::{CalculationSpec, ControlLevel};

/// A card of a section.
#[derive(Clone, Copy)]
pub struct Later {
    pub(crate) level: ControlLevel,
    pub(crate) card: u16,
}

/// What the cards before a card have come to.
#[derive(Clone, Copy)]
pub struct Flow {
    /// Columns 7 and 8 of the first card of the group that the previous card belongs to.
    pub(crate) group: Option<ControlLevel>,
    /// The first card after the detail section.
    pub(crate) total: Option<Later>,
    /// The first card after the total section.
    pub(crate) subroutine: Option<Later>,
    /// The last BEGSR or ENDSR of SR groups.
    pub(crate) bracket: Option<Bracket>,
    /// How many BEGSRs of SR groups there are.
    pub(crate) begun: u16,
    /// How many definitions of names there are.
    pub(crate) definitions: u16,
}

impl Flow {
    /// Before all cards.
    pub fn nothing() -> Self
        ensures { (cards : List SpecCard) → flows.IsFlow [] cards result }
    {
        Flow {
            group: None,
            total: None,
            subroutine: None,
            bracket: None,
            begun: 0,
            definitions: 0,
        }
    }

    /// Returns how many definitions of names there are.
    pub fn definition_count(&self) -> usize
        ensures { (before rest : List SpecCard) → flows.IsFlow before rest self.now → result ≡ length (definitions before) }
    {
        usize::from(self.definitions)
    }

    /// Moves on to the next card, in place, given the cards after it.
    pub fn pass(&mut self, before: &[SpecCard], card: &SpecCard, after: &[SpecCard])
        requires few { length before.now ≤ 2000 }
        requires flow { flows.IsFlow before.now (card.now ∷ after.now) self.old }
        ensures { flows.IsFlow (before.now ++ card.now ∷ []) after.now self.new }
    {
        let bracket = bracket_on(&self.group, card, after);
        note_last(&mut self.bracket, bracket);
        self.begun = begun_after(self.begun, bracket);
        note_first(&mut self.total, 0, card);
        note_first(&mut self.subroutine, 1, card);
        self.group = level_with(&self.group, card);
        self.definitions += card.definition_count() as u16;
    }
}

fn note_last(last: &mut Option<Bracket>, bracket: Option<Bracket>)
    ensures { last.new ≡ option_or bracket last.old }
{
    if bracket.is_some() {
        *last = bracket;
    }
}

/// Notes the first card whose section has a higher rank.
fn note_first(first: &mut Option<Later>, than: u8, card: &SpecCard)
    ensures { first.new ≡ option_or first.old (option_and_then (causes.if_above than card.now) (calculation_on card.now.spec)) }
{
    if first.is_none() {
        *first = if_above(than, card);
    }
}

/// Returns the rank of a section in the order of sections.
pub(crate) fn rank(control_level: ControlLevel) -> u8
    ensures { result ≡ rules.section_rank control_level }
{
    match control_level {
        ControlLevel::Detail | ControlLevel::And | ControlLevel::Or => 0,
        ControlLevel::Total(_) => 1,
        ControlLevel::Subroutine => 2,
    }
}

/// Returns a card whose section has a higher rank.
fn if_above(than: u8, card: &SpecCard) -> Option<Later>
    ensures { result ≡ option_and_then (causes.if_above than card.now) (calculation_on card.now.spec) }
{
    let calculation = card.calculation()?;
    if than < rank(calculation.control_level) {
        return Some(Later {
            level: calculation.control_level,
            card: card.number,
        });
    }
    None
}

/// Returns how many subroutines have begun after a BEGSR or ENDSR, if there is one.
fn begun_after(begun: u16, bracket: Option<Bracket>) -> u16
    requires { begun ≤ 2000 }
    ensures { result ≡ flows.begun_after begun bracket }
{
    match bracket {
        None => begun,
        Some(bracket) => if bracket.is_end { begun } else { begun + 1 },
    }
}

/// Returns the section of the calculation that ends on a card.
pub(crate) fn section_at(flow: &Flow, calculation: &CalculationSpec) -> Section
    ensures { result ≡ flows.section_at flow.now calculation.now }
{
    match level_in(&flow.group, calculation) {
        ControlLevel::Detail => Section::Detail,
        ControlLevel::Total(_) => Section::Total,
        ControlLevel::Subroutine => subroutine_at(flow, begins_subroutine(calculation)),
        ControlLevel::And | ControlLevel::Or => Section::Outside,
    }
}

fn subroutine_at(flow: &Flow, begins: bool) -> Section
    ensures { result ≡ flows.subroutine_at flow.now begins }
{
    if begins {
        Section::Subroutine(flow.begun)
    } else if opens(flow.bracket) {
        Section::Subroutine(flow.begun.saturating_sub(1))
    } else {
        Section::Outside
    }
}
