//! F13, F14: GOTO to another section, and calls that lead back.

ghost use Rattle.std.specs.Prelude.{◌≡◌, ◌∷◌, ◌++◌, is_some};
ghost use Rattle.rpg_causes_flow.specs.Flow.{IsFlow};
ghost use Rattle.rpg_causes_flow.specs.Index as index;
ghost use Rattle.rpg_causes_flow.specs.Labels as causes;
ghost use Rattle.rpg_faults_flow.specs.Flow as rules;

use crate::flow::{Flow, section_at};
use crate::index::Labels;
use crate::labels::{Target, target_on};
use rpg_cards::{Named, Section, SpecCard, last_card, target_name};
use rpg_sheet_specs::CalculationSpec;

// ---- F13

/// F13: the label that the calculation goes to, if that is in another section.
pub fn apart_cause(
    labels: &Labels,
    flow: &Flow,
    before: &[SpecCard],
    card: &SpecCard,
    after: &[SpecCard],
) -> Option<Target>
    requires { IsFlow before.now (card.now ∷ after.now) flow.now }
    ensures cause { result ≡ causes.apart labels.now before.now card.now after.now }
    ensures rule { is_some result ≡ rules.leaves_its_section labels.now before.now card.now after.now }
{
    if leaves_its_section(labels, flow, before, card, after) {
        target_on(labels, card, after)
    } else {
        None
    }
}

fn leaves_its_section(
    labels: &Labels,
    flow: &Flow,
    before: &[SpecCard],
    card: &SpecCard,
    after: &[SpecCard],
) -> bool
    requires { IsFlow before.now (card.now ∷ after.now) flow.now }
    ensures { result ≡ rules.leaves_its_section labels.now before.now card.now after.now }
{
    match last_card(card, after) {
        None => false,
        Some(calculation) => leaves_section(labels, flow, calculation),
    }
}

fn leaves_section(labels: &Labels, flow: &Flow, calculation: &CalculationSpec) -> bool
    ensures { result ≡ index.leaves_section labels.now flow.now calculation.now }
{
    match target_name(calculation) {
        None => false,
        Some(wanted) => leaves_by(labels, section_at(flow, calculation), &wanted),
    }
}

/// Whether the label that is referred to is in another section.
fn leaves_by(labels: &Labels, own: Section, wanted: &Named) -> bool
    ensures { result ≡ index.name_leaves labels.now own wanted.now }
{
    match labels.target(&wanted.name) {
        None => false,
        Some(target) => !target.0 && !wanted.is_subroutine && are_apart(own, target.1),
    }
}

fn are_apart(own: Section, other: Section) -> bool
    ensures { result ≡ rules.are_apart own other }
{
    match (own, other) {
        (Section::Outside, _) | (_, Section::Outside) => false,
        (Section::Detail, Section::Detail) | (Section::Total, Section::Total) => false,
        (Section::Subroutine(own), Section::Subroutine(other)) => own != other,
        _ => true,
    }
}

// ---- F14

/// F14: the subroutine that the calculation calls, if that one reaches the one it is in.
pub fn recursion_cause(
    labels: &Labels,
    flow: &Flow,
    before: &[SpecCard],
    card: &SpecCard,
    after: &[SpecCard],
) -> Option<Target>
    requires split { labels.now ≡ before.now ++ card.now ∷ after.now }
    requires flow { IsFlow before.now (card.now ∷ after.now) flow.now }
    ensures cause { result ≡ causes.recursion labels.now before.now card.now after.now }
    ensures rule { is_some result ≡ rules.calls_itself labels.now before.now card.now after.now }
{
    if calls_itself(labels, flow, before, card, after) {
        target_on(labels, card, after)
    } else {
        None
    }
}

fn calls_itself(
    labels: &Labels,
    flow: &Flow,
    before: &[SpecCard],
    card: &SpecCard,
    after: &[SpecCard],
) -> bool
    requires split { labels.now ≡ before.now ++ card.now ∷ after.now }
    requires flow { IsFlow before.now (card.now ∷ after.now) flow.now }
    ensures { result ≡ rules.calls_itself labels.now before.now card.now after.now }
{
    match last_card(card, after) {
        None => false,
        Some(calculation) => match labels.call(flow, calculation) {
            None => false,
            Some(call) => labels.leads_back(call),
        },
    }
}
