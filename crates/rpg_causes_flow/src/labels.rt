//! F10 and F11: undefined labels and subroutines, and names that are defined twice.

ghost use Rattle.std.specs.Prelude.{◌≡◌, List, [], ◌∷◌, ◌++◌, is_some, false, option_and_then};
ghost use Rattle.std.specs.Option.{option_map_or};
ghost use Rattle.rpg_cards.specs.Calculations.{calculation_ending, calculations_before};
ghost use Rattle.rpg_cards.specs.Labels as known;
ghost use Rattle.rpg_cards.specs.Names as names;
ghost use Rattle.rpg_cards.specs.declared.spec_card.SpecCard.{SpecCard};
ghost use Rattle.rpg_causes_flow.specs.Flow.{IsFlow};
ghost use Rattle.rpg_causes_flow.specs.Labels as causes;
ghost use Rattle.rpg_causes_operands.specs.Names as defined;
ghost use Rattle.rpg_faults_flow.specs.Flow as rules;

use crate::flow::Flow;
use crate::index::Labels;
use rpg_card_index::IndexedCards;
use rpg_cards::{Definition, Named, SpecCard, defined_name, last_card, target_name};
use rpg_causes_operands::first_defining;
use rpg_sheet_specs::{ColumnRange, Word};
use rpg_symbols::Name;

/// The card that defines a label or a subroutine.
#[derive(Clone, Copy)]
pub struct Giver {
    pub card: u16,
    pub is_subroutine: bool,
}

/// Why the target of a GOTO or EXSR doesn't exist.
#[derive(Drop)]
pub enum NowhereCause {
    /// No card defines the name.
    Absent(Named),
    /// The name is a label instead of a subroutine, or the other way around.
    Other { name: Name, giver: Giver },
}

/// What defined a name before.
#[derive(Drop)]
pub enum TwiceCause {
    /// A label or a subroutine has it.
    Given { name: Name, giver: Giver },
    /// A field of this card has it.
    Field { name: Name, card: u16 },
    /// A field that every program has.
    EveryProgram(Name),
}

/// A name that is defined twice, with its columns.
#[derive(Drop)]
pub struct TwiceFault {
    pub at: ColumnRange,
    pub cause: TwiceCause,
}

/// A label or a subroutine that a card names, with the card that defines it.
#[derive(Drop)]
pub struct Target {
    pub name: Name,
    pub card: u16,
}

// ---- the card that defines a name

/// Returns the name that the calculation that ends on a card defines.
fn given_on(card: &SpecCard, after: &[SpecCard]) -> Option<Named>
    ensures { result ≡ causes.name_given_on card.now after.now }
{
    defined_name(last_card(card, after)?)
}

// ---- F10

/// F10: the label or the subroutine that isn't defined, or is the other of the two.
#[tactic(auto, using(crate::proofs::LabelLemmas::nowhere_rule))]
pub fn nowhere_cause(
    labels: &Labels,
    before: &[SpecCard],
    card: &SpecCard,
    after: &[SpecCard],
) -> Option<NowhereCause>
    ensures cause { result ≡ causes.nowhere_cause labels.now card.now after.now }
    ensures rule { is_some result ≡ rules.lacks_target labels.now before.now card.now after.now }
{
    of_wanted(labels, target_name(last_card(card, after)?)?)
}

fn of_wanted(labels: &Labels, wanted: Named) -> Option<NowhereCause>
    ensures { result ≡ causes.of_wanted labels.now wanted }
{
    match labels.giver(&wanted.name) {
        None => Some(NowhereCause::Absent(wanted)),
        Some(giver) if giver.is_subroutine == wanted.is_subroutine => None,
        Some(giver) => Some(NowhereCause::Other {
            name: Word::new(wanted.name.as_slice()),
            giver,
        }),
    }
}

// ---- F11

/// F11: what defined a name before.
pub fn twice_cause(
    source: &IndexedCards,
    labels: &Labels,
    flow: &Flow,
    before: &[SpecCard],
    card: &SpecCard,
    after: &[SpecCard],
) -> Option<TwiceFault>
    requires split { source.now ≡ before.now ++ card.now ∷ after.now }
    requires same { labels.now ≡ source.now }
    requires flow { IsFlow before.now (card.now ∷ after.now) flow.now }
    ensures cause { result ≡ causes.twice before.now card.now after.now }
    ensures rule { is_some result ≡ rules.repeats_name before.now card.now after.now }
{
    if let Some(cause) = of_given_on(source, labels, flow, before, card, after) {
        let at = ColumnRange::FirstFactor;
        return Some(TwiceFault { at, cause });
    }
    let cause = of_definitions(labels, before, card, after)?;
    let at = ColumnRange::ResultName;
    Some(TwiceFault { at, cause })
}

#[tactic(auto, using(crate::proofs::LabelLemmas::again_is))]
fn of_given_on(
    source: &IndexedCards,
    labels: &Labels,
    flow: &Flow,
    before: &[SpecCard],
    card: &SpecCard,
    after: &[SpecCard],
) -> Option<TwiceCause>
    requires split { source.now ≡ before.now ++ card.now ∷ after.now }
    requires same { labels.now ≡ source.now }
    requires flow { IsFlow before.now (card.now ∷ after.now) flow.now }
    ensures cause { result ≡ option_and_then (causes.of_given before.now card.now after.now) (causes.name_given_on card.now after.now) }
    ensures rule { is_some result ≡ option_map_or (rules.defines_again before.now card.now after.now) (calculation_ending before.now card.now after.now) false }
{
    let named = given_on(card, after)?;
    match if_given(labels, before, card, after, &named.name) {
        Some(cause) => Some(cause),
        None => if_field(source, flow, before, card, after, &named.name),
    }
}

/// Returns the cause if a label or a subroutine before a card has the name.
#[tactic(auto, using(crate::proofs::LabelLemmas::is_given_is))]
fn if_given(
    labels: &Labels,
    before: &[SpecCard],
    card: &SpecCard,
    after: &[SpecCard],
    name: &Name,
) -> Option<TwiceCause>
    requires { labels.now ≡ before.now ++ card.now ∷ after.now }
    ensures cause { result ≡ causes.if_given before.now card.now after.now name.now }
    ensures rule { is_some result ≡ is_some (known.label_named name.now (known.labels (calculations_before before.now (card.now ∷ after.now)))) }
{
    let giver = labels.giver_before(name, before.len())?;
    Some(TwiceCause::Given {
        name: Word::new(name.as_slice()),
        giver,
    })
}

/// Returns the cause if a field up to a card has the name.
fn if_field(
    source: &IndexedCards,
    flow: &Flow,
    before: &[SpecCard],
    card: &SpecCard,
    after: &[SpecCard],
    name: &Name,
) -> Option<TwiceCause>
    requires split { source.now ≡ before.now ++ card.now ∷ after.now }
    requires flow { IsFlow before.now (card.now ∷ after.now) flow.now }
    ensures cause { result ≡ causes.if_names_field (before.now ++ card.now ∷ []) name.now }
    ensures rule { is_some result ≡ rules.is_defined name.now (names.definitions (before.now ++ card.now ∷ [])) }
{
    let definitions = usize::from(flow.definitions) + card.definition_count();
    if source.is_new_name(definitions, name) {
        return None;
    }
    of_field(source, source.up_to(before, card, after), name)
}

fn of_field(source: &IndexedCards, cards: &[SpecCard], name: &Name) -> Option<TwiceCause>
    ensures { result ≡ causes.if_names_field cards.now name.now }
{
    let own = Word::new(name.as_slice());
    if !source.is_new_name(0, name) {
        return Some(TwiceCause::EveryProgram(own));
    }
    let card = first_defining(cards, name)?;
    Some(TwiceCause::Field { name: own, card })
}

fn of_definitions(
    labels: &Labels,
    before: &[SpecCard],
    card: &SpecCard,
    after: &[SpecCard],
) -> Option<TwiceCause>
    requires { labels.now ≡ before.now ++ card.now ∷ after.now }
    ensures cause { result ≡ defined.first_some (causes.of_definition before.now card.now after.now) (names.definitions_on card.now.spec) }
    ensures rule { is_some result ≡ rules.defines_label (known.labels (calculations_before before.now (card.now ∷ after.now))) card.now }
{
    if labels.is_empty() {
        return None;
    }
    let definitions = card.definitions();
    of_definitions_among(labels, before, card, after, definitions.as_slice())
}

/// Returns the first of these whose name is defined before the card.
fn of_definitions_among(
    labels: &Labels,
    before: &[SpecCard],
    card: &SpecCard,
    after: &[SpecCard],
    items: &[Definition],
) -> Option<TwiceCause>
    requires { labels.now ≡ before.now ++ card.now ∷ after.now }
    ensures cause { result ≡ defined.first_some (causes.of_definition before.now card.now after.now) items.now }
    ensures rule { is_some result ≡ causes.any_given before.now card.now after.now items.now }
{
    for definition in items {
        let cause = if_given(labels, before, card, after, &definition.name);
        if cause.is_some() {
            return cause;
        }
    }
    None
}

// ---- F13, F14

/// Returns the label or the subroutine that a card names.
pub fn target_on(labels: &Labels, card: &SpecCard, after: &[SpecCard]) -> Option<Target>
    ensures { result ≡ causes.card_target labels.now card.now after.now }
{
    target_by(labels, target_name(last_card(card, after)?)?)
}

fn target_by(labels: &Labels, wanted: Named) -> Option<Target>
    ensures { result ≡ causes.target_by labels.now wanted }
{
    let giver = labels.giver(&wanted.name)?;
    Some(Target {
        name: Word::new(wanted.name.as_slice()),
        card: giver.card,
    })
}
