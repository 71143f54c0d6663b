//! The labels and subroutines of a source, and the calls between them.

ghost use Rattle.std.specs.Prelude.{◌≡◌, ◌≤◌, [], ◌++◌, List, length, nat_eq, nat_lt, None, Some, true, if◌then◌else◌, IfOk, IsTrue, OnOk};
ghost use Rattle.std.specs.Cmp.Lexicographic.{pointwise};
ghost use Rattle.std.specs.List.{list_any};
ghost use Rattle.std.specs.Option.{option_to_list};
ghost use Rattle.rpg_cards.specs.Calls as calls_of;
ghost use Rattle.rpg_cards.specs.declared.spec_card.SpecCard.{SpecCard};
ghost use Rattle.rpg_causes_flow.specs.Index as index;
ghost use Rattle.rpg_causes_flow.specs.Index.{IsIndexOf};
ghost use Rattle.rpg_causes_flow.specs.Labels as causes;
ghost use Rattle.rpg_symbols.specs.Chains.{reaches};

use crate::cycles::{cycles, has_call};
use crate::flow::{Flow, section_at};
use crate::labels::Giver;
use rpg_cards::{Named, Section, SpecCard, defined_name, last_card, target_name};
use rpg_sheet_specs::CalculationSpec;
use rpg_symbols::Name;
use std::alloc::{AllocError, Global};
use std::collections::HashMap;
use std::marker::Model;

/// The first label or subroutine with a name, and the card that defines it.
#[derive(Clone, Copy)]
pub(crate) struct FirstLabel {
    pub position: usize,
    pub card: u16,
    pub is_subroutine: bool,
    pub section: Section,
}

/// The cards of a source, with an index of their labels and subroutines.
#[derive(Drop)]
pub struct Labels<'a> {
    cards: &'a [SpecCard],
    names: HashMap<Name, FirstLabel>,
    /// The calls, as caller and callee, whose callee reaches the caller.
    cycles: Vec<(u16, u16)>,
}

impl<'a> Model for Labels<'a> {
    ghost use Rattle.std.specs.Prelude.{[], List};
    ghost use Rattle.rpg_cards.specs.declared.spec_card.SpecCard.{SpecCard};
    ghost use Rattle.rpg_causes_flow.specs.Index.{IsIndexOf, AreCyclesOf};

    ghost Value = { List SpecCard };

    ghost view = { λ l. l.cards.now };

    ghost invariant = { λ l. IsIndexOf l.names.entries l.cards.now [] × AreCyclesOf l.cycles.items l.cards.now };
}

impl<'a> Labels<'a> {
    /// Finds the first label of each name, and the recursive calls.
    pub fn new(alloc: Global, cards: &'a [SpecCard]) -> Result<Self, AllocError>
        requires { length cards.now ≤ 2000 }
        ensures { IfOk result (λ labels. labels ≡ cards.now) }
    {
        let names = names_of(alloc, cards)?;
        let calls = calls_of(alloc, cards, &names)?;
        let cycles = cycles(alloc, calls.as_slice())?;
        Ok(Labels {
            cards,
            names,
            cycles,
        })
    }

    /// Returns the card that defines a name first.
    pub(crate) fn giver(&self, name: &Name) -> Option<Giver>
        ensures { result ≡ causes.giver name.now self.now [] }
    {
        giver_in(&self.names, name)
    }

    /// Returns the card that defines a name first, if it is among the first `count`.
    pub(crate) fn giver_before(&self, name: &Name, count: usize) -> Option<Giver>
        ensures { (front rest : List SpecCard) → self.now ≡ front ++ rest → count ≡ length front → result ≡ causes.giver name.now front rest }
    {
        giver_among(&self.names, name, count)
    }

    /// Whether no card defines a label or a subroutine.
    pub(crate) fn is_empty(&self) -> bool
        ensures { IsTrue result → index.DefineNothing self.now }
    {
        has_none(&self.names)
    }

    /// Returns what the first label of a name is, and its section.
    pub(crate) fn target(&self, name: &Name) -> Option<(bool, Section)>
        ensures { result ≡ index.first_target name.now self.now }
    {
        target_in(&self.names, name)
    }

    /// Returns caller and callee of a call in a subroutine.
    pub(crate) fn call(&self, flow: &Flow, calculation: &CalculationSpec) -> Option<(u16, u16)>
        ensures { result ≡ index.calculation_call flow.now (index.labels_of self.now) calculation.now }
    {
        call_in(flow, &self.names, calculation)
    }

    /// Whether the callee of a call of the source reaches its caller.
    pub(crate) fn leads_back(&self, call: (u16, u16)) -> bool
        ensures { list_any (index.same_call call) (index.calls_of self.now) ≡ true → result ≡ reaches (index.calls_of self.now) call.1 call.0 }
    {
        has_call(self.cycles.as_slice(), call)
    }
}

/// Each name with its first label.
fn names_of(alloc: Global, cards: &[SpecCard]) -> Result<HashMap<Name, FirstLabel>, AllocError>
    requires { length cards.now ≤ 2000 }
    ensures { IfOk result (λ names. IsIndexOf names.entries cards.now []) }
{
    let mut names = HashMap::new(alloc);
    let mut flow = Flow::nothing();
    let mut before = &cards[..0];
    let mut rest = cards;
    while let Some((card, after)) = rest.split_first() {
        note_label(&mut names, before.len(), &flow, card, after)?;
        flow.pass(before, card, after);
        before = &cards[..before.len() + 1];
        rest = after;
    }
    Ok(names)
}

/// Notes the label that a card defines, if its name has none before.
fn note_label(
    names: &mut HashMap<Name, FirstLabel>,
    position: usize,
    flow: &Flow,
    card: &SpecCard,
    after: &[SpecCard],
) -> Result<(), AllocError>
    ensures { OnOk result (index.Notes (λ q. index.card_entry q position flow.now card.now after.now) names.old.entries names.new.entries) }
{
    match last_card(card, after) {
        None => Ok(()),
        Some(calculation) => note_calculation(names, position, flow, card, calculation),
    }
}

fn note_calculation(
    names: &mut HashMap<Name, FirstLabel>,
    position: usize,
    flow: &Flow,
    card: &SpecCard,
    calculation: &CalculationSpec,
) -> Result<(), AllocError>
    ensures { OnOk result (index.Notes (λ q. index.entry_of q position flow.now card.now calculation.now) names.old.entries names.new.entries) }
{
    match defined_name(calculation) {
        None => Ok(()),
        Some(named) => {
            let label = FirstLabel {
                position,
                card: card.number,
                is_subroutine: named.is_subroutine,
                section: section_at(flow, calculation),
            };
            note(names, named.name, label)
        }
    }
}

/// Stores a label under a name that has none.
fn note(
    names: &mut HashMap<Name, FirstLabel>,
    name: Name,
    label: FirstLabel,
) -> Result<(), AllocError>
    ensures { OnOk result (index.Notes (λ q. if pointwise nat_eq q name then Some label else None) names.old.entries names.new.entries) }
{
    if names.contains_key(&name) {
        return Ok(());
    }
    names.insert(name, label)?;
    Ok(())
}

/// Returns all calls in subroutines, as caller and callee.
fn calls_of(
    alloc: Global,
    cards: &[SpecCard],
    names: &HashMap<Name, FirstLabel>,
) -> Result<Vec<(u16, u16)>, AllocError>
    requires few { length cards.now ≤ 2000 }
    requires index { IsIndexOf names.now.entries cards.now [] }
    ensures { IfOk result (λ calls. calls.items ≡ index.calls_of cards.now) }
{
    let mut calls = Vec::new(alloc);
    if has_none(names) {
        return Ok(calls);
    }
    let mut flow = Flow::nothing();
    let mut before = &cards[..0];
    let mut rest = cards;
    while let Some((card, after)) = rest.split_first() {
        add_call(&mut calls, call_at(&flow, names, card, after))?;
        flow.pass(before, card, after);
        before = &cards[..before.len() + 1];
        rest = after;
    }
    Ok(calls)
}

/// Whether no card defines a label or a subroutine.
fn has_none(names: &HashMap<Name, FirstLabel>) -> bool
    ensures { (cards : List SpecCard) → IsIndexOf names.now.entries cards [] → IsTrue result → index.DefineNothing cards }
{
    names.is_empty()
}

/// Appends a call, if there is one.
fn add_call(calls: &mut Vec<(u16, u16)>, call: Option<(u16, u16)>) -> Result<(), AllocError>
    ensures { OnOk result (calls.new.items ≡ calls.old.items ++ option_to_list call) }
{
    if let Some(call) = call {
        calls.push(call)?;
    }
    Ok(())
}

/// Returns the call that ends on a card.
fn call_at(
    flow: &Flow,
    names: &HashMap<Name, FirstLabel>,
    card: &SpecCard,
    after: &[SpecCard],
) -> Option<(u16, u16)>
    ensures { (cards : List SpecCard) → IsIndexOf names.now.entries cards [] → result ≡ index.card_call flow.now (index.labels_of cards) card.now after.now }
{
    call_in(flow, names, last_card(card, after)?)
}

fn call_in(
    flow: &Flow,
    names: &HashMap<Name, FirstLabel>,
    calculation: &CalculationSpec,
) -> Option<(u16, u16)>
    ensures { (cards : List SpecCard) → IsIndexOf names.now.entries cards [] → result ≡ index.calculation_call flow.now (index.labels_of cards) calculation.now }
{
    let caller = subroutine_in(section_at(flow, calculation))?;
    let callee = called(names, &target_name(calculation)?)?;
    Some((caller, callee))
}

fn subroutine_in(section: Section) -> Option<u16>
    ensures { result ≡ calls_of.subroutine_in section }
{
    match section {
        Section::Subroutine(number) => Some(number),
        Section::Detail | Section::Total | Section::Outside => None,
    }
}

/// Returns the number of the called subroutine.
fn called(names: &HashMap<Name, FirstLabel>, wanted: &Named) -> Option<u16>
    ensures { (cards : List SpecCard) → IsIndexOf names.now.entries cards [] → result ≡ calls_of.called_subroutine (index.labels_of cards) wanted.now }
{
    let target = target_in(names, &wanted.name)?;
    if wanted.is_subroutine && target.0 {
        subroutine_in(target.1)
    } else {
        None
    }
}

/// Returns what the first label of a name is, and its section.
fn target_in(names: &HashMap<Name, FirstLabel>, name: &Name) -> Option<(bool, Section)>
    ensures { (cards : List SpecCard) → IsIndexOf names.now.entries cards [] → result ≡ index.first_target name.now cards }
{
    let first = names.get(name)?;
    Some((first.is_subroutine, first.section))
}

/// Returns the card that defines a name first.
fn giver_in(names: &HashMap<Name, FirstLabel>, name: &Name) -> Option<Giver>
    ensures { (cards : List SpecCard) → IsIndexOf names.now.entries cards [] → result ≡ causes.giver name.now cards [] }
{
    let first = names.get(name)?;
    Some(Giver {
        card: first.card,
        is_subroutine: first.is_subroutine,
    })
}

/// Returns the card that defines a name first, if it is among the first `count`.
fn giver_among(names: &HashMap<Name, FirstLabel>, name: &Name, count: usize) -> Option<Giver>
    ensures { (front rest : List SpecCard) → IsIndexOf names.now.entries (front ++ rest) [] → count ≡ length front → result ≡ causes.giver name.now front rest }
{
    match names.get(name) {
        None => None,
        Some(first) => giver_if(first, count),
    }
}

fn giver_if(first: &FirstLabel, count: usize) -> Option<Giver>
    ensures { result ≡ if nat_lt first.now.position count then Some (index.entry_giver first.now) else None }
{
    if first.position < count {
        Some(Giver {
            card: first.card,
            is_subroutine: first.is_subroutine,
        })
    } else {
        None
    }
}
