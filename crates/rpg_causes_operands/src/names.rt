//! F1 and F2: names that no card defines, names that are defined again, and the cards that define names.

ghost use Rattle.std.specs.Prelude.{◌≡◌, ◌∷◌, ◌++◌, ◌≤◌, length, take, false, is_some, option_and_then, option_copied};
ghost use Rattle.std.specs.Option.{option_map_or};
ghost use Rattle.rpg_cards.specs.Names.{definitions};
ghost use Rattle.rpg_card_index.specs.Index.{StandAt};
ghost use Rattle.rpg_causes_operands.specs.Names as causes;
ghost use Rattle.rpg_faults_limits.specs.Names as redefinitions;
ghost use Rattle.rpg_faults_operands.specs.Names as rules;

use rpg_card_index::IndexedCards;
use rpg_cards::{Defined, Definition, SpecCard};
use rpg_faults_operands::{Operand, operands_ending, output_operand};
use rpg_program::form::FieldForm;
use rpg_sheet_specs::{ColumnRange, Entry, EntryIndex, Spec, Word};
use rpg_symbols::{Name, is_same_form};

/// A name that is defined again in another form.
#[derive(Drop)]
pub struct Redefined {
    pub name: Name,
    /// Its form on this card.
    pub here: FieldForm,
    /// Its first form.
    pub first: FieldForm,
    /// The first card that defines it; None for UDATE and PAGE.
    pub definer: Option<u16>,
}

impl Redefined {
    /// Returns the columns of the name on its card: an E card can define two.
    pub fn range(&self, card: &SpecCard) -> Option<ColumnRange>
        ensures { result ≡ causes.redefined_range card.now self.now }
    {
        if defines_first(card, &self.name, self.here) {
            name_columns(card)
        } else {
            Some(ColumnRange::AlternatingName)
        }
    }
}

/// Whether the first definition of a card is of that name and form.
fn defines_first(card: &SpecCard, name: &Name, here: FieldForm) -> bool
    ensures { result ≡ causes.defines_first card.now name.now here }
{
    match card.definitions().as_slice().first() {
        None => false,
        Some(definition) => *name == definition.name && has_form(definition, here),
    }
}

fn has_form(definition: &Definition, here: FieldForm) -> bool
    ensures { result ≡ causes.has_form definition.now here }
{
    match definition.form {
        None => false,
        Some(form) => is_same_form(&form, &here),
    }
}

/// Returns the columns of the first name that a card defines.
fn name_columns(card: &SpecCard) -> Option<ColumnRange>
    ensures { result ≡ causes.name_columns card.now.spec }
{
    match &card.spec {
        Spec::Extension(_) => Some(ColumnRange::TableName),
        Spec::Input(_) => Some(ColumnRange::InputName),
        Spec::Calculation(_) => Some(ColumnRange::ResultName),
        _ => None,
    }
}

// ---- the card that defines a name

fn defines(card: &SpecCard, name: &Name) -> bool
    ensures { result ≡ causes.defines name.now card.now }
{
    let definitions = card.definitions();
    for definition in definitions.as_slice() {
        if *name == definition.name {
            return true;
        }
    }
    false
}

/// Returns the first of these cards that defines a name.
pub fn first_defining(cards: &[SpecCard], name: &Name) -> Option<u16>
    ensures { result ≡ causes.first_defining name.now cards.now }
{
    for card in cards {
        if defines(card, name) {
            return Some(card.number);
        }
    }
    None
}

/// Returns the first card that defines a name; None for UDATE and PAGE.
pub(crate) fn definer(source: &IndexedCards, name: &Name) -> Option<u16>
    ensures { result ≡ causes.definer name.now source.now }
{
    if source.is_new_name(0, name) {
        first_defining(source.as_slice(), name)
    } else {
        None
    }
}

// ---- F1

/// F1: the name that no card defines.
#[tactic(auto, using(crate::proofs::Listed::first_listed, rpg_faults_operands::proofs::Listed::any_listed))]
pub fn undefined_name(source: &IndexedCards, card: &SpecCard, after: &[SpecCard]) -> Option<Name>
    ensures cause { result ≡ causes.undefined_name source.now card.now after.now }
    ensures rule { is_some result ≡ rules.lacks_name source.now card.now after.now }
{
    let operands = operands_ending(card, after);
    undefined_in(source, &operands.first)
        .or(undefined_in(source, &operands.second))
        .or(undefined_in(source, &operands.third))
        .or(undefined_in(source, &output_operand(card)))
}

fn undefined_in(source: &IndexedCards, operand: &Option<Operand>) -> Option<Name>
    ensures cause { result ≡ option_and_then (causes.undefined_in source.now) operand.now }
    ensures rule { is_some result ≡ option_map_or (rules.names_nothing source.now) operand.now false }
{
    let field = operand.as_ref()?.field;
    match if_undefined(source, &field.name) {
        Some(name) => Some(name),
        None => if_undefined(source, index_name(field)?),
    }
}

fn if_undefined(source: &IndexedCards, name: &Name) -> Option<Name>
    ensures cause { result ≡ causes.if_undefined source.now name.now }
    ensures rule { is_some result ≡ rules.is_undefined source.now name.now }
{
    match source.form_of_name(name) {
        Defined::Missing => Some(Word::new(name.as_slice())),
        Defined::Bad | Defined::Valid(_) => None,
    }
}

/// Returns the name of an index; a literal one has none.
pub(crate) fn index_name(entry: &Entry) -> Option<&Name>
    ensures { option_copied result ≡ rules.index_name entry.now }
{
    match &entry.index {
        None => None,
        Some(EntryIndex::Literal(_)) => None,
        Some(EntryIndex::Name(name)) => Some(name),
    }
}

// ---- F2

/// F2: the name that is defined again, with both its forms and the card of the first. `count` is the number of definitions on the cards before.
pub fn redefined_name(
    source: &IndexedCards,
    count: usize,
    before: &[SpecCard],
    card: &SpecCard,
    after: &[SpecCard],
) -> Option<Redefined>
    requires split { source.now ≡ before.now ++ card.now ∷ after.now }
    requires few { length source.now ≤ 2000 }
    requires count { count ≡ length (definitions before.now) }
    ensures cause { result ≡ causes.redefined source.now before.now card.now }
    ensures rule { is_some result ≡ redefinitions.redefines before.now card.now }
{
    if card.definition_count() == 1 && source.is_first_name(count) {
        return None;
    }
    redefined_among(source, count, card.definitions().as_slice())
}

/// Returns the first of these, which follow the first `place` definitions, that differs in form from those before it.
fn redefined_among(source: &IndexedCards, place: usize, items: &[Definition]) -> Option<Redefined>
    requires few { place ≤ 4000 }
    requires stand { StandAt place items.now (definitions source.now) }
    ensures cause { result ≡ causes.redefined_among source.now (take place (definitions source.now)) items.now }
    ensures rule { is_some result ≡ redefinitions.redefine (take place (definitions source.now)) items.now }
{
    for (i, definition) in items.iter().enumerate() {
        if source.is_first_name(place + i) {
            continue;
        }
        let found = redefined_by(source, place + i, definition);
        if found.is_some() {
            return found;
        }
    }
    None
}

fn redefined_by(source: &IndexedCards, place: usize, definition: &Definition) -> Option<Redefined>
    ensures cause { result ≡ causes.redefined_by source.now (take place (definitions source.now)) definition.now }
    ensures rule { is_some result ≡ redefinitions.redefines_as (take place (definitions source.now)) definition.now }
{
    let here = definition.form?;
    match source.form_before(&definition.name, place) {
        Defined::Valid(first) if !is_same_form(&first, &here) => Some(Redefined {
            name: Word::new(definition.name.as_slice()),
            here,
            first,
            definer: definer(source, &definition.name),
        }),
        Defined::Valid(_) | Defined::Missing | Defined::Bad => None,
    }
}
