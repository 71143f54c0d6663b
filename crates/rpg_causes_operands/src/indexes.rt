//! F5: what is wrong with an index.

ghost use Rattle.std.specs.Prelude.{◌≡◌, not, false, is_some, option_and_then};
ghost use Rattle.std.specs.Option.{option_map_or};
ghost use Rattle.rpg_causes_operands.specs.Indexes as causes;
ghost use Rattle.rpg_faults_operands.specs.Indexes as rules;
ghost use Rattle.rpg_text.specs.Texts.{is_between};

use crate::names::{definer, index_name};
use rpg_card_index::IndexedCards;
use rpg_cards::{Content, SpecCard};
use rpg_faults_operands::{Operand, entry_form, form_in, operands_ending, output_operand};
use rpg_program::form::{FieldForm, Kind, fits_digits, is_array, is_plain, same_kind};
use rpg_sheet_specs::{Entry, EntryIndex, Word};
use rpg_symbols::Name;

/// What is wrong with an index.
#[derive(Drop)]
pub enum IndexCause {
    /// This field can't be an index: it isn't a plain number without decimals. With the card that defines
    /// it.
    NoIndex {
        name: Name,
        form: FieldForm,
        definer: Option<u16>,
    },
    /// This field isn't an array, but has an index.
    NoArray(Name),
    /// The whole array is required, but it has an index.
    Whole(Name),
    /// The array, with this many entries, has no index.
    Missing {
        name: Name,
        entries: u16,
    },
    /// No entry has this number.
    OutOfRange {
        name: Name,
        entries: u16,
        index: u16,
    },
    /// LOKUP stores the number of an entry in this field, which is too short for it.
    TooShort {
        name: Name,
        entries: u16,
        index: Name,
    },
}

/// F5: which index is wrong, and why.
#[tactic(auto, using(crate::proofs::Listed::first_listed, rpg_faults_operands::proofs::Listed::any_listed))]
pub fn index_cause(source: &IndexedCards, card: &SpecCard, after: &[SpecCard]) -> Option<IndexCause>
    ensures cause { result ≡ causes.index_cause source.now card.now after.now }
    ensures rule { is_some result ≡ rules.bad_index source.now card.now after.now }
{
    let operands = operands_ending(card, after);
    of_operand(source, &operands.first)
        .or(of_operand(source, &operands.second))
        .or(of_operand(source, &operands.third))
        .or(of_operand(source, &output_operand(card)))
}

fn of_operand(source: &IndexedCards, operand: &Option<Operand>) -> Option<IndexCause>
    ensures cause { result ≡ option_and_then (causes.of_operand source.now) operand.now }
    ensures rule { is_some result ≡ option_map_or (rules.bad_index_of source.now) operand.now false }
{
    let operand = operand.as_ref()?;
    let field = operand.field;
    match of_index_field(source, field) {
        Some(cause) => Some(cause),
        None => of_index(
            operand.content,
            field,
            index_form(source, field),
            entry_form(source, field)?,
        ),
    }
}

/// Returns the form of the field that an index names.
fn index_form(source: &IndexedCards, entry: &Entry) -> Option<FieldForm>
    ensures { result ≡ rules.index_form source.now entry.now }
{
    form_in(source.form_of_name(index_name(entry)?))
}

fn of_index_field(source: &IndexedCards, entry: &Entry) -> Option<IndexCause>
    ensures cause { result ≡ causes.of_index_field source.now entry.now }
    ensures rule { is_some result ≡ rules.bad_index_field (rules.index_form source.now entry.now) }
{
    let name = index_name(entry)?;
    let form = form_in(source.form_of_name(name))?;
    if can_index(form) {
        return None;
    }
    Some(IndexCause::NoIndex {
        name: Word::new(name.as_slice()),
        form,
        definer: definer(source, name),
    })
}

/// Whether a field is a plain number without decimals.
fn can_index(form: FieldForm) -> bool
    ensures { result ≡ rules.can_index form }
{
    !same_kind(form.kind, Kind::Text) && is_plain(form.class) && form.decimals == 0
}

fn of_index(
    content: Content,
    entry: &Entry,
    field: Option<FieldForm>,
    form: FieldForm,
) -> Option<IndexCause>
    ensures cause { result ≡ causes.of_index content entry.now.name entry.now.index field form }
    ensures rule { is_some result ≡ rules.misindexed content entry.now.index field form }
{
    match &entry.index {
        None if needs_index(content, form) => Some(IndexCause::Missing {
            name: Word::new(entry.name.as_slice()),
            entries: form.entries,
        }),
        None => None,
        Some(_) if !takes_index(content, form) => Some(superfluous(&entry.name, form)),
        Some(EntryIndex::Literal(index)) => of_literal(&entry.name, form, *index),
        Some(EntryIndex::Name(index)) => of_name(content, &entry.name, form, index, field?),
    }
}

/// An array isn't a value; only its entries are.
fn needs_index(content: Content, form: FieldForm) -> bool
    ensures { result ≡ rules.needs_index content form }
{
    match content {
        Content::Value => is_array(form.class),
        Content::WholeArray
        | Content::Searched
        | Content::Table
        | Content::Label
        | Content::Subroutine => false,
    }
}

/// XFOOT takes an array without an index.
fn takes_index(content: Content, form: FieldForm) -> bool
    ensures { result ≡ rules.takes_index content form }
{
    match content {
        Content::WholeArray => false,
        Content::Value
        | Content::Searched
        | Content::Table
        | Content::Label
        | Content::Subroutine => is_array(form.class),
    }
}

fn superfluous(name: &Name, form: FieldForm) -> IndexCause
    ensures { result ≡ causes.superfluous name.now form }
{
    let name = Word::new(name.as_slice());
    if is_array(form.class) {
        IndexCause::Whole(name)
    } else {
        IndexCause::NoArray(name)
    }
}

fn of_literal(name: &Name, form: FieldForm, index: u16) -> Option<IndexCause>
    ensures cause { result ≡ causes.if_out_of_range name.now form index }
    ensures rule { is_some result ≡ not (is_between 1 form.entries index) }
{
    if 1 <= index && index <= form.entries {
        return None;
    }
    Some(IndexCause::OutOfRange {
        name: Word::new(name.as_slice()),
        entries: form.entries,
        index,
    })
}

fn of_name(
    content: Content,
    name: &Name,
    form: FieldForm,
    index: &Name,
    field: FieldForm,
) -> Option<IndexCause>
    ensures { result ≡ causes.if_too_short content name.now form index.now field }
{
    if !is_too_short(content, form, field) {
        return None;
    }
    Some(IndexCause::TooShort {
        name: Word::new(name.as_slice()),
        entries: form.entries,
        index: Word::new(index.as_slice()),
    })
}

/// Whether an index field that LOKUP writes is too short for the number of the last entry.
fn is_too_short(content: Content, form: FieldForm, field: FieldForm) -> bool
    ensures { result ≡ rules.is_too_short content form field }
{
    is_searched(content)
        && is_array(form.class)
        && can_index(field)
        && !fits_digits(form.entries, field.length)
}

fn is_searched(content: Content) -> bool
    ensures { result ≡ rules.is_searched_content content }
{
    match content {
        Content::Searched => true,
        Content::Value
        | Content::WholeArray
        | Content::Table
        | Content::Label
        | Content::Subroutine => false,
    }
}
