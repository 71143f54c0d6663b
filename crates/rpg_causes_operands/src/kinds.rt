//! F4: operands of the wrong kind.

ghost use Rattle.std.specs.Prelude.{◌≡◌, None, is_some, false, option_and_then};
ghost use Rattle.std.specs.Option.{option_map_or};
ghost use Rattle.rpg_cards.specs.Calculations.{card_ending};
ghost use Rattle.rpg_cards.specs.Cards.{output_field_on};
ghost use Rattle.rpg_causes_operands.specs.Operands as causes;
ghost use Rattle.rpg_faults_operands.specs.Kinds as rules;
ghost use Rattle.rpg_faults_operands.specs.Operands.{factor_entry};

use crate::names::definer;
use rpg_card_index::IndexedCards;
use rpg_cards::{Column, Content, Kinds, OperationColumns, SpecCard, columns, last_card};
use rpg_faults_operands::{entry_form, factor_form, field_content, result_form};
use rpg_program::form::{FieldForm, Kind, is_array, is_table, is_writable, same_kind};
use rpg_sheet_specs::{CalculationSpec, ColumnRange, Entry, Factor, OutputField, Word};
use rpg_symbols::Name;

/// A field or a literal that is a text.
#[derive(Drop)]
pub struct TextField {
    /// None for a literal.
    pub name: Option<Name>,
    pub length: u16,
    /// The card that defines it.
    pub definer: Option<u16>,
}

/// What is wrong with an operand.
#[derive(Drop)]
pub enum OperandCause {
    /// The operation requires this class there, and the field is of another.
    WrongClass { at: ColumnRange, wanted: Content },
    /// A text where the operation requires numbers.
    TextOperand { at: ColumnRange, text: TextField },
    /// One of factor 1 and factor 2 is a number, the other a text.
    Unlike { first: FieldForm, second: FieldForm },
    /// The result is the date.
    Unwritable,
    /// The result has fewer entries than what is searched.
    TooFew { found: u16, searched: u16 },
    /// A text is edited.
    EditedText(TextField),
    /// The date is blanked.
    BlankedDate(Name),
}

impl OperandCause {
    /// Returns the columns of a card that the cause is about.
    pub fn range(&self, card: &SpecCard) -> ColumnRange
        ensures { result ≡ causes.operand_range (output_field_on card.now.spec) self.now }
    {
        match self {
            OperandCause::WrongClass { at, .. } | OperandCause::TextOperand { at, .. } => *at,
            OperandCause::Unlike { .. } => ColumnRange::SecondFactor,
            OperandCause::Unwritable | OperandCause::TooFew { .. } => ColumnRange::ResultName,
            OperandCause::EditedText(_) => edited_range(card),
            OperandCause::BlankedDate(_) => ColumnRange::BlankAfter,
        }
    }
}

/// Returns the columns of an edit code, or of a word.
fn edited_range(card: &SpecCard) -> ColumnRange
    ensures { result ≡ causes.edited_range (output_field_on card.now.spec) }
{
    match card.output_field() {
        Some(field) if field.code.is_some() => ColumnRange::OutputCode,
        Some(_) | None => ColumnRange::OutputText,
    }
}

/// F4: which operand is of the wrong kind, and what it is.
pub fn operand_cause(
    source: &IndexedCards,
    card: &SpecCard,
    after: &[SpecCard],
) -> Option<OperandCause>
    ensures cause { result ≡ causes.operand_cause source.now card.now after.now }
    ensures rule { is_some result ≡ rules.wrong_operand source.now card.now after.now }
{
    match of_ending(source, card, after) {
        Some(cause) => Some(cause),
        None => in_output(source, card.output_field()?),
    }
}

fn of_ending(source: &IndexedCards, card: &SpecCard, after: &[SpecCard]) -> Option<OperandCause>
    ensures cause { result ≡ option_and_then (causes.in_calculation source.now) (card_ending card.now after.now) }
    ensures rule { is_some result ≡ option_map_or (rules.wrong_in_calculation source.now) (card_ending card.now after.now) false }
{
    in_calculation(source, last_card(card, after)?)
}

fn in_calculation(source: &IndexedCards, calculation: &CalculationSpec) -> Option<OperandCause>
    ensures cause { result ≡ causes.in_calculation source.now calculation.now }
    ensures rule { is_some result ≡ rules.wrong_in_calculation source.now calculation.now }
{
    by_columns(source, calculation, columns(calculation.operation?))
}

fn by_columns(
    source: &IndexedCards,
    calculation: &CalculationSpec,
    columns: OperationColumns,
) -> Option<OperandCause>
    ensures cause { result ≡ causes.by_columns source.now calculation.now columns }
    ensures rule { is_some result ≡ rules.wrong_by source.now calculation.now columns }
{
    let first = held_factor(
        source,
        ColumnRange::FirstFactor,
        columns.factor_1,
        &calculation.factor_1,
    );
    let second = held_factor(
        source,
        ColumnRange::SecondFactor,
        columns.factor_2,
        &calculation.factor_2,
    );
    let third = held_result(source, columns.result_field, &calculation.result_field);
    of_operands(source, columns.kinds, &first, &second, &third)
}

/// The contents of columns of a calculation.
#[derive(Drop)]
struct Held {
    at: ColumnRange,
    /// What the operation requires there, if it is a field.
    content: Option<Content>,
    /// The field's name; None for a literal.
    name: Option<Name>,
    form: Option<FieldForm>,
}

fn held_factor(
    source: &IndexedCards,
    at: ColumnRange,
    column: Column,
    factor: &Option<Factor>,
) -> Held
    ensures { result ≡ causes.held_factor source.now at column factor.now }
{
    Held {
        at,
        content: field_content(column),
        name: factor_name(factor),
        form: factor_form(source, column, factor),
    }
}

fn held_result(source: &IndexedCards, column: Column, entry: &Option<Entry>) -> Held
    ensures { result ≡ causes.held_result source.now column entry.now }
{
    Held {
        at: ColumnRange::ResultName,
        content: field_content(column),
        name: entry_name(entry),
        form: result_form(source, column, entry),
    }
}

fn factor_name(factor: &Option<Factor>) -> Option<Name>
    ensures { result ≡ causes.entry_name (option_and_then factor_entry factor.now) }
{
    match factor.as_ref()? {
        Factor::Entry(entry) => Some(Word::new(entry.name.as_slice())),
        Factor::Literal(_) => None,
    }
}

fn entry_name(entry: &Option<Entry>) -> Option<Name>
    ensures { result ≡ causes.entry_name entry.now }
{
    Some(Word::new(entry.as_ref()?.name.as_slice()))
}

fn of_operands(
    source: &IndexedCards,
    kinds: Kinds,
    first: &Held,
    second: &Held,
    result_field: &Held,
) -> Option<OperandCause>
    ensures cause { result ≡ causes.of_operands source.now kinds first.now second.now result_field.now }
    ensures rule { is_some result ≡ causes.are_wrong kinds first.now second.now result_field.now }
{
    match of_one(source, kinds, first) {
        Some(cause) => Some(cause),
        None => match of_second(source, kinds, first, second) {
            Some(cause) => Some(cause),
            None => of_third(source, kinds, second, result_field),
        },
    }
}

fn of_second(
    source: &IndexedCards,
    kinds: Kinds,
    first: &Held,
    second: &Held,
) -> Option<OperandCause>
    ensures cause { result ≡ causes.of_second source.now kinds first.now second.now }
    ensures rule { is_some result ≡ causes.is_wrong_second kinds first.now second.now }
{
    match of_one(source, kinds, second) {
        Some(cause) => Some(cause),
        None => of_pair(kinds, first.form, second.form),
    }
}

fn of_third(
    source: &IndexedCards,
    kinds: Kinds,
    searched: &Held,
    result_field: &Held,
) -> Option<OperandCause>
    ensures cause { result ≡ causes.of_third source.now kinds searched.now result_field.now }
    ensures rule { is_some result ≡ causes.is_wrong_third kinds searched.now result_field.now }
{
    match of_one(source, kinds, result_field) {
        Some(cause) => Some(cause),
        None => of_result(result_field.content, searched.form, result_field.form),
    }
}

/// Returns the cause if an operand is wrong by itself.
fn of_one(source: &IndexedCards, kinds: Kinds, held: &Held) -> Option<OperandCause>
    ensures cause { result ≡ causes.of_one source.now kinds held.now }
    ensures rule { is_some result ≡ causes.is_wrong_operand kinds held.now }
{
    match of_class(held) {
        Some(cause) => Some(cause),
        None => of_number(source, kinds, held),
    }
}

fn of_class(held: &Held) -> Option<OperandCause>
    ensures cause { result ≡ causes.of_class held.now }
    ensures rule { is_some result ≡ rules.has_wrong_class held.now.content held.now.form }
{
    let wanted = held.content?;
    if !is_wrong_class(wanted, held.form?) {
        return None;
    }
    Some(OperandCause::WrongClass {
        at: held.at,
        wanted,
    })
}

fn is_wrong_class(content: Content, form: FieldForm) -> bool
    ensures { result ≡ rules.is_wrong_class content form }
{
    match content {
        Content::Value | Content::Label | Content::Subroutine => false,
        Content::WholeArray => !is_array(form.class),
        Content::Searched => !(is_array(form.class) || is_table(form.class)),
        Content::Table => !is_table(form.class),
    }
}

fn of_number(source: &IndexedCards, kinds: Kinds, held: &Held) -> Option<OperandCause>
    ensures cause { result ≡ causes.of_number source.now kinds held.now }
    ensures rule { is_some result ≡ rules.wrong_kinds kinds held.now.form None None }
{
    match kinds {
        Kinds::Numbers => if_text(source, held, held.form?),
        Kinds::Alike | Kinds::Any => None,
    }
}

fn if_text(source: &IndexedCards, held: &Held, form: FieldForm) -> Option<OperandCause>
    ensures { result ≡ causes.if_text source.now held.now form }
{
    if !is_text(form) {
        return None;
    }
    Some(OperandCause::TextOperand {
        at: held.at,
        text: text_with(source, &held.name, form),
    })
}

fn is_text(form: FieldForm) -> bool
    ensures { result ≡ rules.is_text form }
{
    same_kind(form.kind, Kind::Text)
}

fn text_with(source: &IndexedCards, name: &Option<Name>, form: FieldForm) -> TextField
    ensures { result ≡ causes.text_with source.now name.now form }
{
    let length = form.length;
    match name {
        None => TextField {
            name: None,
            length,
            definer: None,
        },
        Some(name) => TextField {
            name: Some(Word::new(name.as_slice())),
            length,
            definer: definer(source, name),
        },
    }
}

fn of_pair(
    kinds: Kinds,
    first: Option<FieldForm>,
    second: Option<FieldForm>,
) -> Option<OperandCause>
    ensures { result ≡ causes.of_pair kinds first second }
{
    match kinds {
        Kinds::Numbers | Kinds::Any => None,
        Kinds::Alike => {
            let first = first?;
            let second = second?;
            if same_kind(first.kind, second.kind) {
                None
            } else {
                Some(OperandCause::Unlike { first, second })
            }
        }
    }
}

fn of_result(
    content: Option<Content>,
    searched: Option<FieldForm>,
    result_field: Option<FieldForm>,
) -> Option<OperandCause>
    ensures cause { result ≡ option_and_then (λ c. causes.of_result c searched result_field) content }
    ensures rule { is_some result ≡ option_map_or (λ c. rules.wrong_result c searched result_field) content false }
{
    match content? {
        Content::Value => if_unwritable(result_field?),
        Content::Table => if_too_few(searched?, result_field?),
        Content::WholeArray | Content::Searched | Content::Label | Content::Subroutine => None,
    }
}

/// Returns the cause for the date or a constant, which are never written.
fn if_unwritable(form: FieldForm) -> Option<OperandCause>
    ensures { result ≡ causes.if_unwritable form }
{
    if is_writable(form.class) {
        None
    } else {
        Some(OperandCause::Unwritable)
    }
}

/// Returns the cause if the result's table has fewer entries than the one that is searched.
fn if_too_few(searched: FieldForm, found: FieldForm) -> Option<OperandCause>
    ensures { result ≡ causes.if_too_few searched found }
{
    if is_table(found.class)
        && (is_array(searched.class) || is_table(searched.class))
        && found.entries < searched.entries
    {
        return Some(OperandCause::TooFew {
            found: found.entries,
            searched: searched.entries,
        });
    }
    None
}

fn in_output(source: &IndexedCards, field: &OutputField) -> Option<OperandCause>
    ensures cause { result ≡ causes.in_output source.now field.now }
    ensures rule { is_some result ≡ rules.wrong_in_output source.now field.now }
{
    let entry = field.operand.as_ref()?;
    as_output(source, &entry.name, field, entry_form(source, entry)?)
}

/// Returns the cause if a text is edited, or the date is blanked.
fn as_output(
    source: &IndexedCards,
    name: &Name,
    field: &OutputField,
    form: FieldForm,
) -> Option<OperandCause>
    ensures cause { result ≡ causes.as_output source.now name.now field.now form }
    ensures rule { is_some result ≡ rules.wrong_as_output field.now form }
{
    let own = Word::new(name.as_slice());
    if (field.code.is_some() || field.text.is_some()) && is_text(form) {
        Some(OperandCause::EditedText(text_with(source, &Some(own), form)))
    } else if field.blank_after && !is_writable(form.class) {
        Some(OperandCause::BlankedDate(own))
    } else {
        None
    }
}
