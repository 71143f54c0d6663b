//! Fields and constants on cards: the operands of an operation, and the field of an output card.

ghost use Rattle.std.specs.Prelude.{◌≡◌, option_and_then, IfSome};
ghost use Rattle.rpg_cards.specs.Names as names;
ghost use Rattle.rpg_faults_operands.specs.Operands as operands;
ghost use Rattle.rpg_faults_operands.specs.Sizes.{IsSized};

use rpg_card_index::IndexedCards;
use rpg_cards::{Column, Content, Defined, OperationColumns, SpecCard, columns, last_card};
use rpg_program::form::FieldForm;
use rpg_sheet_specs::{CalculationSpec, Entry, Factor, OutputField, Three};
use std::marker::Model;

// ---- columns for fields

fn is_field(content: Content) -> bool
    ensures { result ≡ operands.is_field_content content }
{
    match content {
        Content::Value | Content::WholeArray | Content::Searched | Content::Table => true,
        Content::Label | Content::Subroutine => false,
    }
}

/// Returns what a column takes, if it is for a field.
pub fn field_content(column: Column) -> Option<Content>
    ensures { result ≡ operands.field_content column }
{
    match column {
        Column::Blank => None,
        Column::May(content) | Column::Must(content) => {
            if is_field(content) {
                Some(content)
            } else {
                None
            }
        }
    }
}

// ---- operands

/// A named field, and what its column takes.
#[derive(Drop)]
pub struct Operand<'a> {
    /// What the column takes.
    pub content: Content,
    /// The name with its index.
    pub field: &'a Entry,
}

impl<'a> Model for Operand<'a> {
    ghost use Rattle.rpg_faults_operands.specs.Operands as operands;

    ghost Value = { operands.Operand };

    ghost view = { λ o. operands.operand_with o.content o.field.now };
}

fn field_operand(column: Column, field: &Option<Entry>) -> Option<Operand<'_>>
    ensures { result ≡ operands.operand_in column field.now }
{
    let content = field_content(column)?;
    let field = field.as_ref()?;
    Some(Operand { content, field })
}

/// A literal names no field.
fn factor_operand(column: Column, factor: &Option<Factor>) -> Option<Operand<'_>>
    ensures { result ≡ operands.operand_in column (option_and_then operands.factor_entry factor.now) }
{
    let content = field_content(column)?;
    match factor {
        None => None,
        Some(Factor::Entry(field)) => Some(Operand { content, field }),
        Some(Factor::Literal(_)) => None,
    }
}

/// Factor 1, factor 2 and the result field.
fn operands_by(
    columns: OperationColumns,
    calculation: &CalculationSpec,
) -> Three<Option<Operand<'_>>>
    ensures { result ≡ operands.operands_by columns calculation.now }
{
    Three {
        first: factor_operand(columns.factor_1, &calculation.factor_1),
        second: factor_operand(columns.factor_2, &calculation.factor_2),
        third: field_operand(columns.result_field, &calculation.result_field),
    }
}

fn no_operands<'a>() -> Three<Option<Operand<'a>>>
    ensures { result ≡ operands.no_operands }
{
    Three {
        first: None,
        second: None,
        third: None,
    }
}

/// The operands of a calculation, by its operation's columns.
pub(crate) fn operands_of(calculation: &CalculationSpec) -> Three<Option<Operand<'_>>>
    ensures { result ≡ operands.operands_of calculation.now }
{
    match calculation.operation {
        None => no_operands(),
        Some(operation) => operands_by(columns(operation), calculation),
    }
}

/// The fields that a group's operation names, if this is the group's last card.
pub fn operands_ending<'a>(card: &'a SpecCard, after: &[SpecCard]) -> Three<Option<Operand<'a>>>
    ensures { result ≡ operands.operands_ending card.now after.now }
{
    match last_card(card, after) {
        None => no_operands(),
        Some(calculation) => operands_of(calculation),
    }
}

/// The field that an output card names.
pub fn output_operand(card: &SpecCard) -> Option<Operand<'_>>
    ensures { result ≡ operands.output_operand_on card.now }
{
    let output = card.output_field()?;
    let field = output.operand.as_ref()?;
    Some(Operand {
        content: Content::Value,
        field,
    })
}

// ---- forms

/// Returns the form of a name, if it has one.
pub fn form_in(defined: Defined) -> Option<FieldForm>
    ensures { result ≡ names.form_in defined }
{
    match defined {
        Defined::Missing | Defined::Bad => None,
        Defined::Valid(form) => Some(form),
    }
}

/// Returns the form of the named field.
#[tactic(auto, using(crate::proofs::SizeLemmas::sized_name))]
pub fn entry_form(source: &IndexedCards, entry: &Entry) -> Option<FieldForm>
    ensures form { result ≡ operands.card_entry_form source.now entry.now }
    ensures sized { IfSome result IsSized }
{
    form_in(source.form_of_name(&entry.name))
}

/// Returns the form of a factor, if its column is for a field.
pub fn factor_form(
    source: &IndexedCards,
    column: Column,
    factor: &Option<Factor>,
) -> Option<FieldForm>
    ensures { result ≡ operands.factor_form source.now column factor.now }
{
    field_content(column)?;
    form_in(source.form_of_factor(factor.as_ref()?))
}

/// Returns the form of the result field, if its column is for a field.
pub fn result_form(
    source: &IndexedCards,
    column: Column,
    field: &Option<Entry>,
) -> Option<FieldForm>
    ensures { result ≡ operands.result_form source.now column field.now }
{
    field_content(column)?;
    entry_form(source, field.as_ref()?)
}
