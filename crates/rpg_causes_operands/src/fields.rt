//! F9 of fields: a search for high or low without sequence, and output fields whose columns don't go together.

ghost use Rattle.std.specs.Prelude.{◌≡◌, is_some, false, option_and_then, option_copied};
ghost use Rattle.std.specs.Option.{option_map_or};
ghost use Rattle.rpg_cards.specs.Calculations.{card_ending};
ghost use Rattle.rpg_causes_operands.specs.Fields as causes;
ghost use Rattle.rpg_faults_operands.specs.Columns as operands;

use crate::names::definer;
use rpg_card_index::IndexedCards;
use rpg_cards::{OperationColumns, Shown, SpecCard, columns, last_card};
use rpg_faults_operands::factor_form;
use rpg_program::form::{FieldForm, is_array, is_table};
use rpg_sheet_specs::{CalculationSpec, ColumnRange, Factor, OutputField, Word};
use rpg_symbols::Name;

/// Why a field's columns are missing or not allowed.
#[derive(Drop)]
pub enum FieldCause {
    /// A search for high or low in something without ascending sequence: its name, and the card that defines it.
    Unordered {
        name: Option<Name>,
        definer: Option<u16>,
    },
    /// An edit code without a field.
    CodeAlone,
    /// Blank after without a field.
    BlankAfterAlone,
    /// An output field with neither a name nor a constant.
    NoField,
}

impl FieldCause {
    /// Returns the columns that the cause is about, by the calculation that ends on its card.
    pub fn range(&self, last: Option<&CalculationSpec>) -> ColumnRange
        ensures { result ≡ causes.field_range (option_copied last.entry) self.now }
    {
        match self {
            FieldCause::Unordered { .. } => search_range(last),
            FieldCause::CodeAlone => ColumnRange::OutputCode,
            FieldCause::BlankAfterAlone => ColumnRange::BlankAfter,
            FieldCause::NoField => ColumnRange::OutputName,
        }
    }
}

/// Returns the columns of high, otherwise of low.
fn search_range(last: Option<&CalculationSpec>) -> ColumnRange
    ensures { result ≡ causes.search_range (option_copied last.entry) }
{
    match last {
        Some(last) if last.resulting_indicators.first.is_some() => ColumnRange::ResultPlus,
        Some(_) | None => ColumnRange::ResultMinus,
    }
}

/// F9 of operands: a search for high or low without sequence, and output fields whose columns don't go together.
pub fn field_cause(source: &IndexedCards, card: &SpecCard, after: &[SpecCard]) -> Option<FieldCause>
    ensures cause { result ≡ causes.field_cause source.now card.now after.now }
    ensures rule { is_some result ≡ operands.bad_operand_columns source.now card.now after.now }
{
    match of_search_ending(source, card, after) {
        Some(cause) => Some(cause),
        None => of_output_field(card.output_field()?),
    }
}

fn of_search_ending(
    source: &IndexedCards,
    card: &SpecCard,
    after: &[SpecCard],
) -> Option<FieldCause>
    ensures cause { result ≡ option_and_then (causes.of_search source.now) (card_ending card.now after.now) }
    ensures rule { is_some result ≡ option_map_or (operands.bad_search source.now) (card_ending card.now after.now) false }
{
    of_search(source, last_card(card, after)?)
}

fn of_search(source: &IndexedCards, calculation: &CalculationSpec) -> Option<FieldCause>
    ensures cause { result ≡ causes.of_search source.now calculation.now }
    ensures rule { is_some result ≡ operands.bad_search source.now calculation.now }
{
    let columns = columns(calculation.operation?);
    if !is_unordered(source, calculation, columns) {
        return None;
    }
    Some(match &calculation.factor_2 {
        Some(Factor::Entry(entry)) => FieldCause::Unordered {
            name: Some(Word::new(entry.name.as_slice())),
            definer: definer(source, &entry.name),
        },
        Some(Factor::Literal(_)) | None => FieldCause::Unordered {
            name: None,
            definer: None,
        },
    })
}

/// Whether a search for high or low has entries that aren't in ascending sequence.
fn is_unordered(
    source: &IndexedCards,
    calculation: &CalculationSpec,
    columns: OperationColumns,
) -> bool
    ensures { result ≡ operands.is_unordered source.now calculation.now columns }
{
    let shown = calculation.resulting_indicators;
    searches(columns.indicators)
        && (shown.first.is_some() || shown.second.is_some())
        && match factor_form(source, columns.factor_2, &calculation.factor_2) {
            None => false,
            Some(form) => lacks_sequence(form),
        }
}

fn searches(shown: Shown) -> bool
    ensures { result ≡ operands.searches shown }
{
    match shown {
        Shown::Search => true,
        Shown::Unused | Shown::Any | Shown::Some => false,
    }
}

fn lacks_sequence(form: FieldForm) -> bool
    ensures { result ≡ operands.lacks_sequence form }
{
    (is_array(form.class) || is_table(form.class)) && !form.is_ascending
}

/// Returns the cause for an output card without a field: no constant, or a code or blank-after.
fn of_output_field(field: &OutputField) -> Option<FieldCause>
    ensures cause { result ≡ causes.of_output_field field.now }
    ensures rule { is_some result ≡ operands.bad_output_field field.now }
{
    if field.operand.is_some() {
        None
    } else if field.code.is_some() {
        Some(FieldCause::CodeAlone)
    } else if field.blank_after {
        Some(FieldCause::BlankAfterAlone)
    } else if field.text.is_none() {
        Some(FieldCause::NoField)
    } else {
        None
    }
}
