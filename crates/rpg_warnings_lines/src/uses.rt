//! Which names cards use, by their places among the different names of the source.

ghost use Rattle.std.specs.Prelude.{◌≡◌, List, option_copied};
ghost use Rattle.rpg_cards.specs.declared.spec_card.SpecCard.{SpecCard};
ghost use Rattle.rpg_warnings_lines.specs.Uses as uses;

use rpg_card_index::IndexedCards;
use rpg_cards::SpecCard;
use rpg_sheet_specs::{
    CalculationSpec, Entry, EntryIndex, Factor, InputSpec, Operation, OutputSpec, Spec, TableSpec,
};
use rpg_symbols::Name;

/// Returns the place of a field, or of an entry's array.
pub(crate) fn entry_place(source: &IndexedCards, entry: &Option<Entry>) -> Option<u64>
    ensures { result ≡ uses.entry_place source.now entry.now }
{
    source.name_place(&entry.as_ref()?.name)
}

/// Returns the place of the field that has an entry's index.
pub(crate) fn named_index(source: &IndexedCards, entry: &Entry) -> Option<u64>
    ensures { result ≡ uses.named_index source.now entry.now }
{
    match &entry.index {
        Some(EntryIndex::Name(name)) => source.name_place(name),
        Some(EntryIndex::Literal(_)) | None => None,
    }
}

fn index_place(source: &IndexedCards, entry: &Option<Entry>) -> Option<u64>
    ensures { result ≡ uses.index_place source.now entry.now }
{
    named_index(source, entry.as_ref()?)
}

fn factor_place(source: &IndexedCards, factor: &Option<Factor>) -> Option<u64>
    ensures { result ≡ uses.factor_place source.now factor.now }
{
    match factor {
        Some(Factor::Entry(entry)) => source.name_place(&entry.name),
        Some(Factor::Literal(_)) | None => None,
    }
}

fn factor_index(source: &IndexedCards, factor: &Option<Factor>) -> Option<u64>
    ensures { result ≡ uses.factor_index source.now factor.now }
{
    match factor {
        Some(Factor::Entry(entry)) => named_index(source, entry),
        Some(Factor::Literal(_)) | None => None,
    }
}

fn is_sum(operation: Option<Operation>) -> bool
    ensures { result ≡ uses.is_sum operation }
{
    matches!(operation, Some(Operation::Add | Operation::Subtract))
}

/// Whether a factor is a result field, or an entry of the same array.
fn is_result(factor: &Option<Factor>, own: &Option<Entry>) -> bool
    ensures { result ≡ uses.is_result factor.now own.now }
{
    match (factor, own) {
        (Some(Factor::Entry(factor)), Some(own)) => factor.name == own.name,
        _ => false,
    }
}

/// Returns the place of a factor, unless it is the result of ADD or SUB.
fn factor_read(
    source: &IndexedCards,
    calculation: &CalculationSpec,
    factor: &Option<Factor>,
) -> Option<u64>
    ensures { result ≡ uses.factor_read source.now calculation.now factor.now }
{
    if is_sum(calculation.operation) && is_result(factor, &calculation.result_field) {
        None
    } else {
        factor_place(source, factor)
    }
}

/// Whether a result counts as read: searches and XFOOT name it, MVR has to be somewhere, and indicators may be what the card is for.
fn counts_as_read(calculation: &CalculationSpec) -> bool
    ensures { result ≡ uses.counts_as_read calculation.now }
{
    let indicators = calculation.resulting_indicators;
    match calculation.operation {
        Some(Operation::CrossFoot | Operation::LookUp | Operation::MoveRemainder) => true,
        _ => {
            indicators.first.is_some() || indicators.second.is_some() || indicators.third.is_some()
        }
    }
}

/// Returns the place of a result that counts as read.
fn result_read(source: &IndexedCards, calculation: &CalculationSpec) -> Option<u64>
    ensures { result ≡ uses.result_read source.now calculation.now }
{
    if counts_as_read(calculation) {
        entry_place(source, &calculation.result_field)
    } else {
        None
    }
}

fn read_by(source: &IndexedCards, calculation: &CalculationSpec) -> [Option<u64>; 6]
    ensures { result ≡ uses.read_by source.now calculation.now }
{
    [
        factor_index(source, &calculation.factor_1),
        factor_index(source, &calculation.factor_2),
        index_place(source, &calculation.result_field),
        factor_read(source, calculation, &calculation.factor_1),
        factor_read(source, calculation, &calculation.factor_2),
        result_read(source, calculation),
    ]
}

/// Whether a factor is a field.
fn is_field(factor: &Option<Factor>) -> bool
    ensures { result ≡ uses.is_field factor.now }
{
    matches!(factor, Some(Factor::Entry(_)))
}

/// Whether an entry has an index.
fn has_index(entry: &Option<Entry>) -> bool
    ensures { result ≡ uses.has_index entry.now }
{
    matches!(entry, Some(Entry { index: Some(_), .. }))
}

/// Whether a calculation names no field that it reads.
pub(crate) fn reads_nothing(calculation: &CalculationSpec) -> bool
    ensures { result ≡ uses.reads_nothing calculation.now }
{
    !is_field(&calculation.factor_1)
        && !is_field(&calculation.factor_2)
        && !has_index(&calculation.result_field)
        && !counts_as_read(calculation)
}

fn table_place(source: &IndexedCards, table: &Option<TableSpec>) -> Option<u64>
    ensures { result ≡ uses.table_place source.now table.now }
{
    source.name_place(&table.as_ref()?.name)
}

/// Returns what an output field prints, if it isn't a constant.
pub(crate) fn printed(card: &SpecCard) -> Option<&Entry>
    ensures { (cards : List SpecCard) → uses.printed_on cards card.now.spec ≡ uses.two (uses.entry_place cards (option_copied result)) (uses.index_place cards (option_copied result)) }
{
    card.output_field()?.operand.as_ref()
}

fn two_of_six(first: Option<u64>, second: Option<u64>) -> [Option<u64>; 6]
    ensures { result ≡ uses.two_of_six first second }
{
    [first, second, None, None, None, None]
}

/// Returns the names that other cards read; with them those of tables and of input fields, which describe records.
pub(crate) fn read_on(source: &IndexedCards, card: &SpecCard) -> [Option<u64>; 6]
    ensures { result ≡ uses.read_on source.now card.now.spec }
{
    match &card.spec {
        Spec::Extension(extension) => {
            let alternating = table_place(source, &extension.alternating);
            two_of_six(source.name_place(&extension.table.name), alternating)
        }
        Spec::Input(InputSpec::Field(field)) => two_of_six(source.name_place(&field.name), None),
        Spec::Calculation(calculation) => read_by(source, calculation),
        _ => two_of_six(None, None),
    }
}

/// Returns the result field of a card.
pub(crate) fn result_field(card: &SpecCard) -> Option<&Entry>
    ensures { (cards : List SpecCard) → uses.result_on cards card.now.spec ≡ uses.entry_place cards (option_copied result) }
{
    match &card.spec {
        Spec::Calculation(calculation) => calculation.result_field.as_ref(),
        _ => None,
    }
}

/// Returns the place of a name, given that of another one.
#[tactic(auto, using(crate::proofs::Noting::same_place))]
pub(crate) fn next_place(
    source: &IndexedCards,
    name: &Name,
    other: &[u8],
    place: Option<u64>,
) -> Option<u64>
    requires { place ≡ uses.place source.now other.now }
    ensures { result ≡ uses.place source.now name.now }
{
    if name.as_slice() == other {
        place
    } else {
        source.name_place(name)
    }
}

/// Whether a calculation adds to its result field, or subtracts from it. A blank factor 1 stands for the result field.
fn is_own_sum(calculation: &CalculationSpec) -> bool
    ensures { result ≡ uses.is_own_sum calculation.now }
{
    is_sum(calculation.operation)
        && (calculation.factor_1.is_none()
            || is_result(&calculation.factor_1, &calculation.result_field)
            || is_result(&calculation.factor_2, &calculation.result_field))
}

/// Returns the place of the result field that a card adds to.
pub(crate) fn sum_on(source: &IndexedCards, card: &SpecCard) -> Option<u64>
    ensures { result ≡ uses.sum_on source.now card.now.spec }
{
    match &card.spec {
        Spec::Calculation(calculation) if is_own_sum(calculation) => {
            entry_place(source, &calculation.result_field)
        }
        _ => None,
    }
}

/// Returns the names that a card sets: by blank after, with a record, with data, or by a calculation that doesn't add to them.
pub(crate) fn set_on(source: &IndexedCards, card: &SpecCard) -> [Option<u64>; 2]
    ensures { result ≡ uses.set_on source.now card.now.spec }
{
    match &card.spec {
        Spec::Extension(extension) if extension.entries_per_card.is_some() => {
            let alternating = table_place(source, &extension.alternating);
            [source.name_place(&extension.table.name), alternating]
        }
        Spec::Input(InputSpec::Field(field)) => [source.name_place(&field.name), None],
        Spec::Calculation(calculation) if !is_own_sum(calculation) => {
            [entry_place(source, &calculation.result_field), None]
        }
        Spec::Output(OutputSpec::Field(field)) if field.blank_after => {
            [entry_place(source, &field.operand), None]
        }
        _ => [None, None],
    }
}
