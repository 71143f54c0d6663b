//! The fields of lines.

ghost use Rattle.std.specs.Prelude.{◌≡◌, All, None, IfOk};
ghost use Rattle.rpg_cards.specs.Keys.{Fixed};
ghost use Rattle.rpg_cards.specs.declared.constants.Constant.TheVariants.{Text};
ghost use Rattle.rpg_compile_layouts.specs.Rows.{field_row, output_rows_after, unedited_row};
ghost use Rattle.rpg_compile_layouts.specs.Within.{HasIndexRow};
ghost use Rattle.rpg_program.specs.Kept.{AreConditions, IsEditingRow, IsIndexRow, IsLineFieldRow};
ghost use Rattle.rpg_program.specs.Naming.{renamed_editing, renamed_operand};
ghost use Rattle.rpg_compile_program.specs.Lines as lines;
ghost use Rattle.rpg_compile_program.specs.Table.{key_number};

use rpg_cards::{Constant, SpecCard, in_places};
use rpg_compile_program::FieldTable;
use rpg_edit_marks::Fill;
use rpg_program::condition::Conditions;
use rpg_program::line::{Editing, LineField, Source};
use rpg_program::operation::{Index, Operand};
use rpg_sheet_specs::{EditCode, Entry, OutputField, OutputSpec, TextLiteral};
use std::alloc::{AllocError, Global};

/// Returns a field for each field card up to the next record card.
#[tactic(auto, using(crate::proofs::LineFollowers::next_output))]
pub(crate) fn fields_of(
    alloc: Global,
    table: &FieldTable,
    following: &[SpecCard],
) -> Result<Vec<LineField<u16>>, AllocError>
    requires { All HasIndexRow (output_rows_after table.now following.now) }
    ensures fields { IfOk result (λ v. v.items ≡ output_rows_after table.now following.now) }
    ensures kept { IfOk result (λ v. All IsLineFieldRow v.items) }
{
    let mut fields = Vec::new(alloc);
    for card in following {
        let field = match card.output() {
            Some(OutputSpec::Record(_)) => return Ok(fields),
            Some(OutputSpec::Field(field)) => field,
            Some(OutputSpec::And(_)) | Some(OutputSpec::Or(_)) | None => continue,
        };
        fields.push(field_of(table, field))?;
    }
    Ok(fields)
}

/// Returns what an output field writes, how it is edited, and where its text ends.
fn field_of(table: &FieldTable, field: &OutputField) -> LineField<u16>
    requires { HasIndexRow (field_row table.now field.now) }
    ensures value { result ≡ field_row table.now field.now }
    ensures kept { IsLineFieldRow result }
{
    let operand = operand_to_output(table, field);
    let mut row = unedited(
        operand.field,
        operand.index,
        field.end,
        in_places(field.conditions),
    );
    row.source = source_of(field);
    row.editing = editing_of(table, field);
    row.fill = fill_of(field);
    row.is_blanked = field.blank_after;
    row
}

/// Returns a value that isn't edited.
fn unedited(field: u16, index: Index<u16>, end: u16, conditions: Conditions) -> LineField<u16>
    requires index { IsIndexRow index }
    requires conditions { AreConditions conditions }
    ensures value { result ≡ unedited_row field index end conditions }
    ensures kept { IsLineFieldRow result }
{
    LineField {
        source: Source::Value,
        operand: Operand { field, index },
        editing: Editing::Plain,
        fill: Fill::Blank,
        is_blanked: false,
        end,
        conditions,
    }
}

/// Returns the entry, else the constant.
fn operand_to_output(table: &FieldTable, field: &OutputField) -> Operand<u16>
    ensures { result ≡ renamed_operand (key_number table.now) (lines.output_operand_of field.now) }
{
    match &field.operand {
        Some(entry) => table.entry_of(entry),
        None => Operand {
            field: match &field.text {
                Some(text) => text_number(table, text),
                None => 0,
            },
            index: Index::Blank,
        },
    }
}

fn text_number(table: &FieldTable, text: &TextLiteral<24>) -> u16
    ensures { result ≡ key_number table.now (Fixed (Text text.now)) }
{
    table.constant_number(&Constant::of_text(text))
}

/// PAGE without an index is incremented before it is written.
fn source_of(field: &OutputField) -> Source
    ensures { result ≡ lines.output_source field.now }
{
    if puts_page(field) {
        Source::Page
    } else {
        Source::Value
    }
}

fn puts_page(field: &OutputField) -> bool
    ensures { result ≡ lines.puts_page field.now }
{
    match &field.operand {
        Some(entry) => is_page(entry),
        None => false,
    }
}

fn is_page(entry: &Entry) -> bool
    ensures { result ≡ lines.names_page entry.now }
{
    entry.index.is_none() && entry.name.as_slice() == b"PAGE".as_slice()
}

/// The edit code; for a name without one, the edit word; Z for PAGE with neither.
fn editing_of(table: &FieldTable, field: &OutputField) -> Editing<u16>
    ensures value { result ≡ renamed_editing (key_number table.now) (lines.editing_of field.now) }
    ensures kept { IsEditingRow result }
{
    if let Some(code) = field.code {
        return Editing::Code(code);
    }
    if field.operand.is_none() {
        return Editing::Plain;
    }
    match &field.text {
        Some(text) => Editing::Word(text_number(table, text)),
        None => unmarked(puts_page(field)),
    }
}

fn unmarked(is_page: bool) -> Editing<u16>
    ensures value { result ≡ renamed_editing (λ k. 0) (lines.editing_unmarked is_page None) }
    ensures kept { IsEditingRow result }
{
    if is_page {
        Editing::Code(EditCode::Z)
    } else {
        Editing::Plain
    }
}

/// The fill that the text beside an edit code stands for.
fn fill_of(field: &OutputField) -> Fill
    ensures { result ≡ lines.output_fill field.now }
{
    match (&field.code, &field.text) {
        (Some(_), Some(text)) => Fill::of(text.as_slice()).unwrap_or(Fill::Blank),
        _ => Fill::Blank,
    }
}
