//! Programs that use the date, and operands that do.

ghost use Rattle.std.specs.Prelude.{◌≡◌, map};
ghost use Rattle.std.specs.List.{list_any};
ghost use Rattle.rpg_program.specs.Object.{line_row, subroutine_row};
ghost use Rattle.rpg_cli_show_fields.specs.DateUse as words;
ghost use Rattle.rpg_program.specs.Forms as forms;

use rpg_program::columns::columns_of;
use rpg_program::form::Class;
use rpg_program::forms::form_at;
use rpg_program::line::LineField;
use rpg_program::operation::{Index, Instruction, Operand};
use rpg_program::program::Program;
use rpg_program::row::Use;
use rpg_program::rows::{Line, Rows, Subroutine};

fn any_instruction(rows: &Rows, instructions: &[Instruction<u16>]) -> bool
    ensures { result ≡ list_any (words.instruction_uses rows.now.fields.items) instructions.now }
{
    for instruction in instructions {
        if instruction_uses(rows, *instruction) {
            return true;
        }
    }
    false
}

fn any_subroutine(rows: &Rows, subroutines: &[Subroutine]) -> bool
    ensures { result ≡ list_any (words.subroutine_uses rows.now.fields.items) (map subroutine_row subroutines.now) }
{
    for subroutine in subroutines {
        if any_instruction(rows, &subroutine.instructions) {
            return true;
        }
    }
    false
}

fn any_field(rows: &Rows, fields: &[LineField<u16>]) -> bool
    ensures { result ≡ list_any (words.field_uses rows.now.fields.items) fields.now }
{
    for field in fields {
        if field_uses(rows, field) {
            return true;
        }
    }
    false
}

fn any_line(rows: &Rows, lines: &[Line]) -> bool
    ensures { result ≡ list_any (words.line_uses rows.now.fields.items) (map line_row lines.now) }
{
    for line in lines {
        if any_field(rows, &line.fields) {
            return true;
        }
    }
    false
}

/// Whether a program uses the date: it is an operand of a calculation or a field of a line, or the index of one.
pub fn uses_date(program: &Program) -> bool
    ensures { result ≡ words.uses_date program.now }
{
    let rows = program.rows();
    any_instruction(rows, &rows.detail)
        || any_instruction(rows, &rows.total)
        || any_subroutine(rows, &rows.subroutines)
        || any_line(rows, &rows.lines)
}

fn is_date(class: Class) -> bool
    ensures { result ≡ forms.is_date class }
{
    match class {
        Class::Date => true,
        Class::Plain | Class::Array | Class::Table | Class::Constant => false,
    }
}

fn is_date_at(rows: &Rows, field: u16) -> bool
    ensures { result ≡ words.is_date_at rows.now.fields.items field }
{
    match form_at(rows, field) {
        Some(form) => is_date(form.class),
        None => false,
    }
}

fn index_is_date(rows: &Rows, index: Index<u16>) -> bool
    ensures { result ≡ words.index_is_date rows.now.fields.items index }
{
    match index {
        Index::Field(field) => is_date_at(rows, field),
        Index::Blank | Index::Literal(_) => false,
    }
}

/// Whether an operand is the date, or has the date as its index.
fn operand_uses(rows: &Rows, operand: Operand<u16>) -> bool
    ensures { result ≡ words.operand_uses rows.now.fields.items operand }
{
    is_date_at(rows, operand.field) || index_is_date(rows, operand.index)
}

fn column_uses(rows: &Rows, column: Option<Use<Operand<u16>>>) -> bool
    ensures { result ≡ words.column_uses rows.now.fields.items column }
{
    match column {
        Some(column) => operand_uses(rows, column.operand),
        None => false,
    }
}

pub(crate) fn instruction_uses(rows: &Rows, instruction: Instruction<u16>) -> bool
    ensures { result ≡ words.instruction_uses rows.now.fields.items instruction }
{
    let row = columns_of(rows, instruction);
    column_uses(rows, row.factor1)
        || column_uses(rows, row.factor2)
        || column_uses(rows, row.result)
}

pub(crate) fn field_uses(rows: &Rows, field: &LineField<u16>) -> bool
    ensures { result ≡ words.field_uses rows.now.fields.items field.now }
{
    operand_uses(rows, field.operand)
}
