//! Fields with their forms, their first values, and what uses them.

use crate::shown::{Shown, write_offset};
use rpg_cli_show_fields::{is_empty, name_text, write_form, write_value};
use rpg_cli_text::TextWriter;
use rpg_program::Program;
use rpg_program::columns::columns_of;
use rpg_program::form::{Class, FieldForm};
use rpg_program::line::Editing;
use rpg_program::operation::{Index, Instruction, Operand};
use rpg_program::row::Use;
use rpg_program::rows::{Line, RecordType, Rows};
use rpg_program::value::Value;
use rpg_refusal_causes::placed_at;
use std::alloc::{AllocError, Global};

/// The bytes of a field's row.
const FIELD: usize = 8;

/// Whether the entries of a field are listed, since not all are empty.
fn are_listed(values: &[Value]) -> bool {
    values.len() > 1 && values.iter().any(|value| !is_empty(value))
}

fn write_first(out: &mut TextWriter, form: FieldForm, values: &[Value]) {
    if form.class == Class::Date {
        out.write_str("the date of the job");
    } else if are_listed(values) {
        out.write_str("below");
    } else if let Some(first) = values.first() {
        match first {
            Value::Text(_) if is_empty(first) => out.write_str("blanks"),
            _ => write_value(out, first, form.decimals),
        }
    }
}

/// Writes the row of a field without its uses.
fn write_row(out: &mut TextWriter, shown: Shown, number: u16, form: FieldForm, values: &[Value]) {
    out.fill_one("  #{:<5}", number);
    if shown.is_named {
        let name = shown.source.field_name(number).unwrap_or(&[]);
        out.fill_one("{:<6}  ", name_text(name));
        match shown.source.field_card(number) {
            Some(card) => out.fill_one("{:>4}  ", card),
            None => out.write_str("      "),
        }
    }
    let form_end = out.len().saturating_add(32);
    write_form(out, form);
    out.pad_to(form_end);
    out.write_str("  ");
    let first_end = out.len().saturating_add(20);
    write_first(out, form, values);
    out.pad_to(first_end);
}

pub(crate) fn write_fields(out: &mut TextWriter, at: &mut usize, shown: Shown<'_>, uses: &Uses) {
    out.write_str("\n    at  FIELD ");
    if shown.is_named {
        out.write_str("name    card  ");
    }
    out.write_str("form                              first value           used\n");
    let mut number: u16 = 0;
    for (form, values) in shown.rows.fields.iter().zip(&shown.rows.values) {
        number = number.saturating_add(1);
        write_offset(out, at, FIELD);
        write_row(out, shown, number, *form, values.as_slice());
        uses.write(out, number);
        out.end_line();
    }
}

fn write_entries(out: &mut TextWriter, begin: usize, form: FieldForm, values: &[Value]) {
    let mut at = begin;
    for (i, value) in values.iter().enumerate() {
        write_offset(out, &mut at, usize::from(form.length));
        out.fill_one("    {:>4}  ", i.saturating_add(1));
        write_value(out, value, form.decimals);
        out.write_char('\n');
    }
}

/// Writes the first values of arrays and tables that aren't all zero or blank.
pub(crate) fn write_first_values(out: &mut TextWriter, at: &mut usize, shown: Shown<'_>) {
    let mut number: u16 = 0;
    for (form, values) in shown.rows.fields.iter().zip(&shown.rows.values) {
        number = number.saturating_add(1);
        let values = values.as_slice();
        if are_listed(values) {
            out.fill_one("\n    at  FIRST VALUES OF #{}", number);
            shown.write_name(out, number);
            out.write_char('\n');
            write_entries(out, *at, *form, values);
        }
        *at = (*at).saturating_add(form.size() as usize);
    }
}

/// The most numbers that are printed for one kind of use.
const MAX_LISTED: usize = 12;

/// How a row uses a field: a type reads columns into it, an instruction sets it or only uses it, a line contains it.
#[derive(Clone, Copy, PartialEq, Eq)]
enum By {
    Type,
    Setting,
    Using,
    Line,
}

#[derive(Clone, Copy)]
struct RowUse {
    by: By,
    row: usize,
}

/// What uses each field, by field number; list 0 is unused. For an instruction, what it uses is noted before what it sets.
#[derive(Drop)]
pub(crate) struct Uses {
    fields: Vec<Vec<RowUse>>,
    ran_out: bool,
}

/// Writes the rows that use a field in one way, after the words for it, if there are any.
fn write_rows(out: &mut TextWriter, words: &str, uses: &[RowUse], by: By) {
    let mut count: usize = 0;
    for used in uses {
        if used.by == by {
            if count == 0 {
                out.write_str(words);
            }
            if count < MAX_LISTED {
                out.fill_one(" {}", used.row);
            }
            count = count.saturating_add(1);
        }
    }
    if count > MAX_LISTED {
        out.fill_one(" and {} more", count - MAX_LISTED);
    }
}

impl Uses {
    /// Notes a use of a field, unless there is no such field or this is already its last use.
    fn note(&mut self, field: u16, by: By, row: usize) {
        let Some(uses) = self.fields.get_mut(usize::from(field)) else {
            return;
        };
        match uses.last() {
            Some(last) if last.by == by && last.row == row => {}
            _ => self.ran_out |= uses.push(RowUse { by, row }).is_err(),
        }
    }

    /// Notes an operand. Its index is used, whatever happens to the field.
    fn note_operand(&mut self, operand: Operand<u16>, by: By, row: usize) {
        if let Index::Field(index) = operand.index {
            let index_by = if by == By::Setting { By::Using } else { by };
            self.note(index, index_by, row);
        }
        self.note(operand.field, by, row);
    }

    fn note_line(&mut self, row: usize, line: &Line) {
        for field in &line.fields {
            self.note_operand(field.operand, By::Line, row);
            if let Editing::Word(word) = field.editing {
                self.note(word, By::Line, row);
            }
        }
    }

    fn note_used(&mut self, used: Option<Use<Operand<u16>>>, by: By, row: usize) {
        if let Some(used) = used {
            self.note_operand(used.operand, by, row);
        }
    }

    fn note_instruction(&mut self, rows: &Rows, place: usize, instruction: Instruction<u16>) {
        let row = columns_of(rows, instruction);
        self.note_used(row.factor1, By::Using, place);
        self.note_used(row.factor2, By::Using, place);
        self.note_used(row.result, By::Setting, place);
    }

    fn note_places(&mut self, program: &Program) {
        for place in 0..usize::from(u16::MAX) {
            let Some(placed) = placed_at(program, place) else {
                break;
            };
            self.note_instruction(program.rows(), place, placed.instruction);
        }
    }

    fn note_types(&mut self, types: &[RecordType]) {
        for (row, record_type) in types.iter().enumerate() {
            for input in &record_type.inputs {
                self.note(input.field, By::Type, row);
            }
        }
    }

    fn note_lines(&mut self, lines: &[Line]) {
        for (row, line) in lines.iter().enumerate() {
            self.note_line(row, line);
        }
    }

    pub fn of(alloc: Global, program: &Program) -> Result<Self, AllocError> {
        let mut uses = Uses {
            fields: Vec::new(alloc),
            ran_out: false,
        };
        uses.note_program(alloc, program);
        if uses.ran_out {
            return Err(AllocError);
        }
        Ok(uses)
    }

    fn note_program(&mut self, alloc: Global, program: &Program) {
        let rows = program.rows();
        for _ in 0..=rows.fields.len() {
            self.ran_out |= self.fields.push(Vec::new(alloc)).is_err();
        }
        self.note_types(&rows.types);
        self.note_lines(&rows.lines);
        self.note_places(program);
    }

    pub fn write(&self, out: &mut TextWriter, field: u16) {
        if let Some(uses) = self.fields.get(usize::from(field)) {
            write_rows(out, "  from type", uses, By::Type);
            write_rows(out, "  set at", uses, By::Setting);
            write_rows(out, "  used at", uses, By::Using);
            write_rows(out, "  on line", uses, By::Line);
        }
    }
}
