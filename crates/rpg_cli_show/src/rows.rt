//! Record types, with their codes, control fields, input fields and match fields; output lines, with their conditions and their fields;
//! instructions, as the calculation sheet has them: factor 1, operation, factor 2, result and indicators.

use crate::shown::{Shown, Table, write_offset};
use rpg_cli_show_fields::{
    time_word, write_card, write_code, write_condition, write_named, write_quoted, write_shows,
    write_spacing, write_when,
};
use rpg_cli_text::TextWriter;
use rpg_program::columns::row_of;
use rpg_program::condition::Condition;
use rpg_program::input::{ControlField, InputField, InputFile, RecordCode};
use rpg_program::line::{Editing, File, LineField, Source};
use rpg_program::operation::{Action, Index, Instruction, Operand};
use rpg_program::row::{Marks, Use};
use rpg_program::rows::RecordType;

fn write_alternative(out: &mut TextWriter, conditions: &[Condition]) {
    if conditions.is_empty() {
        out.write_str(" always");
    }
    for condition in conditions {
        write_condition(out, *condition);
    }
}

/// Writes the alternatives of a line, and moves past their bytes.
fn write_alternatives(out: &mut TextWriter, at: &mut usize, alternatives: &[Vec<Condition>]) {
    for (i, conditions) in alternatives.iter().enumerate() {
        out.write_str(if i == 0 { ", when" } else { ", or" });
        write_alternative(out, conditions);
        let bytes = conditions.len().saturating_add(1).saturating_mul(2);
        *at = (*at).saturating_add(bytes);
    }
}

fn write_field(out: &mut TextWriter, at: &mut usize, shown: Shown<'_>, field: LineField<u16>) {
    write_offset(out, at, 16);
    out.fill_one("    to place {:<4} ", field.end);
    if let Source::Page = field.source {
        out.write_str("PAGE, one more in ");
    }
    shown.write_operand(out, field.operand);
    match field.editing {
        Editing::Plain => {}
        Editing::Code(code) => write_code(out, code, field.fill),
        Editing::Word(word) => {
            out.write_str(" by word ");
            let index = Index::Blank;
            shown.write_operand(out, Operand { field: word, index });
        }
    }
    if field.is_blanked {
        out.write_str(", blank after");
    }
    write_when(out, ", when", field.conditions);
}

fn write_line_fields(
    out: &mut TextWriter,
    at: &mut usize,
    shown: Shown<'_>,
    number: usize,
    fields: &[LineField<u16>],
) {
    for (i, field) in fields.iter().enumerate() {
        write_field(out, at, shown, *field);
        write_card(out, shown.source.line_field_card(number, i));
        out.write_char('\n');
    }
}

pub(crate) fn write_lines(out: &mut TextWriter, at: &mut usize, shown: Shown<'_>) {
    out.write_str("\n    at  LINES\n");
    for (number, line) in shown.rows.lines.iter().enumerate() {
        let file = match line.file {
            File::Printer => "printer",
            File::Disk => "disk",
        };
        let time = time_word(line.time);
        write_offset(out, at, 12);
        out.fill_three("  line {}: {}, {}", number, file, time);
        write_spacing(out, line.spacing);
        write_alternatives(out, at, &line.alternatives);
        write_card(out, shown.source.line_card(number));
        out.write_char('\n');
        write_line_fields(out, at, shown, number, &line.fields);
        shown.write_broken(out, Table::Lines, number);
    }
}

/// Writes which records are of the type, and which indicator it turns on.
fn write_head(out: &mut TextWriter, number: usize, record_type: &RecordType) {
    let of_file = match record_type.file {
        InputFile::Primary => "",
        InputFile::Secondary => " of the secondary file",
    };
    let sentence = if record_type.codes.is_empty() {
        "  type {}: every record{}"
    } else {
        "  type {}: records{} with these codes"
    };
    out.fill_two(sentence, number, of_file);
    write_named(out, ", turns on {}", record_type.indicator);
}

fn write_codes(out: &mut TextWriter, at: &mut usize, codes: &[RecordCode]) {
    for code in codes {
        let is = if code.is_negated { "isn't" } else { "is" };
        write_offset(out, at, 4);
        out.fill_two("    column {} {} ", code.position, is);
        write_quoted(out, &[code.character]);
        out.write_char('\n');
    }
}

fn write_levels(out: &mut TextWriter, at: &mut usize, sentence: &str, fields: &[ControlField]) {
    for field in fields {
        write_offset(out, at, 6);
        out.fill_three(sentence, field.from, field.to, field.level);
        if field.is_numeric {
            out.write_str(", by its digits alone");
        }
        out.write_char('\n');
    }
}

fn write_inputs(
    out: &mut TextWriter,
    at: &mut usize,
    shown: Shown<'_>,
    number: usize,
    inputs: &[InputField<u16>],
) {
    for (i, input) in inputs.iter().enumerate() {
        let sentences = ["  plus {}", "  minus {}", "  zero or blank {}"];
        write_offset(out, at, 10);
        out.fill_two("    columns {}-{} to ", input.from, input.to);
        out.fill_one("#{}", input.field);
        shown.write_name(out, input.field);
        write_shows(out, sentences, input.shows);
        write_card(out, shown.source.input_card(number, i));
        out.write_char('\n');
    }
}

pub(crate) fn write_types(out: &mut TextWriter, at: &mut usize, shown: Shown<'_>) {
    let control = "    columns {}-{} are a control field of L{}";
    let matched = "    columns {}-{} are a match field of M{}";
    out.write_str("\n    at  RECORD TYPES\n");
    let head = if shown.rows.version.has_secondary() {
        10
    } else {
        8
    };
    for (number, record_type) in shown.rows.types.iter().enumerate() {
        write_offset(out, at, head);
        write_head(out, number, record_type);
        write_card(out, shown.source.type_card(number));
        out.write_char('\n');
        write_codes(out, at, &record_type.codes);
        write_levels(out, at, control, &record_type.levels);
        write_inputs(out, at, shown, number, &record_type.inputs);
        write_levels(out, at, matched, &record_type.matches);
        shown.write_broken(out, Table::Types, number);
    }
}

/// The bytes of an instruction.
const INSTRUCTION: usize = 20;

/// The bytes of a subroutine before its instructions.
const SUBROUTINE: usize = 4;

fn is_half_adjusted(action: Action<Operand<u16>>) -> bool {
    match action {
        Action::Compute { half, .. }
        | Action::Divide { half, .. }
        | Action::Assign { half, .. }
        | Action::CrossFoot { half, .. } => half,
        _ => false,
    }
}

fn sentences_of(action: Action<Operand<u16>>) -> [&'static str; 3] {
    match action {
        Action::Compare { .. } | Action::LookUp { .. } => ["  high {}", "  low {}", "  equal {}"],
        Action::SetIndicators { .. } => ["  {}", "  {}", "  {}"],
        _ => ["  plus {}", "  minus {}", "  zero {}"],
    }
}

/// Writes an operand, if there is one, in a column of this width and a blank.
fn write_column(out: &mut TextWriter, shown: Shown, used: Option<Use<Operand<u16>>>, width: usize) {
    let end = out.len().saturating_add(width);
    if let Some(used) = used {
        shown.write_operand(out, used.operand);
    }
    out.pad_to(end);
    out.write_char(' ');
}

fn write_action(out: &mut TextWriter, shown: Shown<'_>, action: Action<Operand<u16>>) {
    let row = row_of(shown.rows, action);
    let result_width = if shown.is_named { 14 } else { 8 };
    write_column(out, shown, row.factor1, 14);
    out.fill_one("{:<6} ", action.name());
    write_column(out, shown, row.factor2, 14);
    write_column(out, shown, row.result, result_width);
    out.write_char(if is_half_adjusted(action) { 'H' } else { ' ' });
    match row.marks {
        Marks::Unmarked => {}
        Marks::Shown(shows) | Marks::Wanted(shows) | Marks::Sought(shows) => {
            write_shows(out, sentences_of(action), shows);
        }
    }
}

fn write_instruction(out: &mut TextWriter, shown: Shown<'_>, instruction: Instruction<u16>) {
    if !matches!(&instruction, Instruction::Act(_)) {
        out.fill_one("               {:<6} ", instruction.name());
    }
    match instruction {
        Instruction::Act(action) => write_action(out, shown, action),
        Instruction::Except => {}
        Instruction::Branch {
            is_taken_where,
            conditions,
            target,
        } => {
            let when = if is_taken_where { ", when" } else { ", unless" };
            out.fill_one("to {}", target);
            write_when(out, when, conditions);
        }
        Instruction::Call { subroutine } | Instruction::Return { subroutine } => {
            out.fill_one("subroutine {}", subroutine);
        }
    }
}

/// Writes the instructions of a section, the first at this place.
fn write_section(
    out: &mut TextWriter,
    at: &mut usize,
    shown: Shown<'_>,
    first: usize,
    code: &[Instruction<u16>],
) {
    let mut place = first;
    for instruction in code {
        write_offset(out, at, INSTRUCTION);
        out.fill_one(" {:>5} ", place);
        match shown.costs.get(place) {
            Some(cost) => out.fill_one("{:>6}", *cost),
            None => out.write_str("      "),
        }
        if shown.is_named {
            match shown.source.place_card(place) {
                Some(card) => out.fill_one("  {:>5}", card),
                None => out.write_str("       "),
            }
        }
        out.write_str("  ");
        write_instruction(out, shown, *instruction);
        out.end_line();
        shown.write_broken(out, Table::Places, place);
        place = place.saturating_add(1);
    }
}

fn write_heading(out: &mut TextWriter, shown: Shown<'_>, name: &str, count: usize) {
    let heading = if count == 0 {
        "\n        {}: none\n"
    } else if shown.is_named {
        "\n    at place   path   card  {}\n"
    } else {
        "\n    at place   path  {}\n"
    };
    out.fill_one(heading, name);
}

const SUBROUTINE_ROW: &str = "               subroutine {}, level {}\n";

fn write_subroutines(out: &mut TextWriter, at: &mut usize, shown: Shown<'_>, first: usize) {
    let mut place = first;
    for (number, subroutine) in shown.rows.subroutines.iter().enumerate() {
        write_offset(out, at, SUBROUTINE);
        out.fill_two(SUBROUTINE_ROW, number, subroutine.level);
        shown.write_broken(out, Table::Subroutines, number);
        write_section(out, at, shown, place, &subroutine.instructions);
        place = place.saturating_add(subroutine.instructions.len());
    }
}

pub(crate) fn write_sections(out: &mut TextWriter, at: &mut usize, shown: Shown<'_>) {
    let rows = shown.rows;
    let total = rows.detail.len();
    let subroutines = total.saturating_add(rows.total.len());
    write_heading(out, shown, "DETAIL CALCULATIONS", rows.detail.len());
    write_section(out, at, shown, 0, &rows.detail);
    write_heading(out, shown, "TOTAL CALCULATIONS", rows.total.len());
    write_section(out, at, shown, total, &rows.total);
    write_heading(out, shown, "SUBROUTINES", rows.subroutines.len());
    if rows.subroutines.is_empty() {
        shown.write_broken(out, Table::Subroutines, 0);
    }
    write_subroutines(out, at, shown, subroutines);
}
