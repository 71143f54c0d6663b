//! Rules that an object program breaks, the rows that break them, and what in a row does, with its fields and indicators in words.

use rpg_cli_diagnostics::{At, Diagnostic, Draft, FileName, Level, Place};
use rpg_cli_text::{TextWriter, Topic, indicator_name};
use rpg_program::Program;
use rpg_program::condition::{Condition, Conditions};
use rpg_program::form::{Class, FieldForm, Kind, is_array};
use rpg_program::forms::form_at;
use rpg_program::input::ControlField;
use rpg_program::line::{Editing, File, LineField, Time};
use rpg_program::operation::{Index, Instruction, Operand, Shows};
use rpg_program::row::{Marks, Use};
use rpg_program::rows::Rows;
use rpg_program::section::Section;
use rpg_refusal_causes::{Column, RefusalCause as Cause, placed_at, refusal};
use rpg_verify_rules::{BrokenRule, Rule};
use std::alloc::{AllocError, Global};

/// Returns the diagnostic for the rule that an object program breaks: the rule's sentence, which row it is, and what in the row breaks it;
/// None for a program that obeys all rules.
pub fn rule_diagnostic<'a>(
    alloc: Global,
    file: FileName<'a>,
    program: &Program,
) -> Result<Option<Diagnostic<'a>>, AllocError> {
    let Some(refusal) = refusal(program) else {
        return Ok(None);
    };
    let broken = refusal.broken;
    let topic = Topic::Rule(usize::from(broken.rule.number()));
    let at = At::Row(broken.row as u64);
    let mut draft = Draft::new(alloc, Level::Error, Some(Place { file, at }), Some(topic));
    draft.message.write_str(topic.sentence());
    write_row(&mut draft.message, program, broken);
    let rows = program.rows();
    write_cause(&mut draft.message, rows, broken.row, refusal.cause);
    Ok(Some(draft.finish()?))
}

/// Writes a line by number, time and file, with the positions of that file's lines.
fn write_line(out: &mut TextWriter, rows: &Rows, row: usize) {
    let Some(line) = rows.lines.get(row) else {
        return;
    };
    let time = match line.time {
        Time::Heading => "a heading line",
        Time::Detail => "a detail line",
        Time::Total => "a total line",
        Time::Exception => "an exception line",
    };
    let file = match line.file {
        File::Printer => "of the printer",
        File::Disk => "of the disk file",
    };
    let length = usize::from(rows.file_length(line.file));
    out.fill_three(": line {}, {} {}", row, time, file);
    out.fill_two(", of {} {}", length, counted(length, "place", "places"));
}

/// Writes the instruction at a place, counted through the whole program.
pub fn write_instruction_at(out: &mut TextWriter, program: &Program, place: usize) {
    if let Some(placed) = placed_at(program, place) {
        let span = placed.span;
        let (sentence, number): (&str, u16) = match span.section {
            Section::Detail => (" at place {} of the detail calculations", 0),
            Section::Total => (" at place {} of the total calculations", 0),
            Section::Subroutine(number) => (" at place {} of subroutine {}, of level {}", number),
        };
        let pieces = [place.into(), number.into(), span.level.into()];
        out.write_str("the ");
        out.write_str(placed.instruction.name());
        out.fill(sentence, &pieces);
    }
}

/// Writes a subroutine by number, with its level and how it ends.
fn write_subroutine(out: &mut TextWriter, rows: &Rows, row: usize) {
    let Some(subroutine) = rows.subroutines.get(row) else {
        return;
    };
    let level = subroutine.level;
    out.fill(": subroutine {}, of level {}", &[row.into(), level.into()]);
    let Some(last) = subroutine.instructions.last() else {
        out.write_str(", without instructions");
        return;
    };
    let count = subroutine.instructions.len();
    let unit = counted(count, "instruction", "instructions");
    out.fill_three(", of {} {}, the last {}", count, unit, last.name());
    if let Instruction::Return { subroutine } = *last {
        out.fill(" of subroutine {}", &[subroutine.into()]);
    }
}

/// Writes which row breaks a rule. A subroutine is named by what breaks its rule, since a RET may be
/// outside all of them.
fn write_row(out: &mut TextWriter, program: &Program, broken: BrokenRule) {
    match broken.rule {
        Rule::Overflow | Rule::Subroutine(_) => {}
        Rule::Type(_) => out.fill(": record type {}", &[broken.row.into()]),
        Rule::Line(_) => write_line(out, program.rows(), broken.row),
        Rule::Place(_) => {
            out.write_str(": ");
            write_instruction_at(out, program, broken.row);
        }
    }
}

const CODE: &str = "; its code {} is at position {}, and a record has {}";

const CONTROL: &str = "; its control field {}, of L{}, is columns {} to {}, and a record has {}";

const MATCH: &str = "; its match field {}, of M{}, is columns {} to {}, and a record has {}";

const TWICE: &str = "; its match field {} is of M{}, as one before it is";

const LONG_LEVEL: &str = "; the joined length of L{} is {}, and may be 256 at most";

const OTHER_LEVEL: &str = "; the joined length of L{} is {}, and in the first type that has it {}";

const LONG_MATCHES: &str = "; the joined length of its match fields is {}, and may be 256 at most";

const OTHER_MATCHES: &str =
    "; the joined length of M{} is {}, and in the first type that has match fields {}";

/// Returns a joined length, which is computed in 128 bits.
fn length(columns: u128) -> u64 {
    u64::try_from(columns).unwrap_or(u64::MAX)
}

fn write_control(out: &mut TextWriter, sentence: &str, at: usize, field: ControlField, most: u16) {
    let (from, to) = (field.from.into(), field.to.into());
    out.fill(
        sentence,
        &[at.into(), field.level.into(), from, to, most.into()],
    );
}

/// Writes which levels of a record type break V5 or V26.
fn write_levels(out: &mut TextWriter, cause: Cause) {
    match cause {
        Cause::Control { at, field, columns } => write_control(out, CONTROL, at, field, columns),
        Cause::Match { at, field, columns } => write_control(out, MATCH, at, field, columns),
        Cause::Twice { at, level } => out.fill_two(TWICE, at, level),
        Cause::LongLevel { level, columns } => out.fill_two(LONG_LEVEL, level, length(columns)),
        Cause::LongMatches { columns } => out.fill_one(LONG_MATCHES, length(columns)),
        Cause::OtherLevel {
            level,
            columns,
            first,
        } => out.fill_three(OTHER_LEVEL, level, length(columns), length(first)),
        Cause::OtherMatches {
            level,
            columns,
            first,
        } => out.fill_three(OTHER_MATCHES, level, length(columns), length(first)),
        _ => {}
    }
}

const INPUT: &str = "; its input field {} is columns {} to {} of a record's {}, for ";

fn write_type(out: &mut TextWriter, rows: &Rows, cause: Cause) {
    match cause {
        Cause::Code {
            at,
            position,
            columns,
        } => out.fill_three(CODE, at, position, columns),
        Cause::TurnedOn { indicator } => {
            out.write_str("; it turns on ");
            write_indicator(out, indicator);
        }
        Cause::Input { at, input, columns } => {
            let (from, to) = (input.from.into(), input.to.into());
            out.fill(INPUT, &[at.into(), from, to, columns.into()]);
            write_field(out, rows, input.field);
        }
        Cause::Shown { at, input } => {
            out.fill_one("; its input field {} is for ", at);
            write_field(out, rows, input.field);
            out.write_str(", with the indicators");
            write_shows(out, input.shows);
        }
        Cause::NoSecondary => out.write_str("; it is of the secondary file"),
        _ => write_levels(out, cause),
    }
}

fn write_used(out: &mut TextWriter, rows: &Rows, column: Column, used: Use<Operand<u16>>) {
    out.write_str(match column {
        Column::Factor1 => "; factor 1 is ",
        Column::Factor2 => "; factor 2 is ",
        Column::Result => "; the result is ",
    });
    write_operand(out, rows, used.operand);
}

fn write_shows(out: &mut TextWriter, shows: Shows) {
    write_indicators(out, [shows.plus, shows.minus, shows.zero]);
}

fn write_marks(out: &mut TextWriter, marks: Marks) {
    if let Marks::Shown(shows) | Marks::Wanted(shows) | Marks::Sought(shows) = marks {
        out.write_str("; its indicators:");
        write_shows(out, shows);
    }
}

fn tested_by(condition: Option<Condition>) -> Option<u8> {
    Some(condition?.indicator)
}

fn write_tested(out: &mut TextWriter, conditions: Conditions) {
    out.write_str("; its indicators:");
    let [first, second, third] = [conditions.first, conditions.second, conditions.third];
    write_indicators(out, [tested_by(first), tested_by(second), tested_by(third)]);
}

/// Writes the subroutine that is called, with its level, or the subroutines that exist.
fn write_called(out: &mut TextWriter, rows: &Rows, subroutine: u16, level: Option<u16>) {
    out.fill_one("; it calls subroutine {}", subroutine);
    match (level, rows.subroutines.len()) {
        (Some(level), _) => out.fill_one(", of level {}", level),
        (None, 0) => out.write_str("; there is none"),
        (None, 1) => out.write_str("; the only one is subroutine 0"),
        (None, count) => out.fill_one("; there are {}, counted from 0", count),
    }
}

fn write_line_field(out: &mut TextWriter, rows: &Rows, at: usize, field: LineField<u16>) {
    out.fill_one("; its field {} is ", at);
    write_operand(out, rows, field.operand);
    if let Editing::Word(word) = field.editing {
        out.write_str(", edited by the word in ");
        write_field(out, rows, word);
    }
    out.fill_one(", and ends at place {}", field.end);
}

const SPACES: &str = "; it spaces {} before and {} after, ";

const SKIPS: &str = "and skips to {} before and {} after";

/// Writes what in an instruction breaks a rule about its operands or indicators.
fn write_columns(out: &mut TextWriter, rows: &Rows, cause: Cause) {
    match cause {
        Cause::Operand { column, used } => write_used(out, rows, column, used),
        Cause::Tested { conditions } => write_tested(out, conditions),
        Cause::Marked { marks } => write_marks(out, marks),
        Cause::Unordered { marks, used } => {
            write_marks(out, marks);
            write_used(out, rows, Column::Factor2, used);
        }
        Cause::Index { used, .. } => write_used(out, rows, Column::Factor2, used),
        Cause::Short { used, entries } => {
            write_used(out, rows, Column::Result, used);
            out.fill_one(", and factor 2 has {}", entries);
        }
        _ => write_type(out, rows, cause),
    }
}

/// Writes what in a row of a rule's table breaks the rule.
fn write_cause(out: &mut TextWriter, rows: &Rows, row: usize, cause: Cause) {
    match cause {
        Cause::Overflow { indicator } => {
            out.write_str(": it is ");
            write_indicator(out, indicator);
        }
        Cause::Movements { spacing } => {
            out.fill_two(SPACES, spacing.space_before, spacing.space_after);
            out.fill_two(SKIPS, spacing.skip_before, spacing.skip_after);
        }
        Cause::Alternative { at } => out.fill_one("; its alternative {} tests MR", at),
        Cause::Field { at, field } => write_line_field(out, rows, at, field),
        Cause::Target { target, first, end } => out.fill_three(
            "; it leads to {}; they begin at {} and end at {}",
            target,
            first,
            end,
        ),
        Cause::Called { subroutine, level } => write_called(out, rows, subroutine, level),
        Cause::StrayReturn { place } => {
            out.fill_one(": the RET at place {} is in no subroutine", place);
        }
        Cause::ForeignReturn { .. } | Cause::Unended | Cause::Level { .. } => {
            write_subroutine(out, rows, row);
        }
        _ => write_columns(out, rows, cause),
    }
}

pub(crate) fn counted(count: usize, one: &'static str, more: &'static str) -> &'static str {
    if count == 1 { one } else { more }
}

fn write_indicator(out: &mut TextWriter, indicator: u8) {
    match indicator_name(indicator) {
        Some(name) => out.write_str(name),
        None => out.fill("number {}", &[indicator.into()]),
    }
}

/// Writes indicators, each after a blank; ` none` if there are none.
fn write_indicators(out: &mut TextWriter, indicators: [Option<u8>; 3]) {
    let mut is_none = true;
    for indicator in indicators {
        if let Some(indicator) = indicator {
            out.write_char(' ');
            write_indicator(out, indicator);
            is_none = false;
        }
    }
    if is_none {
        out.write_str(" none");
    }
}

/// Writes what a field is: its class, for an array or a table its entries, its kind, and its
/// length.
fn write_form(out: &mut TextWriter, form: FieldForm) {
    let class = match form.class {
        Class::Plain => "a ",
        Class::Constant => "a constant, a ",
        Class::Date => "the date, a ",
        Class::Array => "an array of {} {}, each a ",
        Class::Table => "a table of {} {}, each a ",
    };
    let unit = counted(usize::from(form.entries), "entry", "entries");
    out.fill(class, &[form.entries.into(), unit.into()]);
    let length = usize::from(form.length);
    let (kind, unit) = match form.kind {
        Kind::Text => ("text of {} {}", counted(length, "character", "characters")),
        Kind::Number => ("number of {} {}", counted(length, "digit", "digits")),
    };
    out.fill(kind, &[length.into(), unit.into()]);
    let decimals = match (form.kind, length, form.decimals) {
        (Kind::Text, _, _) | (_, _, 0) => "",
        (_, 1, _) => ", a decimal",
        (_, _, 1) => ", 1 of them a decimal",
        _ => ", {} of them decimals",
    };
    out.fill(decimals, &[form.decimals.into()]);
}

/// Writes a field by number, and what it is; if it doesn't exist, the numbers that fields have.
fn write_field(out: &mut TextWriter, rows: &Rows, field: u16) {
    out.fill("field {}, ", &[field.into()]);
    match (form_at(rows, field), rows.fields.len()) {
        (Some(form), _) => write_form(out, form),
        (None, 0) => out.write_str("and there are no fields"),
        (None, 1) => out.write_str("and the only field is 1"),
        (None, count) => out.fill("and fields are 1 to {}", &[count.into()]),
    }
}

fn write_operand(out: &mut TextWriter, rows: &Rows, operand: Operand<u16>) {
    write_field(out, rows, operand.field);
    match (operand.index, form_at(rows, operand.field)) {
        (Index::Blank, Some(form)) if is_array(form.class) => out.write_str(", without an index"),
        (Index::Blank, _) => {}
        (Index::Literal(index), _) => out.fill(", with index {}", &[index.into()]),
        (Index::Field(field), _) => {
            out.write_str(", with an index in ");
            write_field(out, rows, field);
        }
    }
}
