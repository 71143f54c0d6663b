//! A program as text, and what it reads, writes and needs, in words: its files, the sizes of its tables, and the bound of an accepted program,
//! with its parts.

use crate::fields::{Uses, write_fields, write_first_values};
use crate::rows::{write_lines, write_sections, write_types};
use crate::shown::{Judged, Shown, Table, write_refusal};
use rpg_cli_show_fields::{SourceRows, uses_date, write_named};
use rpg_cli_text::TextWriter;
use rpg_object::encode;
use rpg_paper::Page;
use rpg_program::Program;
use rpg_program::input::InputFile;
use rpg_program::line::Time;
use rpg_program::operation::Instruction;
use rpg_program::rows::{Overflow, Rows};
use rpg_verify::Verified;
use std::alloc::{AllocError, Global};

type Text = Result<String, AllocError>;

/// Returns the text of a program, with its bound if it is accepted.
fn shown_text(alloc: Global, program: &Program, shown: Shown, bound: Option<u64>) -> Text {
    let bytes = encode(alloc, program)?.len();
    let uses = Uses::of(alloc, program)?;
    let mut out = TextWriter::new(alloc);
    write_version(&mut out, shown.rows, bytes);
    write_header(&mut out, shown);
    if let Some(bound) = bound {
        write_bound(&mut out, shown.rows, bound, shown.costs);
    }
    if let Some(broken) = shown.broken {
        write_refusal(&mut out, broken);
    }
    let has_page = shown.rows.version.has_page();
    let mut at = if has_page { 38 } else { 32 };
    write_fields(&mut out, &mut at, shown, &uses);
    write_first_values(&mut out, &mut at, shown);
    write_types(&mut out, &mut at, shown);
    write_lines(&mut out, &mut at, shown);
    write_sections(&mut out, &mut at, shown);
    out.finish()
}

/// Returns the text of a program with the cards of its source, which have names if it is known.
fn text_of(alloc: Global, program: Program, source: &SourceRows, is_named: bool) -> Text {
    let judged = Judged::of(alloc, program)?;
    let unjudged = Shown {
        rows: judged.program().rows(),
        source,
        is_named,
        costs: &[],
        broken: None,
    };
    match &judged {
        Judged::Accepted(verified) => {
            let costs = verified.path_costs();
            let shown = Shown { costs, ..unjudged };
            shown_text(alloc, verified.program(), shown, Some(verified.bound()))
        }
        Judged::Refused(program, broken) => {
            let broken = Some(*broken);
            shown_text(alloc, program, Shown { broken, ..unjudged }, None)
        }
    }
}

/// Returns the whole text of a program: its header, its fields with their first values and their uses, its record types and lines, and its
/// instructions with their places and path costs. An accepted program has its bound and the bound's parts; a rejected one the
/// lowest-numbered broken rule, and the row that breaks it. If its source is known, fields have names and rows have cards.
pub fn program_text(alloc: Global, program: Program, source: Option<&SourceRows>) -> Text {
    match source {
        Some(source) => text_of(alloc, program, source, true),
        None => text_of(alloc, program, &SourceRows::none(alloc), false),
    }
}

/// The most bytes that a step outputs.
const BYTES_OF_STEP: u64 = 10_000;

const STEPS: &str =
    "  steps    a cycle takes at most {}\n  output   a cycle writes at most {} bytes, print and disk together\n";

fn has_level(rows: &Rows, level: u8) -> bool {
    let mut types = rows.types.iter();
    types.any(|record_type| record_type.levels.iter().any(|field| field.level == level))
}

fn write_levels(out: &mut TextWriter, rows: &Rows) {
    out.write_str("  levels  ");
    let mut end = " none\n";
    for level in 1..=9u8 {
        if has_level(rows, level) {
            out.fill_one(" L{}", level);
            end = "\n";
        }
    }
    out.write_str(end);
}

/// Writes the files, the date, control levels, the form and the file that ends the job alone.
fn write_rows(out: &mut TextWriter, rows: &Rows, uses_date: bool) {
    let secondary = "           records of {} column{} from --secondary FILE\n";
    let disk = "  writes   records of {} column{} to --disk FILE\n";
    let printer = "  prints   lines of {} place{} to PRINT\n";
    let input = "  reads    records of {} column{} from INPUT\n";
    write_length(out, input, rows.record_length, "");
    write_length(out, secondary, rows.secondary_length, "");
    write_length(out, printer, rows.printer_length, "  prints   nothing\n");
    write_length(out, disk, rows.disk_length, "");
    out.write_str(if uses_date {
        "  date     used: --date is required\n"
    } else {
        "  date     not used\n"
    });
    write_levels(out, rows);
    write_form(out, rows, "  page     a full page turns on {}\n");
}

/// Writes the most steps and bytes of a cycle, and the arguments of `run` that a program requires.
fn write_run(out: &mut TextWriter, verified: &Verified) {
    let rows = verified.program().rows();
    let steps = verified.bound();
    let bytes = steps.saturating_mul(BYTES_OF_STEP);
    out.fill_two(STEPS, steps, bytes);
    out.write_str("  run      rpg2 run OBJ INPUT PRINT");
    if uses_date(verified.program()) {
        out.write_str(" --date today");
    }
    if rows.secondary_length > 0 {
        out.write_str(" --secondary FILE");
    }
    if rows.disk_length > 0 {
        out.write_str(" --disk FILE");
    }
    out.write_char('\n');
}

/// Returns what a program reads, writes and needs: its files with their lengths, the date, control levels, the most steps and bytes of a
/// cycle, and the command that runs it; or the rule that it breaks.
pub fn program_overview(alloc: Global, program: Program) -> Result<String, AllocError> {
    let judged = Judged::of(alloc, program)?;
    let program = judged.program();
    let mut out = TextWriter::new(alloc);
    write_version(&mut out, program.rows(), encode(alloc, program)?.len());
    write_rows(&mut out, program.rows(), uses_date(program));
    match &judged {
        Judged::Accepted(verified) => write_run(&mut out, verified),
        Judged::Refused(_, broken) => write_refusal(&mut out, *broken),
    }
    out.finish()
}

const TABLES: &str = "  tables   fields {}, record types {}, lines {}, ";

const CODE: &str = "subroutines {},\n           instructions {} at detail time, {} at total time\n";

const ALLOWANCE: &str = "  limit    {} backward branches and calls a cycle\n";

/// Writes a sentence with the record or line length of a file, or that there is no such file.
fn write_length(out: &mut TextWriter, sentence: &str, length: u16, none: &str) {
    if length > 0 {
        let plural = if length == 1 { "" } else { "s" };
        out.fill_two(sentence, length, plural);
    } else {
        out.write_str(none);
    }
}

fn write_version(out: &mut TextWriter, rows: &Rows, bytes: usize) {
    let version = rows.version.number();
    out.fill_two("object program, version {}, {} bytes\n", version, bytes);
}

/// Writes the page with the overflow indicator, and the file that ends the job alone. The standard page has a sentence of its own.
pub(crate) fn write_form(out: &mut TextWriter, rows: &Rows, standard: &str) {
    let Overflow { indicator, page } = rows.overflow;
    let usual = Page::standard();
    if page.lines == usual.lines && page.overflow_line == usual.overflow_line {
        write_named(out, standard, indicator);
    } else {
        out.fill_one("  page     {} lines", page.lines);
        write_named(out, ", {}", indicator);
        if indicator.is_some() {
            out.fill_one(" from line {}", page.overflow_line);
        }
        out.write_char('\n');
    }
    out.write_str(match rows.ends {
        None => "",
        Some(InputFile::Primary) => "  ends     with PRIMARY\n",
        Some(InputFile::Secondary) => "  ends     with SECONDARY\n",
    });
}

fn write_header(out: &mut TextWriter, shown: Shown<'_>) {
    let rows = shown.rows;
    let input = "  input    records of {} column{}";
    let printer = "  printer  lines of {} place{}";
    let disk = "  disk     records of {} column{}\n";
    let (fields, types, lines) = (rows.fields.len(), rows.types.len(), rows.lines.len());
    let subroutines = rows.subroutines.len();
    write_length(out, input, rows.record_length, "");
    write_length(out, ", of the secondary file {}", rows.secondary_length, "");
    out.write_char('\n');
    write_length(out, printer, rows.printer_length, "  printer  none");
    write_named(out, ", overflow indicator {}", rows.overflow.indicator);
    out.write_char('\n');
    write_form(out, rows, "");
    shown.write_broken(out, Table::Header, 0);
    write_length(out, disk, rows.disk_length, "  disk     none\n");
    out.fill_three(TABLES, fields, types, lines);
    out.fill_three(CODE, subroutines, rows.detail.len(), rows.total.len());
    out.fill_one(ALLOWANCE, rows.allowance);
}

/// Returns the weight of all record types: their codes, control fields, input fields and match fields.
fn types_weight(rows: &Rows) -> u64 {
    let mut sum: u64 = 0;
    for record_type in &rows.types {
        sum = sum
            .saturating_add(record_type.codes.len() as u64)
            .saturating_add(record_type.levels.len() as u64)
            .saturating_add(record_type.inputs.len() as u64)
            .saturating_add(record_type.matches.len() as u64);
    }
    sum
}

fn lines_weight(rows: &Rows) -> u64 {
    let mut sum: u64 = 0;
    for line in &rows.lines {
        let is_meant = !matches!(&line.time, Time::Exception);
        sum = sum.saturating_add(line.weight_where(is_meant));
    }
    sum
}

/// Returns the path cost of the first place of a section, 0 if it is empty.
fn first_cost(costs: &[u64], place: usize, code: &[Instruction<u16>]) -> u64 {
    match costs.get(place) {
        Some(cost) if !code.is_empty() => *cost,
        _ => 0,
    }
}

const BOUND: &str = "  accepted, bound {}: a cycle takes at most so many steps, of these\n";

const TYPES: &str = "for codes, control fields and input fields of all record types";

const TYPES_WITH_MATCHES: &str =
    "for codes, control fields, input fields and match fields of all record types";

const LINES: &str = "for heading, detail and total lines and their fields";

const DETAIL: &str = "for detail calculations, not counting loops and calls";

const TOTAL: &str = "for total calculations, not counting loops and calls";

/// Writes the steps of a part, if it has some, but no more than are left of the bound.
fn write_part(out: &mut TextWriter, left: &mut u64, steps: u64, words: &str) {
    let steps = steps.min(*left);
    if steps > 0 {
        out.fill_two("    {:>14} {}\n", steps, words);
    }
    *left = left.saturating_sub(steps);
}

fn write_bound(out: &mut TextWriter, rows: &Rows, bound: u64, costs: &[u64]) {
    let (mut left, lines) = (bound, lines_weight(rows));
    let types = if rows.version.has_secondary() {
        TYPES_WITH_MATCHES
    } else {
        TYPES
    };
    out.fill_one(BOUND, bound);
    write_part(out, &mut left, types_weight(rows), types);
    write_part(out, &mut left, lines, LINES);
    if rows.overflow.indicator.is_some() {
        write_part(out, &mut left, lines, "for the same at an overflow");
    }
    write_part(out, &mut left, first_cost(costs, 0, &rows.detail), DETAIL);
    let total = first_cost(costs, rows.detail.len(), &rows.total);
    write_part(out, &mut left, total, TOTAL);
    let rest = left;
    write_part(
        out,
        &mut left,
        rest,
        "for all that branches back and calls lead to",
    );
}
