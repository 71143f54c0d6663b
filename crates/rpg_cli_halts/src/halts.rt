//! Halts, and the columns of a record that should be a number but aren't.

use crate::held::{HaltedRecord, Lower};
use crate::source::HaltedSource;
use crate::types::{add_commas, add_types, write_indexed_fields, write_too_long};
use rpg_cli_diagnostics::{Columns, Diagnostic, Draft, FileName, Level, Made, Place as FilePlace};
use rpg_cli_messages::write_byte_cause;
use rpg_cli_refusals::write_instruction_at;
use rpg_cli_text::{TextWriter, Topic};
use rpg_decimal::read_zoned;
use rpg_program::form::Kind;
use rpg_program::forms::{form_at, kind_of};
use rpg_program::halt::Halt;
use rpg_program::input::{InputField, InputFile};
use rpg_program::rows::Rows;
use rpg_program::section::{Place, Section};
use rpg_text::is_character;
use rpg_verify::Verified;
use std::alloc::Global;

/// A halt in a cycle, counted from 1, and the place of the instruction that halted, if one did.
#[derive(Clone, Copy)]
pub struct HaltedCycle {
    pub halt: Halt,
    pub cycles: u64,
    pub place: Option<Place>,
}

impl HaltedCycle {
    /// Returns how many cycles took a record, up to the one that the halt is about, if it is known. A cycle fills the fields of the record
    /// that it takes, and does detail calculations for it.
    fn cycles_of_records(self) -> Option<u64> {
        match self.place {
            Some(place) => match place.section {
                Section::Detail => Some(self.cycles),
                Section::Total | Section::Subroutine(_) => None,
            },
            None => match self.halt {
                Halt::NoRecordType | Halt::BadRecord | Halt::BadDigit | Halt::OutOfSequence => {
                    Some(self.cycles)
                }
                Halt::IndicatorOn => self.cycles.checked_sub(1),
                Halt::ZeroDivisor | Halt::BadIndex | Halt::AllowanceSpent => None,
            },
        }
    }

    /// Whether the text of a record shows what was wrong with it.
    fn is_of_text(self) -> bool {
        self.place.is_none()
            && matches!(
                self.halt,
                Halt::NoRecordType | Halt::BadDigit | Halt::BadRecord | Halt::OutOfSequence
            )
    }

    /// Whether it takes the record to report the halt in full; for one file, only if the record's text is needed.
    pub fn needs_record(self, program: &Verified) -> bool {
        match self.cycles_of_records() {
            None | Some(0) => false,
            Some(_) => has_two_files(program) || self.is_of_text(),
        }
    }
}

#[derive(Clone, Copy)]
pub struct InputNames<'a> {
    pub primary: FileName<'a>,
    /// The name of the secondary file, if the arguments name one. A program without such a file doesn't read it.
    pub secondary: Option<FileName<'a>>,
}

fn has_two_files(program: &Verified) -> bool {
    program.program().rows().has_file(InputFile::Secondary)
}

impl<'a> InputNames<'a> {
    fn of(self, file: InputFile) -> FileName<'a> {
        match (file, self.secondary) {
            (InputFile::Secondary, Some(secondary)) => secondary,
            (InputFile::Primary, _) | (InputFile::Secondary, None) => self.primary,
        }
    }
}

/// A halt of a job, with what is known about its record.
#[derive(Clone, Copy)]
struct HaltContext<'a> {
    names: InputNames<'a>,
    program: &'a Verified,
    halted: HaltedCycle,
    /// The file of the record, and its number there, from 1.
    record: Option<(InputFile, u64)>,
    found: RecordProblem<'a>,
}

#[derive(Clone, Copy)]
enum RecordProblem<'a> {
    Nothing,
    /// Columns that should be a number.
    Input(BadInput, &'a [u8]),
    /// A byte that isn't a character; its place is counted from 0.
    Byte(usize, &'a [u8]),
    /// It is longer than its file's records, which have this many columns.
    TooLong(usize, &'a [u8]),
    Lower(Lower<'a>),
    NoType(&'a [u8]),
}

impl<'a> RecordProblem<'a> {
    fn of(program: &'a Verified, halted: HaltedCycle, record: &'a HaltedRecord) -> Option<Self> {
        let rows = program.program().rows();
        match (halted.place, halted.halt) {
            (None, Halt::BadRecord) => {
                let text = record.text;
                let length = usize::from(rows.input_length(record.file));
                match text.iter().position(|byte| !is_character(*byte)) {
                    Some(place) => Some(RecordProblem::Byte(place, text)),
                    None if text.len() > length => Some(RecordProblem::TooLong(length, text)),
                    None => None,
                }
            }
            (None, Halt::BadDigit) => {
                Some(RecordProblem::Input(bad_columns(rows, record)?, record.filled()))
            }
            (None, Halt::OutOfSequence) => Some(RecordProblem::Lower(record.lower(program)?)),
            (None, Halt::NoRecordType) => Some(RecordProblem::NoType(record.text)),
            _ => None,
        }
    }

    /// Returns the columns that it is about, and the text of the record.
    fn columns(self) -> Option<(Columns, &'a [u8])> {
        let (first, last, text) = match self {
            RecordProblem::Nothing => return None,
            RecordProblem::Input(bad, text) => {
                (bad.input.from.into(), bad.input.to.into(), text)
            }
            RecordProblem::Byte(before, text) | RecordProblem::TooLong(before, text) => {
                let column = before.saturating_add(1);
                (column, column, text)
            }
            RecordProblem::Lower(lower) => (lower.column, lower.column, lower.text),
            RecordProblem::NoType(text) => (1, 1, text),
        };
        Some((Columns { first, last }, text))
    }
}

fn write_columns(out: &mut TextWriter, bad: BadInput, text: &[u8]) {
    let BadInput { input, column, .. } = bad;
    let character = text.get(column.saturating_sub(1)..column).unwrap_or(&[]);
    let columns = columns_of(text, input);
    out.fill_three(
        ": columns {} to {} are \"{}\"",
        input.from,
        input.to,
        columns,
    );
    out.fill_two(", and {} in column {} isn't a digit", character, column);
}

const LOWER: &str = "match value \"{}\" is lower than \"{}\" of ";

/// What a cycle does besides processing a record.
const BETWEEN: &str =
    "it was cycle {}, which writes the detail lines of record {} and then reads record {}, or reaches the end of the input";

/// Writes which match value is lower than that of an earlier record.
fn write_lower(out: &mut TextWriter, lower: Lower<'_>) {
    out.fill(LOWER, &[lower.value.into(), lower.before.into()]);
    match lower.follows {
        Some(number) => out.fill("record {}", &[number.into()]),
        None => out.write_str("an earlier record"),
    }
}

impl<'a> HaltContext<'a> {
    /// Returns the record's file; the primary one if the record isn't known.
    fn file(self) -> FileName<'a> {
        match self.record {
            Some((file, _)) => self.names.of(file),
            None => self.names.primary,
        }
    }

    /// Returns where it halted: the record and its columns, if they are known.
    fn place(self) -> FilePlace<'a> {
        match (self.record, self.found.columns()) {
            (None, _) => self.file().whole(),
            (Some((_, number)), None) => self.file().line(number),
            (Some((_, number)), Some((columns, text))) => {
                self.file().unshown(number, Some(columns), text)
            }
        }
    }

    fn write_halt(self, draft: &mut Draft<'_>) {
        match self.found {
            RecordProblem::Byte(place, text) => write_byte_cause(draft, text, place),
            RecordProblem::TooLong(length, text) => {
                write_too_long(&mut draft.message, text, length)
            }
            RecordProblem::Lower(lower) => write_lower(&mut draft.message, lower),
            RecordProblem::Input(_, _) | RecordProblem::NoType(_) | RecordProblem::Nothing => {
                draft.message.write_str(self.topic().sentence());
            }
        }
    }

    fn topic(self) -> Topic {
        Topic::Halt(usize::from(self.halted.halt.number()))
    }

    /// Writes which instruction halted; if none did, which columns of the record, or which output fields it may have been.
    fn write_place(self, out: &mut TextWriter) {
        let program = self.program.program();
        match (self.halted.place, self.halted.halt, self.found) {
            (Some(place), _, _) => {
                out.write_str(": ");
                write_instruction_at(out, program, usize::from(place.number));
            }
            (None, Halt::BadIndex, _) => write_indexed_fields(out, program.rows()),
            (None, _, RecordProblem::Input(bad, text)) => write_columns(out, bad, text),
            (None, _, _) => {}
        }
    }

    fn write_cycle(self, out: &mut TextWriter) {
        let cycle = self.halted.cycles;
        let before = cycle.saturating_sub(1);
        match (self.record, self.halted.halt, self.names.secondary) {
            (Some((_, record)), Halt::IndicatorOn, _) => {
                out.fill_one("record {} was the last one", record)
            }
            (Some((_, record)), _, _) => out.fill_one("it was record {}", record),
            (None, _, Some(secondary)) if has_two_files(self.program) => {
                let (first, second) = (self.names.primary.path, secondary.path);
                out.fill_one("it was cycle {} over ", cycle);
                out.fill_two("{} and {}", first.as_bytes(), second.as_bytes());
            }
            (None, _, _) if before == 0 => {
                out.write_str("it was the first cycle, which reads record 1")
            }
            (None, _, _) => out.fill_three(BETWEEN, cycle, before, cycle),
        }
    }

    fn write_kept(self, out: &mut TextWriter) {
        let before = self.halted.cycles.saturating_sub(1);
        let end = match before {
            0 => "; there was no cycle before it",
            1 => "; the output of the 1 cycle before it is kept",
            _ => "; the output of the {} cycles before it is kept",
        };
        out.fill_one(end, before);
    }
}

/// Returns the record that a halt is about, and its number: with one file, from the cycles; with two, from the files themselves.
fn place_of(
    program: &Verified,
    halted: HaltedCycle,
    record: Option<&HaltedRecord<'_>>,
) -> Option<(InputFile, u64)> {
    match record {
        Some(record) => Some((record.file, record.number)),
        None if has_two_files(program) => None,
        None => Some((InputFile::Primary, halted.cycles_of_records()?)),
    }
}

/// Returns the diagnostic for a halt of a job by this program over the records of these files. The record shows what was wrong with it and,
/// of two files, which it came from; the program's source shows which card it was.
pub fn halt_diagnostic<'a>(
    alloc: Global,
    names: InputNames<'a>,
    program: &'a Verified,
    halted: HaltedCycle,
    record: Option<&'a HaltedRecord<'_>>,
    source: Option<HaltedSource<'a>>,
) -> Made<Diagnostic<'a>> {
    let found = match record {
        Some(record) => RecordProblem::of(program, halted, record).unwrap_or(
            RecordProblem::Nothing,
        ),
        None => RecordProblem::Nothing,
    };
    let context = HaltContext {
        names,
        program,
        halted,
        record: place_of(program, halted, record),
        found,
    };
    let topic = Some(context.topic());
    let mut draft = Draft::new(alloc, Level::Error, Some(context.place()), topic);
    context.write_halt(&mut draft);
    context.write_place(&mut draft.message);
    if let Some(source) = source {
        let bad = match found {
            RecordProblem::Input(bad, _) => Some(bad),
            _ => None,
        };
        source.add_cards(&mut draft, program.program(), halted, bad);
    }
    let rows = program.program().rows();
    if let Some(record) = record {
        match found {
            RecordProblem::Input(_, _) => add_commas(&mut draft, rows, record),
            RecordProblem::NoType(_) => add_types(&mut draft, rows, record, source),
            _ => {}
        }
    }
    let mut remark = draft.text();
    context.write_cycle(&mut remark);
    context.write_kept(&mut remark);
    draft.add(Some(context.file().whole()), remark);
    draft.finish()
}

/// An input field whose columns aren't a number, by its record type and its place there, both counted from 0.
#[derive(Clone, Copy)]
pub(crate) struct BadInput {
    pub row: usize,
    pub number: usize,
    pub input: InputField<u16>,
    /// The column whose character isn't a digit, counted from 1.
    pub column: usize,
}

pub(crate) fn columns_of(text: &[u8], input: InputField<u16>) -> &[u8] {
    let from = usize::from(input.from).saturating_sub(1);
    text.get(from..usize::from(input.to)).unwrap_or(&[])
}

/// Returns the column of the first character that isn't allowed in a numeric input field, if there is one.
fn bad_column(rows: &Rows, text: &[u8], input: InputField<u16>) -> Option<usize> {
    let part = columns_of(text, input);
    if part.is_empty() || part.len() > 15 {
        return None;
    }
    match (kind_of(form_at(rows, input.field)), read_zoned(part)) {
        (Kind::Number, Err(bad)) => Some(usize::from(input.from).saturating_add(bad.spot)),
        _ => None,
    }
}

/// Returns the first columns of a record that should be a number but aren't, in the order of its type's input fields.
pub(crate) fn bad_columns(rows: &Rows, record: &HaltedRecord<'_>) -> Option<BadInput> {
    let row = record.row?;
    for (number, input) in rows.types.get(row)?.inputs.iter().enumerate() {
        if let Some(column) = bad_column(rows, record.filled(), *input) {
            return Some(BadInput {
                row,
                number,
                input: *input,
                column,
            });
        }
    }
    None
}
