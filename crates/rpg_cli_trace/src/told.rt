//! A text that is reported line by line, so that no more of it is in memory than a line; the names of a job's records, record types and
//! fields in it; and lines of the printer and records of the disk file in the bytes of the output.

use crate::changes::EntryAt;
use crate::tracing::Selected;
use rpg_cli_diagnostics::{FileName, Place};
use rpg_cli_files::Listener;
use rpg_cli_show_fields::{SourceRows, name_text, write_card};
use rpg_cli_text::TextWriter;
use rpg_program::form::Class;
use rpg_program::input::InputFile;
use rpg_text::shown;
use rpg_verify::Verified;
use std::alloc::Global;

/// A line that isn't reported yet, the names for it, and who takes it.
#[derive(Drop)]
pub(crate) struct Told<'a, 'l, L> {
    pub out: TextWriter,
    pub names: JobNames<'a>,
    /// The cycle that is reported.
    pub cycle: u64,
    listener: &'l mut L,
}

impl<'a, 'l, L: Listener> Told<'a, 'l, L> {
    pub fn new(alloc: Global, names: JobNames<'a>, listener: &'l mut L) -> Self {
        Told {
            out: TextWriter::new(alloc),
            names,
            cycle: 0,
            listener,
        }
    }

    pub fn end_line_of(&mut self, record: Option<Place<'_>>) {
        match self.out.so_far() {
            Ok(line) => self.listener.line(record, line),
            Err(_) => self.listener.lose(),
        }
        self.out.clear();
    }

    pub fn end_line(&mut self) {
        self.end_line_of(None);
    }

    pub fn end_quoted(&mut self) {
        self.out.write_char('"');
        self.end_line();
    }

    pub fn pass_on(&mut self) {
        self.listener.pass_on();
    }
}

/// A program that runs, the names of its input files, and the cards of its source, if that is known.
#[derive(Clone, Copy)]
pub struct JobNames<'a> {
    pub program: &'a Verified,
    pub primary: FileName<'a>,
    pub secondary: Option<FileName<'a>>,
    pub source: Option<&'a SourceRows>,
}

impl<'a> JobNames<'a> {
    fn file(&self, file: InputFile) -> FileName<'a> {
        match (file, self.secondary) {
            (InputFile::Secondary, Some(secondary)) => secondary,
            (InputFile::Primary, _) | (InputFile::Secondary, None) => self.primary,
        }
    }

    pub(crate) fn place(&self, record: Selected) -> Place<'a> {
        self.file(record.file).line(record.number)
    }

    /// Writes a record type: its row, counted from 0, and its card.
    pub(crate) fn write_type(&self, out: &mut TextWriter, row: usize) {
        out.fill("type {}", &[row.into()]);
        if let Some(source) = self.source {
            write_card(out, source.type_card(row));
        }
    }

    /// Writes an entry of a field: the field's name, or its number if the name isn't known, and the index if it has several entries.
    pub(crate) fn write_entry(&self, out: &mut TextWriter, at: EntryAt) {
        match self.name_of(at.field) {
            Some(name) => out.write_str(name_text(name)),
            None => out.fill("#{}", &[at.field.into()]),
        }
        if matches!(at.form.class, Class::Array | Class::Table) {
            out.fill(",{}", &[at.position.into()]);
        }
    }

    fn name_of(&self, field: u16) -> Option<&[u8]> {
        self.source?.field_name(field)
    }
}

const FORM_FEED: u8 = 12;

/// Whether a byte moves the form, or ends a record of the disk file.
fn is_movement(byte: u8) -> bool {
    matches!(byte, b'\n' | b'\r' | FORM_FEED)
}

/// Counts the lines that have text. Each begins where the form was moved.
pub(crate) fn lines_in(bytes: &[u8]) -> u64 {
    let mut count = 0u64;
    let mut is_in_line = false;
    for byte in bytes {
        let is_text = !is_movement(*byte);
        if is_text && !is_in_line {
            count = count.saturating_add(1);
        }
        is_in_line = is_text;
    }
    count
}

/// Counts the records that were written to the disk file.
pub(crate) fn records_in(bytes: &[u8]) -> u64 {
    bytes.iter().filter(|byte| **byte == b'\n').count() as u64
}

impl<L: Listener> Told<'_, '_, L> {
    /// Reports each line that has text on a line of its own, in quotes, after the given words.
    pub fn report_lines(&mut self, begin: &str, bytes: &[u8]) {
        let mut is_in_line = false;
        for byte in bytes {
            let is_text = !is_movement(*byte);
            if is_text && !is_in_line {
                self.out.fill(begin, &[self.cycle.into()]);
            }
            if is_text {
                self.out.write_char(shown(*byte) as char);
            } else if is_in_line {
                self.end_quoted();
            }
            is_in_line = is_text;
        }
        if is_in_line {
            self.end_quoted();
        }
    }
}
