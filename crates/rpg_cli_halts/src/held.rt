//! The record that a job halted at, from the bytes that were read last.

use rpg_cycle_records::{KeptFile, MatchValue, fill, identify, is_valid};
use rpg_program::input::{ControlField, InputFile};
use rpg_text::first_line;
use rpg_verify::Verified;
use std::alloc::{AllocError, Global};

/// What a job that halted read last from the file whose record it had.
#[derive(Clone, Copy)]
pub struct LastRead<'a> {
    pub file: InputFile,
    pub bytes: &'a [u8],
    /// How many of them begin with the last line; none at the end of the file.
    pub left: usize,
    /// The number of the last line, from 1.
    pub number: u64,
    /// The match value of the record that was last selected from the file.
    pub value: &'a [u8],
}

/// The record that a job halted at, with what its job keeps of the file.
#[derive(Drop)]
pub struct HaltedRecord<'a> {
    pub(crate) file: InputFile,
    /// Its number in its file, from 1.
    pub(crate) number: u64,
    /// Its text, as its file has it.
    pub(crate) text: &'a [u8],
    /// The row of its type, if it has one.
    pub(crate) row: Option<usize>,
    kept: KeptFile,
    /// The match value of the record that was last selected from its file.
    before: &'a [u8],
    /// The number of the last earlier record with a match value, if it is known.
    follows: Option<u64>,
}

/// A record whose match value is lower than that of an earlier one.
#[derive(Clone, Copy)]
pub(crate) struct Lower<'a> {
    /// The column in which its first match field begins, from 1.
    pub column: usize,
    pub text: &'a [u8],
    pub value: &'a [u8],
    pub before: &'a [u8],
    /// The number of the record with the higher value, if it is known.
    pub follows: Option<u64>,
}

/// Returns the column in which the match field of the highest level begins.
fn first_column(fields: &[ControlField]) -> usize {
    let mut highest = 0u8;
    let mut column = 1u16;
    for field in fields {
        if field.level > highest {
            highest = field.level;
            column = field.from;
        }
    }
    usize::from(column)
}

/// A record of a file: its text, padded to its length, and its match value.
#[derive(Drop)]
struct Taken {
    kept: KeptFile,
    none: MatchValue,
}

impl Taken {
    fn new(alloc: Global, program: &Verified, file: InputFile) -> Result<Taken, AllocError> {
        Ok(Taken {
            kept: KeptFile::new(alloc, program, file)?,
            none: MatchValue::none(alloc, 0)?,
        })
    }

    /// Takes a record, and returns the row of its type, if the program accepts the record and it has a type.
    fn take(&mut self, program: &Verified, file: InputFile, text: &[u8]) -> Option<usize> {
        if !is_valid(program, file, text) {
            return None;
        }
        fill(&mut self.kept.record, program, file, text).ok()?;
        let row = identify(program, file, &self.kept.record).row?;
        let _waits = self.kept.wait(program, row, &self.none).ok()?;
        Some(row)
    }

    fn matches(&mut self, program: &Verified, file: InputFile, text: &[u8]) -> bool {
        self.take(program, file, text).is_some() && self.kept.value.is_there
    }
}

/// Returns the first line of some bytes without its end, and the bytes after it.
fn line_of(bytes: &[u8]) -> (&[u8], &[u8]) {
    if bytes.is_empty() {
        (bytes, bytes)
    } else {
        first_line(bytes)
    }
}

impl<'a> LastRead<'a> {
    /// Returns what was read before the last line, and that line without its end.
    fn parted(self) -> (&'a [u8], &'a [u8]) {
        let at = self.bytes.len().saturating_sub(self.left);
        let (before, line) = self.bytes.split_at(at);
        (before, line_of(line).0)
    }
}

/// Returns the number of the last earlier record with a match value, if it is among the bytes.
fn followed(program: &Verified, read: LastRead<'_>, taken: &mut Taken) -> Option<u64> {
    let (before, _) = read.parted();
    let lines = before.iter().filter(|byte| **byte == b'\n').count();
    let mut number = read.number.saturating_sub(lines as u64);
    let mut found = None;
    // A line that isn't the first of the file may have lost its beginning.
    let mut is_whole = number == 1;
    let mut rest = before;
    for _ in 0..before.len() {
        if rest.is_empty() {
            break;
        }
        let (line, after) = first_line(rest);
        if is_whole && taken.matches(program, read.file, line) {
            found = Some(number);
        }
        number = number.saturating_add(1);
        is_whole = true;
        rest = after;
    }
    found
}

impl<'a> HaltedRecord<'a> {
    /// Returns the record that was read last from its file: a job that halts has read no other after it.
    pub fn of(
        alloc: Global,
        program: &Verified,
        read: LastRead<'a>,
    ) -> Result<HaltedRecord<'a>, AllocError> {
        let mut taken = Taken::new(alloc, program, read.file)?;
        let follows = followed(program, read, &mut taken);
        let (_, text) = read.parted();
        let row = taken.take(program, read.file, text);
        let Taken { kept, .. } = taken;
        Ok(HaltedRecord {
            file: read.file,
            number: read.number,
            text,
            row,
            kept,
            before: read.value,
            follows,
        })
    }

    /// Returns the record, padded to its length, if it has only characters and isn't too long.
    pub(crate) fn filled(&self) -> &[u8] {
        &self.kept.record
    }

    pub(crate) fn lower(&self, program: &Verified) -> Option<Lower<'_>> {
        let own = program.program().rows().types.get(self.row?)?;
        Some(Lower {
            column: first_column(&own.matches),
            text: self.text,
            value: &self.kept.value.bytes,
            before: self.before,
            follows: self.follows,
        })
    }
}
