//! Bytes that aren't an object program, and what an object program has at an offset: the parts of rows, in the order of their bytes, with how
//! many bytes each has, and its name. The counts before the offset aren't checked.

use crate::rules::counted;
use rpg_cli_diagnostics::{At, Diagnostic, Draft, FileName, Level, Place};
use rpg_cli_text::{TextWriter, Topic, topic_of};
use rpg_object_format::fault::Code;
use rpg_program::rows::Version;
use rpg_text::first_line;
use std::alloc::{AllocError, Global};

const SOURCE: &str =
    ": this is a source: compile it first with rpg2 compile, or run it with rpg2 go";

const MOST_SHOWN: usize = 32;

const HEX: &[u8; 16] = b"0123456789abcdef";

/// Whether the first line is one that sources begin with: a comment, an H card, or an F card of an input or an output file. Columns 1 to 5
/// may have the number of the card.
fn begins_source(bytes: &[u8]) -> bool {
    if bytes.is_empty() {
        return false;
    }
    let (line, _) = first_line(bytes);
    let is_card = match (line.get(5), line.get(6), line.get(14)) {
        (_, Some(b'*'), _) => true,
        (Some(b'F'), _, Some(b'I' | b'O')) => true,
        (Some(b'H'), _, _) => true,
        _ => false,
    };
    let mut numbering = line.iter().take(5);
    is_card && numbering.all(|byte| matches!(*byte, b' ' | b'0'..=b'9'))
}

/// Writes the bytes at an offset, `count` at most.
fn write_found(out: &mut TextWriter, bytes: &[u8], offset: usize, count: usize) {
    let size = bytes.len();
    let (bytes_stand, stand) = match size.saturating_sub(offset).min(count) {
        0 => {
            let unit = counted(size, "byte", "bytes");
            out.fill(", and the file has {} {}", &[size.into(), unit.into()]);
            return;
        }
        1 => (", and byte", " was found"),
        found if found <= MOST_SHOWN => (", and bytes", " were found"),
        _ => (", and bytes", " .. were found"),
    };
    out.write_str(bytes_stand);
    let rest = bytes.get(offset..).unwrap_or(&[]);
    for byte in rest.get(..count.min(MOST_SHOWN)).unwrap_or(rest) {
        let digits = [
            b' ',
            HEX[usize::from(*byte / 16)],
            HEX[usize::from(*byte % 16)],
        ];
        out.write_shown(digits.as_slice());
    }
    out.write_str(stand);
}

fn write_spot(out: &mut TextWriter, bytes: &[u8], offset: usize) {
    out.fill_one(": offset {}: ", offset);
    match spot_at(bytes, offset) {
        Some(spot) => {
            out.write_str(spot.name);
            if let Some(row) = spot.row.number {
                out.fill_two(" of {} {}", spot.row.table, row);
            }
            out.write_str(" was expected");
            write_found(out, bytes, offset, spot.bytes);
        }
        None => {
            out.write_str("the object program ends there");
            write_found(out, bytes, offset, 1);
        }
    }
}

/// Returns the diagnostic for bytes that aren't an object program: the code's sentence, what was expected at the offset, and what is there;
/// for a source, that it must be compiled first.
pub fn bytes_diagnostic<'a>(
    alloc: Global,
    file: FileName<'a>,
    bytes: &[u8],
    offset: usize,
    code: Code,
) -> Result<Diagnostic<'a>, AllocError> {
    let topic = topic_of(code.text()).unwrap_or(Topic::Bytes(1));
    let at = At::Offset(offset as u64);
    let mut draft = Draft::new(alloc, Level::Error, Some(Place { file, at }), Some(topic));
    draft.message.write_str(topic.sentence());
    if matches!(code, Code::NoObject) && begins_source(bytes) {
        draft.message.write_str(SOURCE);
    } else {
        write_spot(&mut draft.message, bytes, offset);
    }
    draft.finish()
}

/// A row of a table. The header has no number.
#[derive(Clone, Copy)]
pub(crate) struct TableRow {
    pub table: &'static str,
    pub number: Option<usize>,
}

/// A part of a row: its name, and how many bytes it has.
#[derive(Clone, Copy)]
pub(crate) struct Spot {
    pub name: &'static str,
    pub bytes: usize,
    pub row: TableRow,
}

fn row_of(table: &'static str, number: usize) -> TableRow {
    let number = Some(number);
    TableRow { table, number }
}

/// The bytes, the offset to find, how far the tables have been walked, and the part at the offset. Once it is found, nothing is passed, and
/// all numbers are 0, so that the walk ends.
#[derive(Clone, Copy)]
struct Walk<'a> {
    bytes: &'a [u8],
    offset: usize,
    at: usize,
    found: Option<Spot>,
}

impl Walk<'_> {
    /// Returns the two-byte number at a place; 0 if a byte is missing.
    fn number(&self, place: usize) -> usize {
        let high = self.bytes.get(place);
        match (high, self.bytes.get(place.saturating_add(1))) {
            (Some(high), Some(low)) if self.found.is_none() => {
                usize::from(*high) * 256 + usize::from(*low)
            }
            _ => 0,
        }
    }

    /// Returns a two-byte number of a row, given where the row begins.
    fn number_in(&self, row: usize, place: usize) -> usize {
        self.number(row.saturating_add(place))
    }

    /// Returns the version in the bytes; 1 if that isn't supported.
    fn version(&self) -> Version {
        match self.number(6) {
            2 => Version::Two,
            3 => Version::Three,
            _ => Version::One,
        }
    }

    /// Passes a part of a row, or stops in it.
    fn pass(&mut self, name: &'static str, bytes: usize, row: TableRow) {
        let end = self.at.saturating_add(bytes);
        if self.offset < end {
            self.found = Some(Spot { name, bytes, row });
        } else {
            self.at = end;
        }
    }

    fn pass_equal(&mut self, count: usize, name: &'static str, bytes: usize, row: TableRow) {
        for _ in 0..count {
            if self.found.is_none() {
                self.pass(name, bytes, row);
            }
        }
    }

    /// Passes the parts of a row: a line for each, with its bytes and its name. A part that comes several times has how often before an `x`.
    fn pass_parts(&mut self, parts: &'static str, row: TableRow) {
        for part in parts.lines() {
            if let (None, Some((size, name))) = (self.found, part.split_once(' ')) {
                let (count, bytes) = size.split_once('x').unwrap_or(("1", size));
                let (count, bytes) = (count.parse().unwrap_or(1), bytes.parse().unwrap_or(1));
                self.pass_equal(count, name, bytes, row);
            }
        }
    }

    fn pass_all(&mut self, count: usize, parts: &'static str, row: TableRow) {
        for _ in 0..count {
            self.pass_parts(parts, row);
        }
    }

    /// Passes `count` rows of a table, numbered from `first`. Returns the number after them.
    fn pass_rows(
        &mut self,
        table: &'static str,
        first: usize,
        count: usize,
        parts: &'static str,
    ) -> usize {
        let end = first.saturating_add(count);
        for number in first..end {
            self.pass_parts(parts, row_of(table, number));
        }
        end
    }

    fn pass_header(&mut self) {
        let header = TableRow {
            table: "header",
            number: None,
        };
        self.pass_parts(HEADER, header);
        let end = match self.version() {
            Version::One => HEADER_END,
            Version::Two => HEADER_END_2,
            Version::Three => HEADER_END_3,
        };
        self.pass_parts(end, header);
    }

    /// Passes the first values of all fields, given where the rows of the fields begin.
    fn pass_values(&mut self, fields: usize) {
        let mut row = fields;
        for field in 1..=self.number(18) {
            let length = self.number_in(row, 2);
            let entries = self.number_in(row, 6);
            self.pass_equal(entries, "a first value", length, row_of("field", field));
            row = row.saturating_add(8);
        }
    }

    /// Passes the record types. Version 1 has no match fields.
    fn pass_types(&mut self) {
        for number in 0..self.number(20) {
            let row = row_of("record type", number);
            let begin = self.at;
            let (parts, matches) = if self.version().has_secondary() {
                (TYPE_2, self.number_in(begin, 8))
            } else {
                (TYPE, 0)
            };
            self.pass_parts(parts, row);
            self.pass_all(self.number_in(begin, 2), RECORD_CODE, row);
            self.pass_all(self.number_in(begin, 4), CONTROL_FIELD, row);
            self.pass_all(self.number_in(begin, 6), INPUT_FIELD, row);
            self.pass_all(matches, MATCH_FIELD, row);
        }
    }

    fn pass_alternatives(&mut self, count: usize, row: TableRow) {
        for _ in 0..count {
            let conditions = self.number_in(self.at, 0);
            self.pass_parts(ALTERNATIVE, row);
            self.pass_all(conditions, CONDITION, row);
        }
    }

    fn pass_lines(&mut self) {
        for number in 0..self.number(22) {
            let row = row_of("line", number);
            let begin = self.at;
            self.pass_parts(LINE, row);
            self.pass_alternatives(self.number_in(begin, 6), row);
            self.pass_all(self.number_in(begin, 8), LINE_FIELD, row);
        }
    }

    /// Passes instructions, which are numbered through all sections.
    fn pass_code(&mut self, count: usize, first: usize) -> usize {
        self.pass_rows("instruction", first, count, INSTRUCTION)
    }

    fn pass_calculations(&mut self) {
        let total = self.pass_code(self.number(24), 0);
        let mut first = self.pass_code(self.number(26), total);
        for number in 0..self.number(28) {
            let count = self.number_in(self.at, 2);
            self.pass_parts(SUBROUTINE, row_of("subroutine", number));
            first = self.pass_code(count, first);
        }
    }
}

/// Returns what was expected at an offset; None after the last table.
pub(crate) fn spot_at(bytes: &[u8], offset: usize) -> Option<Spot> {
    let mut walk = Walk {
        bytes,
        offset,
        at: 0,
        found: None,
    };
    walk.pass_header();
    let fields = walk.at;
    let _ = walk.pass_rows("field", 1, walk.number(18), FIELD);
    walk.pass_values(fields);
    walk.pass_types();
    walk.pass_lines();
    walk.pass_calculations();
    walk.found
}

/// The header without its last part.
const HEADER: &str = "6 the name RPGOBJ
2 version 1, 2 or 3
2 the allowance, 1 to 65,535,
2 the length of a record, 1 to 9,999,
2 the length of a printed line, 0 to 132,
2 the length of a disk record, 0 to 9,999,
2 the overflow indicator, 0 or 112 to 119,
2 the count of fields, at most 4,000,
2 the count of record types, at most 200,
2 the count of output lines, at most 1,000,
2 the count of detail instructions, at most 8,192,
2 the count of total instructions, at most 8,192 with those before,
2 the count of subroutines, at most 100,";

const HEADER_END: &str = "2 a number that is always 0";

const HEADER_END_2: &str = "2 the length of a secondary record, 0 to 9,999,";

const HEADER_END_3: &str = "2 the length of a secondary record, 0 to 9,999,
2 the page length, 3 to 112,
2 the overflow line, 1 to the page length,
2 the file that ends the job, 0 to 2, and 0 without a secondary file,";

const FIELD: &str = "1 the kind, 1 or 2,
1 the class, 0 to 4,
2 the length
1 the decimals
1 the sequence
2 the entries";

/// The head of a record type in version 1.
const TYPE: &str = "1 the indicator, 0 to 129,
1 a number that is always 0
2 the count of record codes, at most 100,
2 the count of control fields, at most 100,
2 the count of input fields, at most 500,";

/// The head of a record type in versions 2 and 3.
const TYPE_2: &str = "1 the indicator, 0 to 129,
1 the file, 0 or 1,
2 the count of record codes, at most 100,
2 the count of control fields, at most 100,
2 the count of input fields, at most 500,
2 the count of match fields, at most 9,";

const RECORD_CODE: &str = "2 a code's position
1 a code's negation, 0 or 1,
1 a code's character";

const CONTROL_FIELD: &str = "1 a control field's level, 1 to 9,
1 a control field's kind, 0 or 1,
2x2 a control field's column";

const MATCH_FIELD: &str = "1 a match field's level, 1 to 9,
1 a match field's kind, 0 or 1,
2x2 a match field's column";

const INPUT_FIELD: &str = "2x2 an input field's column
2 an input field's number
3x1 an input field's indicator, 0 to 129,
1 a number that is always 0";

const LINE: &str = "1 the file, 1 or 2,
1 the time, 1 to 4,
4x1 a space or a skip
2 the count of alternatives, 1 to 50,
2 the count of fields, at most 200,
2 a number that is always 0";

const ALTERNATIVE: &str = "2 the count of an alternative's conditions, at most 60,";

const CONDITION: &str = "2x1 a condition of an alternative";

const LINE_FIELD: &str = "1 a field's kind, 1 or 2,
1 a field's editing
1 a field's fill
1 a field's blank after, 0 or 1,
2 a field's number
2 a field's index
2 a field's edit word
2 a field's end
3x1 a field's condition, 0 to 129,
1 a field's negations, 0 to 7,";

const INSTRUCTION: &str = "1 the operation, 1 to 19,
1 half adjust, 0 or 1,
2x2 factor 1
2x2 factor 2
2x2 the result
3x1 an indicator, 0 to 129,
2 the target
1 the negations, 0 to 7,";

const SUBROUTINE: &str = "2 the level
2 the count of instructions";
