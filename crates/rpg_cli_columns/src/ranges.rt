//! The kinds of cards, and the ranges of their columns, in the order of the columns: names and allowed contents. Columns outside all ranges
//! are blank. Patterns for the contents of columns.
//!
//! A line of a sheet has the first and the last column, a letter for its allowed contents, and the name of the range; without a letter the allowed
//! contents follow the name.

use rpg_cli_text::TextWriter;
use rpg_sheet::ColumnFault;
use rpg_text::{is_blank, trimmed};

/// A card, by the names of its columns.
#[derive(Clone, Copy)]
pub(crate) enum CardKind {
    Header,
    File,
    Extension,
    /// An E card without an alternating table.
    ExtensionAlone,
    Form,
    RecordType,
    RecordCodes,
    InputField,
    Calculation,
    Line,
    LineConditions,
    OutputField,
    Unknown,
}

fn columns(line: &[u8], first: usize, last: usize) -> &[u8] {
    line.get(first.saturating_sub(1)..last.min(line.len()))
        .unwrap_or(&[])
}

/// Whether a word begins in column 14, with blanks before it from column 7 on.
fn begins_with(line: &[u8], word: &[u8]) -> bool {
    is_blank(columns(line, 7, 13)) && columns(line, 14, word.len().saturating_add(13)) == word
}

fn input_kind(line: &[u8]) -> CardKind {
    if begins_with(line, b"AND") {
        CardKind::RecordCodes
    } else if is_blank(columns(line, 7, 16)) {
        CardKind::InputField
    } else {
        CardKind::RecordType
    }
}

fn output_kind(line: &[u8]) -> CardKind {
    if begins_with(line, b"AND") || begins_with(line, b"OR") {
        CardKind::LineConditions
    } else if is_blank(columns(line, 7, 16)) {
        CardKind::OutputField
    } else {
        CardKind::Line
    }
}

impl CardKind {
    pub fn of(line: &[u8]) -> Self {
        match line.get(5) {
            Some(b'H') => CardKind::Header,
            Some(b'F') => CardKind::File,
            Some(b'E') if is_blank(columns(line, 46, 51)) => CardKind::ExtensionAlone,
            Some(b'E') => CardKind::Extension,
            Some(b'L') => CardKind::Form,
            Some(b'I') => input_kind(line),
            Some(b'C') => CardKind::Calculation,
            Some(b'O') => output_kind(line),
            _ => CardKind::Unknown,
        }
    }
}

const FILE: &str = "07-14 N the file name
15-15 : the file type: I for input or O for output
16-16 : the designation: P or S with I in column 15, blank with O
17-17 : the end of file: E or blank
18-18 : the sequence: A or blank
19-19 : the file format: F, records of one length
24-27 # the record length
33-34 : the overflow indicator: OA to OG or OV with O in column 15, or blank
39-39 : the extension code: L on the printer's card, or blank";

const EXTENSION: &str = "27-32 N the table's name
33-35 B the entries a card
36-39 # the number of entries
40-42 # the length of an entry
44-44 D the decimals
45-45 : the sequence: A or blank";

/// The ranges of an alternating table.
const ALTERNATING: &str = "46-51 N the second table's name
52-54 # the length of its entries
56-56 D the decimals of its entries
57-57 : the sequence of its entries: A or blank";

const FORM: &str = "07-14 N the file name
15-17 : the page length: 3 to 112 lines, right-aligned
18-19 : the form length code: FL
20-22 : the overflow line: 1 to 112, right-aligned
23-24 : the overflow line code: OL";

const RECORD_TYPE: &str = "07-14 N the file name
15-16 : the sequence: two letters
19-20 I the record identifying indicator";

const AND_CARD: &str = "21-41 : the record codes: an AND card has one at least";

const RECORD_CODES: &str = "21-27 R the first record code
28-34 R the second record code
35-41 R the third record code";

const INPUT_FIELD: &str = "44-47 # the first column
48-51 # the last column
52-52 D the decimals
53-58 N the field name
59-60 : the control level: L1 to L9, or blank
61-62 : the match level: M1 to M9, or blank
65-66 I the plus indicator
67-68 I the minus indicator
69-70 I the zero or blank indicator";

const CALCULATION: &str = "07-08 : the control level: L0 to L9, LR, SR, AN or OR, or blank
09-11 C the first condition
12-14 C the second condition
15-17 C the third condition
18-27 F factor 1
28-32 : the operation: it is one of ADD, SUB, MULT, DIV, MVR, Z-ADD, Z-SUB, XFOOT, MOVE, MOVEL, COMP, LOKUP, SETON, SETOF, GOTO, TAG, EXSR, BEGSR, ENDSR, EXCPT
33-42 F factor 2
43-48 E the result field
49-51 B the length
52-52 D the decimals
53-53 : half adjust: H or blank
54-55 I the plus or high indicator
56-57 I the minus or low indicator
58-59 I the zero or equal indicator";

const LINE: &str = "07-14 N the file name
15-15 : the type of the line: H, D, T or E
17-17 : the space before: 0 to 3, or blank
18-18 : the space after: 0 to 3, or blank
19-20 : the skip before: 01 to 99, A0 to A9 for 100 to 109, B0 to B2 for 110 to 112, or blank
21-22 : the skip after: 01 to 99, A0 to A9 for 100 to 109, B0 to B2 for 110 to 112, or blank";

/// The ranges that output cards of all kinds have.
const CONDITIONS: &str = "23-25 C the first condition
26-28 C the second condition
29-31 C the third condition";

const OUTPUT_FIELD: &str = "32-37 E the field name
38-38 : the edit code: 1 to 4, A to D, J to M, X, Y or Z, or blank
39-39 : blank after: B or blank
40-43 # the end position
45-70 : the constant or edit word: a text between apostrophes from the first column on, or blank";

/// Returns the letter of a kind of card in the table of features, and the ranges of its columns in two parts, one a line.
pub(crate) fn sheet_of(kind: CardKind) -> (u8, [&'static str; 2]) {
    match kind {
        CardKind::Header => (b'H', ["", ""]),
        CardKind::File => (b'F', [FILE, ""]),
        CardKind::Extension => (b'E', [EXTENSION, ALTERNATING]),
        CardKind::ExtensionAlone => (b'E', [EXTENSION, ""]),
        CardKind::Form => (b'L', [FORM, ""]),
        CardKind::RecordType => (b'T', [RECORD_TYPE, RECORD_CODES]),
        CardKind::RecordCodes => (b'T', [AND_CARD, RECORD_CODES]),
        CardKind::InputField => (b'I', [INPUT_FIELD, ""]),
        CardKind::Calculation => (b'C', [CALCULATION, ""]),
        CardKind::Line => (b'O', [LINE, CONDITIONS]),
        CardKind::LineConditions => (b'A', [CONDITIONS, ""]),
        CardKind::OutputField => (b'D', [CONDITIONS, OUTPUT_FIELD]),
        CardKind::Unknown => (b'?', ["", ""]),
    }
}

/// The allowed contents of ranges, after their letters.
const CONTENTS: &str =
    "N a name begins in the first column with a letter, $, # or @, and has only these and digits in it
# only digits, right-aligned
B only digits, right-aligned, or blank
D a digit, or blank
I an indicator is 01 to 99, L0 to L9, LR, MR, 1P, OA to OG, OV or H1 to H9, or the columns are blank
C a condition is blank or N and then an indicator (01 to 99, L0 to L9, LR, MR, 1P, OA to OG, OV, H1 to H9), or the columns are blank
F a name with its index if it has one, a number, or a text between apostrophes, from the first column on
E a name, with a comma and its index if it has one, from the first column on
R a position that ends in the fourth column, N or blank, C, and the character, or the columns are blank";

/// Returns the allowed contents of a range, by its letter.
fn sentence_of(letter: u8) -> &'static str {
    for line in CONTENTS.lines() {
        if line.as_bytes().first() == Some(&letter) {
            return line.get(2..).unwrap_or("");
        }
    }
    ""
}

/// Returns the character in a column of a card, counted from 1: a blank after the line's end.
pub fn character_at(line: &[u8], column: usize) -> u8 {
    line.get(column.saturating_sub(1)).copied().unwrap_or(b' ')
}

/// Returns the text in columns of a card, without the blanks after it.
pub fn text_in(line: &[u8], columns: ColumnFault) -> &[u8] {
    let before = usize::from(columns.column.saturating_sub(1));
    let after = line.len().min(columns.last.into());
    trimmed(line.get(before..after).unwrap_or(&[]))
}

pub(crate) fn write_columns(out: &mut TextWriter, line: &[u8], first: usize, last: usize) {
    for column in first..=last {
        out.write_shown(&[character_at(line, column)]);
    }
}

fn number_at(text: &[u8], column: usize) -> u8 {
    let tens = character_at(text, column).saturating_sub(b'0').min(9);
    let ones = character_at(text, column.saturating_add(1))
        .saturating_sub(b'0')
        .min(9);
    tens * 10 + ones
}

/// Returns the columns at a column of a table's line, as `07-14`.
pub(crate) fn columns_at(text: &[u8], column: usize) -> ColumnFault {
    ColumnFault {
        column: number_at(text, column),
        last: number_at(text, column.saturating_add(3)),
    }
}

/// Whether a character matches one of a pattern.
fn stands_for(wanted: u8, found: u8) -> bool {
    match wanted {
        b'.' => true,
        b'_' => found == b' ',
        b'#' => found.is_ascii_digit(),
        b'&' => found.is_ascii_uppercase(),
        _ => wanted == found,
    }
}

/// Whether a card matches a pattern from a column on. In a pattern `.` is any character, `_` a blank, `#` a digit, `&` a capital letter,
/// and any other itself.
pub(crate) fn is_at(line: &[u8], column: usize, pattern: &[u8]) -> bool {
    let mut wanted = pattern.iter().enumerate();
    wanted.all(|(place, byte)| stands_for(*byte, character_at(line, column.saturating_add(place))))
}

/// A range of columns of a card, its name, and its allowed contents.
#[derive(Clone, Copy)]
pub(crate) struct Range {
    pub columns: ColumnFault,
    pub name: &'static str,
    pub wanted: &'static str,
}

/// Which range of a card to find. Columns are counted from 1.
#[derive(Clone, Copy)]
pub(crate) enum WantedRange {
    Columns(ColumnFault),
    From(usize),
    Around(usize),
    /// The name that ends right before a column.
    NameBefore(u8),
}

/// Returns the letter for the allowed contents of a line's range.
fn letter_in(row: &str) -> u8 {
    character_at(row.as_bytes(), 7)
}

fn range_in(row: &'static str) -> Range {
    let text = row.get(8..).unwrap_or("");
    let (name, wanted) = match text.split_once(": ") {
        Some(parts) => parts,
        None => (text, sentence_of(letter_in(row))),
    };
    Range {
        columns: columns_at(row.as_bytes(), 1),
        name,
        wanted,
    }
}

fn is_wanted(row: &str, which: WantedRange) -> bool {
    let ColumnFault { column, last } = columns_at(row.as_bytes(), 1);
    match which {
        WantedRange::Columns(columns) => column == columns.column && last == columns.last,
        WantedRange::From(first) => usize::from(column) == first,
        WantedRange::Around(inner) => usize::from(column) <= inner && inner <= usize::from(last),
        WantedRange::NameBefore(next) => {
            last.saturating_add(1) == next && matches!(letter_in(row), b'N' | b'E')
        }
    }
}

fn range_among(ranges: &'static str, which: WantedRange) -> Option<Range> {
    let row = ranges.lines().find(|row| is_wanted(row, which))?;
    Some(range_in(row))
}

pub(crate) fn range_of(kind: CardKind, which: WantedRange) -> Option<Range> {
    let (_, [first, second]) = sheet_of(kind);
    range_among(first, which).or(range_among(second, which))
}

/// Whether a range of a card's sheet begins in a column, which is counted from 1.
pub fn begins_range(line: &[u8], column: usize) -> bool {
    range_of(CardKind::of(line), WantedRange::From(column)).is_some()
}
