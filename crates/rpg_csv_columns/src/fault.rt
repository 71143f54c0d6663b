//! Why a deck, a row or a line is rejected.

use crate::name::{FieldName, Label, Sample};
use rpg_csv_rows::RowFault;
use rpg_csv_values::CellFault;
use std::alloc::{AllocError, AllocFailed};

/// What is wrong with a cell.
#[derive(Clone, Copy)]
pub enum TextFault {
    /// It doesn't fit its columns of the line.
    Columns(CellFault),
    /// It is filled, and its column has no name.
    Unnamed,
    /// It is filled, and the type of this card has no such field.
    OtherType { card: u16 },
    NotUtf8 { byte: u8 },
    Foreign { character: char },
}

/// The columns of a card in a line, from 1.
#[derive(Clone, Copy)]
pub struct CardColumns {
    pub card: u16,
    pub first: usize,
    pub last: usize,
}

/// Why a conversion ends early. Columns are counted from 1.
#[derive(Clone, Copy)]
pub enum Fault {
    /// A card's field has the name of an earlier one, of the type that begins with `card`.
    Twice {
        name: FieldName,
        card: u16,
    },
    /// The columns of an array aren't as many of one width.
    Parts {
        name: FieldName,
        entries: u16,
        columns: usize,
    },
    /// A number has more than 15 digits.
    LongNumber,
    /// A card's field has the name of an earlier one, of the line that begins with `card`.
    TwiceInLine {
        name: FieldName,
        card: u16,
    },
    /// No constant tells the line of a card from that of this one.
    Alike {
        card: u16,
    },
    /// Two cards of a line fill these columns.
    Overlapping {
        first: usize,
        last: usize,
        one: u16,
        other: u16,
    },
    /// An O card has a packed or binary field.
    Packed,
    /// There is no row.
    NoRow,
    /// The input begins with these bytes: it is UTF-16.
    Utf16([u8; 2]),
    /// A column of the header is no field.
    NoField {
        column: usize,
    },
    /// Two columns have one name.
    Both {
        first: usize,
        second: usize,
        name: FieldName,
    },
    /// A field has no column.
    NoColumn {
        name: FieldName,
        card: u16,
    },
    /// The position of a code has no column, and there are several types.
    NoCode {
        name: FieldName,
        card: u16,
        types: usize,
    },
    /// The arguments name another number of columns.
    Named {
        columns: usize,
        named: usize,
    },
    Row(RowFault),
    /// A row has more than 1,048,576 bytes.
    LongRow,
    EmptyRow,
    /// A row has another number of cells.
    Cells {
        cells: usize,
        columns: usize,
    },
    Cell {
        column: usize,
        label: Label,
        fault: TextFault,
    },
    NoType,
    /// Two columns of the row put different characters into a column of the record.
    Shared {
        column: usize,
        first: FieldName,
        stands: u8,
        second: FieldName,
        wants: u8,
    },
    TooMany,
    /// A byte of a line isn't a character.
    NoCharacter {
        column: usize,
        byte: u8,
    },
    /// A line has more columns than a record.
    LongLine {
        columns: usize,
        most: usize,
    },
    /// The columns of a number aren't one.
    NoNumber(CardColumns),
    /// An edit code doesn't write this.
    NotPrinted {
        at: CardColumns,
        code: u8,
    },
    /// The columns of a constant have something else.
    NoConstant(CardColumns),
    /// A column is filled that no card of the line fills.
    Stray {
        column: usize,
        byte: u8,
        card: u16,
    },
    Read,
    Write,
    NoMemory,
}

/// What is rejected. Rows are numbered from 1 without the header, lines of the input from 1.
#[derive(Clone, Copy, PartialEq, Eq)]
pub enum Part {
    /// The card of a field.
    Card(u16),
    Header,
    Row { number: u64, line: u64 },
    Line(u64),
}

/// What is rejected, and why.
#[derive(Clone, Copy)]
pub struct Refusal {
    pub part: Part,
    pub fault: Fault,
    /// The text that the fault is about.
    pub text: Sample,
}

impl Refusal {
    /// A fault that is about no text.
    pub fn new(part: Part, fault: Fault) -> Self {
        let text = Sample::new(b"");
        Refusal { part, fault, text }
    }
}

impl From<AllocError> for Refusal {
    fn from(_: AllocError) -> Self {
        Refusal::new(Part::Header, Fault::NoMemory)
    }
}

impl<T: Drop> From<AllocFailed<T>> for Refusal {
    fn from(_: AllocFailed<T>) -> Self {
        Refusal::from(AllocError)
    }
}

impl Fault {
    /// The fault of a cell. Columns are counted from 0 here.
    pub fn cell(column: usize, label: Label, fault: TextFault) -> Self {
        Fault::Cell {
            column: column.saturating_add(1),
            label,
            fault,
        }
    }
}

impl From<AllocError> for Fault {
    fn from(_: AllocError) -> Self {
        Fault::NoMemory
    }
}

impl<T: Drop> From<AllocFailed<T>> for Fault {
    fn from(_: AllocFailed<T>) -> Self {
        Fault::NoMemory
    }
}
