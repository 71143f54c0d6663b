//! Why a record has no line, or a line has no record.

pub use rpg_records::NumberFault;
use std::alloc::AllocError;

/// The bytes of a field, or the characters of a line where it goes.
#[derive(Clone, Copy)]
pub struct FieldBytes {
    bytes: [u8; 15],
    len: usize,
}

impl FieldBytes {
    ghost use Rattle.std.specs.Prelude.{◌≡◌};
    ghost use Rattle.rpg_record_lines.specs.Numbers.{field_bytes};

    /// Keeps the first 15 bytes at most.
    pub(crate) fn new(given: &[u8]) -> Self
        ensures { result ≡ field_bytes given.now }
    {
        let len = given.len().min(15);
        let mut bytes = [0; 15];
        bytes[..len].copy_from_slice(&given[..len]);
        FieldBytes { bytes, len }
    }

    pub fn as_slice(&self) -> &[u8] {
        self.bytes.get(..self.len).unwrap_or(&[])
    }
}

/// What is wrong with a record or a line.
#[derive(Clone, Copy)]
pub enum RecordFault {
    /// The input ends inside it, after this many bytes.
    Cut {
        bytes: usize,
    },
    /// There is no record descriptor word.
    NoDescriptor {
        bytes: [u8; 4],
    },
    /// It has more bytes than the cards say.
    TooLong {
        bytes: usize,
    },
    /// The line is longer than it can be.
    LongLine {
        most: usize,
    },
    /// It belongs to no type.
    NoType,
    /// A byte isn't a character. Columns are counted from 1.
    NoCharacter {
        column: usize,
        byte: u8,
    },
    /// The bytes of a packed or binary field aren't a number, or one with too many digits.
    BadNumber {
        card: u16,
        first: u16,
        last: u16,
        bytes: FieldBytes,
        fault: NumberFault,
    },
    /// A record is of one card's type by its bytes, and of another card's or of none by its line.
    OtherLine {
        card: u16,
        other: Option<u16>,
    },
    /// A line is of one card's type by its columns, and of another card's or of none by its bytes.
    OtherRecord {
        card: u16,
        other: Option<u16>,
    },
    /// Digits of a line are blank, or aren't a number. Columns are counted from 1.
    BadDigits {
        card: u16,
        first: usize,
        last: usize,
        digits: FieldBytes,
    },
    /// A line has characters in the columns of a packed or binary field.
    Taken {
        card: u16,
        first: u16,
        last: u16,
        characters: FieldBytes,
    },
    /// A line has a character after its digits. Columns are counted from 1.
    NoPlace {
        column: usize,
        byte: u8,
    },
    /// It is record 10,000,001.
    TooMany,
}

/// Why a record has no line.
#[derive(Clone, Copy)]
pub enum LineFault {
    Record(RecordFault),
    NoMemory,
}

impl From<AllocError> for LineFault {
    ghost use Rattle.std.specs.Prelude.{◌≡◌};
    ghost use Rattle.rpg_record_lines.specs.declared.fault.LineFault.TheVariants.{NoMemory};

    ghost from_gives = { λ _ e. e ≡ NoMemory };

    fn from(_: AllocError) -> Self {
        LineFault::NoMemory
    }
}
