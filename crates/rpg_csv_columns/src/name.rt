//! Names of fields, and texts for diagnostics.

/// The most bytes of a field's name: six letters, and an index in parentheses.
const MOST_NAME: usize = 12;

/// The most bytes of a text for a diagnostic: thirty-one characters of any size.
const MOST_SAMPLE: usize = 124;

/// The name of a field, as in the first row: an entry of an array has its index in parentheses, and the position of a code is `*20`.
#[derive(Clone, Copy, PartialEq, Eq)]
pub struct FieldName {
    bytes: [u8; 12],
    len: u8,
}

impl FieldName {
    /// Keeps the first twelve bytes.
    pub fn new(text: &[u8]) -> Self {
        let mut name = FieldName {
            bytes: [0; 12],
            len: 0,
        };
        for byte in text {
            name = name.with(*byte);
        }
        name
    }

    /// Returns the name with one more byte, if it has room.
    fn with(self, byte: u8) -> Self {
        let FieldName { mut bytes, len } = self;
        if usize::from(len) < MOST_NAME {
            bytes[usize::from(len)] = byte;
            return FieldName {
                bytes,
                len: len + 1,
            };
        }
        self
    }

    /// Returns the name that a text spells, in upper or lower case. One that is too long is no field's.
    pub(crate) fn upper(text: &[u8]) -> Self {
        let mut name = FieldName::new(b"");
        if text.len() <= MOST_NAME {
            for byte in text {
                name = name.with(byte.to_ascii_uppercase());
            }
        }
        name
    }

    /// Returns the name of an entry of this array.
    pub fn entry(self, index: u16) -> Self {
        self.with(b'(').with_number(index).with(b')')
    }

    /// Returns the name of the entry whose index a field has.
    pub fn entry_of(self, index: &[u8]) -> Self {
        let mut name = self.with(b'(');
        for byte in index {
            name = name.with(*byte);
        }
        name.with(b')')
    }

    /// Returns the name of a code's position.
    pub(crate) fn of_position(position: usize) -> Self {
        FieldName::new(b"*").with_number(u16::try_from(position).unwrap_or(0))
    }

    /// Returns the name with a number after it.
    fn with_number(self, number: u16) -> Self {
        let digits = [
            b'0' + (number / 10_000) as u8,
            b'0' + (number / 1_000 % 10) as u8,
            b'0' + (number / 100 % 10) as u8,
            b'0' + (number / 10 % 10) as u8,
            b'0' + (number % 10) as u8,
        ];
        let mut name = self;
        let mut is_begun = false;
        for (place, digit) in digits.iter().enumerate() {
            is_begun = is_begun || *digit != b'0' || place == 4;
            if is_begun {
                name = name.with(*digit);
            }
        }
        name
    }

    pub fn as_slice(&self) -> &[u8] {
        self.bytes.get(..usize::from(self.len)).unwrap_or(&[])
    }
}

/// What a column is: a field or the position of a code, or nothing, if it has no name or the arguments leave it out.
#[derive(Clone, Copy, PartialEq, Eq)]
pub enum Label {
    Named(FieldName),
    Unnamed,
    LeftOut,
}

impl Label {
    /// Returns its name, which may be empty.
    pub fn name(self) -> FieldName {
        match self {
            Label::Named(name) => name,
            Label::Unnamed | Label::LeftOut => FieldName::new(b""),
        }
    }
}

/// The beginning of a text that a diagnostic shows.
#[derive(Clone, Copy)]
pub struct Sample {
    bytes: [u8; 124],
    len: usize,
}

impl Sample {
    pub fn new(text: &[u8]) -> Self {
        let mut bytes = [0; 124];
        let len = text.len().min(MOST_SAMPLE);
        bytes[..len].copy_from_slice(&text[..len]);
        Sample { bytes, len }
    }

    pub fn as_slice(&self) -> &[u8] {
        self.bytes.get(..self.len).unwrap_or(&[])
    }
}
