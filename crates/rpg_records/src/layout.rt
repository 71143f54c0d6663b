//! The layout of a file's records.

ghost use Rattle.std.specs.Prelude.{◌≡◌, ◌+◌, ◌-◌, ◌*◌, ◌≤◌, IsTrue};
ghost use Rattle.rpg_records.specs.Fields.{digit_count, is_field_size, is_same_form};

use crate::column::Column;

/// The format of a number's bytes.
#[derive(Clone, Copy)]
pub enum NumberForm {
    Packed,
    Binary,
}

impl NumberForm {
    /// Whether a field may have this size: 1 to 8 bytes if packed, 2 or 4 if binary.
    pub fn allows(self, bytes: u16) -> bool
        ensures { result ≡ is_field_size self bytes }
    {
        match self {
            NumberForm::Packed => 1 <= bytes && bytes <= 8,
            NumberForm::Binary => bytes == 2 || bytes == 4,
        }
    }

    /// Returns how many digits a field of this size has.
    pub fn digit_count(self, bytes: usize) -> usize
        requires low { 1 ≤ bytes }
        requires high { bytes ≤ 65535 }
        ensures value { result ≡ digit_count self bytes }
        ensures few { result ≤ 2 * bytes + 9 }
    {
        match self {
            NumberForm::Packed => bytes * 2 - 1,
            NumberForm::Binary if bytes == 2 => 4,
            NumberForm::Binary => 9,
        }
    }

    /// Whether both are packed, or both binary.
    pub fn is_same(self, other: NumberForm) -> bool
        ensures { result ≡ is_same_form self other }
    {
        match (self, other) {
            (NumberForm::Packed, NumberForm::Packed) => true,
            (NumberForm::Binary, NumberForm::Binary) => true,
            _ => false,
        }
    }
}

/// A packed or binary field. Columns are counted from 1.
#[derive(Clone, Copy)]
pub struct NumberField {
    /// Its card.
    pub card: u16,
    pub first: u16,
    pub last: u16,
    pub form: NumberForm,
    /// How many digits its number has in a line: all that its bytes have, or fewer.
    pub digits: usize,
    ghost from_one: { 1 ≤ first },
    ghost ordered: { first ≤ last },
    ghost size: { IsTrue (is_field_size form (last + 1 - first)) },
    ghost some: { 1 ≤ digits },
    ghost few: { digits ≤ digit_count form (last + 1 - first) },
}

impl NumberField {
    ghost use Rattle.rpg_records.specs.Sizes.{field_digits, field_size};

    /// Returns its size in bytes, 1 to 8.
    pub fn size(&self) -> usize
        ensures value { result ≡ field_size self.now }
        ensures low { 1 ≤ result }
        ensures high { result ≤ 8 }
    {
        usize::from(self.last - self.first) + 1
    }

    /// Returns how many digits its number has, 1 to 15.
    pub fn digit_count(&self) -> usize
        ensures value { result ≡ field_digits self.now }
        ensures low { 1 ≤ result }
        ensures high { result ≤ 15 }
    {
        self.digits
    }
}

/// A character that a place of a record, counted from 0, must have or, if negated, must not have.
#[derive(Clone, Copy)]
pub struct Code {
    pub place: usize,
    pub is_negated: bool,
    pub character: u8,
}

/// A record type: its card, its codes, the contents of its columns, and its packed and binary fields.
#[derive(Drop)]
pub struct RecordType {
    pub card: u16,
    pub codes: Vec<Code>,
    pub columns: Vec<Column>,
    pub numbers: Vec<NumberField>,
}

impl RecordType {
    ghost use Rattle.rpg_records.specs.Sizes.{digits_after};

    /// Returns how many digits follow the record's columns.
    pub fn digit_count(&self) -> usize
        ensures { result ≡ digits_after self.now }
    {
        let mut digits = 0usize;
        for field in self.numbers.as_slice() {
            digits = digits.saturating_add(field.digit_count());
        }
        digits
    }
}

/// The layout of a file's records.
#[derive(Drop)]
pub struct Layout {
    /// The card that describes the file.
    pub card: u16,
    /// The length of a record in bytes, 1 to 9,999.
    pub length: u16,
    /// The types. A record belongs to the first one all of whose codes hold.
    pub types: Vec<RecordType>,
}

impl Layout {
    ghost use Rattle.rpg_records.specs.Sizes.{longest_line};

    /// Returns how many columns the longest line has.
    pub fn columns(&self) -> usize
        ensures { result ≡ longest_line self.now }
    {
        let mut most = 0;
        for kind in self.types.as_slice() {
            most = most.max(kind.digit_count());
        }
        most.saturating_add(usize::from(self.length))
    }
}
