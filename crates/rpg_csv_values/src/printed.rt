//! The numbers that a job writes into the columns of its disk file.

ghost use Rattle.std.specs.Prelude.{◌≡◌, ◌^◌, ◌≤◌, ◌<◌, ◌+◌, length, true, unsigned_abs, IfSome};
ghost use Rattle.rpg_edit_marks.specs.Code.{code_marks, coded};

use crate::column::{add_number, columns_number};
use crate::number::without_blanks;
use rpg_edit::write_coded;
use rpg_edit_marks::{EditCode, Fill};
use rpg_edit_widths::{How, width};
use rpg_text::is_blank;
use std::alloc::AllocError;

/// The most columns of a number with an edit code.
const MOST_COLUMNS: usize = 32;

/// How a job writes a number.
#[derive(Clone, Copy)]
pub enum Printing {
    /// Its digits, with the sign over the last one.
    Digits,
    Code { code: EditCode, fill: Fill },
    /// By an edit word, or as a date: its cell has the text.
    Text,
}

/// A number that a job writes.
#[derive(Clone, Copy)]
pub struct Printed {
    pub printing: Printing,
    pub digits: u8,
    pub decimals: u8,
    /// Whether it is written under conditions.
    pub is_conditional: bool,
}

/// Returns the number of the digits in these columns, if it has at most fifteen.
fn digits_in(columns: &[u8]) -> Option<i64>
    ensures { IfSome result (λ number. unsigned_abs number < 10 ^ 15) }
{
    let mut size = 0u64;
    for byte in columns {
        if byte.is_ascii_digit() {
            size = size
                .saturating_mul(10)
                .saturating_add(u64::from(*byte - b'0'));
        }
    }
    if size < 1_000_000_000_000_000 {
        Some(size as i64)
    } else {
        None
    }
}

impl Printed {
    /// Whether a code writes a number as these columns.
    fn writes(self, code: EditCode, fill: Fill, number: i64, columns: &[u8]) -> bool
        ensures { result ≡ true → coded number self.digits self.decimals code fill ≡ columns.now }
    {
        let (digits, decimals) = (self.digits, self.decimals);
        if digits == 0 || digits > 15 || decimals > digits {
            return false;
        }
        let mut text = [b' '; MOST_COLUMNS];
        if width(digits, decimals, &How::Code { code, fill }) > MOST_COLUMNS {
            return false;
        }
        let start = write_coded(number, digits, decimals, code, fill, &mut text);
        &text[start..] == columns
    }

    /// Returns the number that a code writes as these columns.
    fn number_by(self, code: EditCode, fill: Fill, columns: &[u8]) -> Option<i64>
        ensures text { IfSome result (λ number. coded number self.digits self.decimals code fill ≡ columns.now) }
        ensures few { IfSome result (λ number. unsigned_abs number < 10 ^ 15) }
    {
        let size = digits_in(columns)?;
        if self.writes(code, fill, size, columns) {
            Some(size)
        } else if self.writes(code, fill, -size, columns) {
            Some(-size)
        } else {
            None
        }
    }

    /// Returns the number that is written as these columns.
    fn number_in(self, columns: &[u8]) -> Option<i64>
        ensures few { IfSome result (λ number. unsigned_abs number < 10 ^ 15) }
    {
        match self.printing {
            Printing::Code { code, fill } => self.number_by(code, fill, columns),
            _ if columns.contains(&b' ') => None,
            _ => columns_number(columns),
        }
    }

    /// Appends the content of the cell that these columns have. Returns whether they have one.
    pub fn add_content(
        self,
        point: u8,
        columns: &[u8],
        out: &mut Vec<u8>,
    ) -> Result<bool, AllocError> {
        if self.is_conditional && is_blank(columns) {
            return Ok(true);
        }
        if let Printing::Text = self.printing {
            out.extend_from_slice(without_blanks(columns))?;
            return Ok(true);
        }
        match self.number_in(columns) {
            Some(number) => {
                add_number(number, self.decimals, point, out)?;
                Ok(true)
            }
            None => Ok(false),
        }
    }
}
