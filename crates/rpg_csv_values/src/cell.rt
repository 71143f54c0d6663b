//! The characters of cells.

ghost use Rattle.std.specs.Prelude.{◌≡◌, ◌≤◌, ◌<◌, length, Err, IfErr, Ok, OnOk};
ghost use Rattle.rpg_csv_values.specs.Cells.{cell_columns, number_columns, padded};

use crate::number::{NumberFormat, without_blanks};
use rpg_decimal::write_zoned;
use rpg_text::trimmed;

/// What a cell has.
#[derive(Clone, Copy, PartialEq, Eq)]
pub enum CellKind {
    /// The character at the position of a code.
    Code,
    Text,
    /// A number with so many decimals.
    Number(u8),
    /// A number that is packed or binary in the record.
    Digits(u8),
}

/// Why a cell doesn't fit its columns.
#[derive(Clone, Copy, PartialEq, Eq)]
pub enum CellFault {
    /// The cell of a code's position has several characters.
    LongCode,
    LongText { length: usize, width: usize },
    NoNumber,
    /// It has more decimals than the field, which has these.
    Decimals(u8),
    /// It has more digits before the decimals than the field, which has these.
    Digits(u8),
    /// It is empty, and a packed or binary field has no blank.
    Empty,
}

/// Fills columns with a text, and blanks after it.
fn fill(text: &[u8], columns: &mut [u8])
    requires { length text.now ≤ length columns.old }
    ensures { columns.new ≡ padded (length columns.old) text.now }
{
    let (front, rest) = columns.split_at_mut(text.len());
    front.copy_from_slice(text);
    rest.fill(b' ');
}

/// Writes the columns of a number: its digits, with the sign over the last one.
fn write_number(
    format: NumberFormat,
    decimals: u8,
    text: &[u8],
    columns: &mut [u8],
) -> Result<(), CellFault>
    ensures ok { OnOk result (number_columns format decimals (length columns.old) text.now ≡ Ok columns.new) }
    ensures fault { IfErr result (λ fault. number_columns format decimals (length columns.old) text.now ≡ Err fault) }
{
    let width = columns.len();
    if width == 0 || width > 15 || usize::from(decimals) > width {
        return Err(CellFault::Digits(0));
    }
    let number = format.cell_number(decimals, width as u8, text)?;
    write_zoned(number, columns);
    Ok(())
}

/// Writes the columns of a cell. A blank number is blanks.
pub fn write_cell(
    format: NumberFormat,
    kind: CellKind,
    cell: &[u8],
    columns: &mut [u8],
) -> Result<(), CellFault>
    requires { 1 ≤ length columns.old }
    ensures ok { OnOk result (cell_columns format kind (length columns.old) cell.now ≡ Ok columns.new) }
    ensures fault { IfErr result (λ fault. cell_columns format kind (length columns.old) cell.now ≡ Err fault) }
{
    match kind {
        CellKind::Code => {
            if cell.len() > 1 {
                return Err(CellFault::LongCode);
            }
            fill(cell, columns);
            Ok(())
        }
        CellKind::Text => {
            let text = trimmed(cell);
            if text.len() > columns.len() {
                return Err(CellFault::LongText {
                    length: text.len(),
                    width: columns.len(),
                });
            }
            fill(text, columns);
            Ok(())
        }
        CellKind::Number(decimals) => {
            let text = without_blanks(cell);
            if text.is_empty() {
                fill(&[], columns);
                return Ok(());
            }
            write_number(format, decimals, text, columns)
        }
        CellKind::Digits(decimals) => {
            let text = without_blanks(cell);
            if text.is_empty() {
                return Err(CellFault::Empty);
            }
            write_number(format, decimals, text, columns)
        }
    }
}
