//! Cells and rows as they are written.

ghost use Rattle.std.specs.Prelude.{◌≡◌, ◌++◌, OnOk};
ghost use Rattle.std.specs.List.{list_any};
ghost use Rattle.rpg_csv_rows.specs.Quoting.{CellsAreReadBack, doubled, is_special, written_cell};

use std::alloc::AllocError;

/// How cells are separated, and whether an empty one is quoted, as the only one of a row is.
#[derive(Clone, Copy)]
pub struct Quoting {
    pub delimiter: u8,
    pub quotes_empty: bool,
}

/// Whether a cell with this byte is quoted.
fn is_special(delimiter: u8, byte: u8) -> bool
    ensures { result ≡ is_special delimiter byte }
{
    byte == delimiter || byte == b'"' || byte == b'\r' || byte == b'\n'
}

/// Whether a cell is quoted for one of its bytes.
fn has_special(delimiter: u8, cell: &[u8]) -> bool
    ensures { result ≡ list_any (is_special delimiter) cell.now }
{
    for byte in cell {
        if is_special(delimiter, *byte) {
            return true;
        }
    }
    false
}

/// Appends a text, each quotation mark twice.
fn add_doubled(cell: &[u8], out: &mut Vec<u8>) -> Result<(), AllocError>
    ensures { OnOk result (out.new.items ≡ out.old.items ++ doubled cell.now) }
{
    for byte in cell {
        out.push(*byte)?;
        if *byte == b'"' {
            out.push(b'"')?;
        }
    }
    Ok(())
}

/// Appends a cell, in quotation marks where it needs them.
pub fn add_cell(quoting: Quoting, cell: &[u8], out: &mut Vec<u8>) -> Result<(), AllocError>
    ensures { OnOk result (out.new.items ≡ out.old.items ++ written_cell quoting cell.now) }
{
    if !has_special(quoting.delimiter, cell) && !(quoting.quotes_empty && cell.is_empty()) {
        return out.extend_from_slice(cell);
    }
    out.push(b'"')?;
    add_doubled(cell, out)?;
    out.push(b'"')?;
    Ok(())
}

/// A law of the definitions: cells that are written are read back. Does nothing.
pub fn cells_are_read_back()
    ensures { CellsAreReadBack }
{}
