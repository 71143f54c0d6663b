//! The cells of a row.

ghost use Rattle.std.specs.Prelude.{◌≡◌, ◌+◌, ◌++◌, ◌≤◌, false, length, map, slice_range, take, true, None, Some, Ok, Err, IfErr, IfOk, OnOk};
ghost use Rattle.std.specs.List.{list_any};
ghost use Rattle.rpg_csv_rows.specs.Cells.{cell_fault, checked_row, content_at, content_of, is_mark, is_open_after, plain_fault, quoted_fault, raw_cells, raw_end, undoubled};
ghost use Rattle.rpg_csv_rows.specs.declared.cells.RowFault.{RowFault};
ghost use Rattle.rpg_csv_rows.specs.declared.cells.SplitFault.TheVariants.{Row};

use std::alloc::AllocError;

/// What is wrong with a cell.
#[derive(Clone, Copy, PartialEq, Eq)]
pub enum CellFault {
    /// It has a quotation mark and doesn't begin with one.
    StrayMark,
    /// It goes on after its closing quotation mark.
    AfterMark,
    /// Its quotation mark isn't closed.
    OpenMark,
    /// A carriage return isn't followed by a line feed.
    LoneReturn,
}

/// The first bad cell of a row, from 1, and what is wrong with it.
#[derive(Clone, Copy, PartialEq, Eq)]
pub struct RowFault {
    pub cell: usize,
    pub fault: CellFault,
}

/// Where the content of a cell is in its row: between its quotation marks, or the whole cell. It may have quotation marks, two for each one.
#[derive(Clone, Copy)]
pub struct CellPlace {
    pub start: usize,
    pub end: usize,
    pub has_marks: bool,
}

/// Why a row isn't cut into cells.
#[derive(Clone, Copy, PartialEq, Eq)]
pub enum SplitFault {
    Row(RowFault),
    NoMemory,
}

/// Whether a quotation mark is open after a byte, given whether one is before it.
#[inline(always)]
pub(crate) fn is_open_after(is_open: bool, byte: u8) -> bool
    ensures { result ≡ is_open_after is_open byte }
{
    if byte == b'"' { !is_open } else { is_open }
}

/// Returns the length of a row's first cell, which doesn't begin with a quotation mark, or what is wrong with it.
fn plain_end(text: &[u8], delimiter: u8) -> Result<usize, CellFault>
    ensures end { IfOk result (λ n. n ≡ raw_end delimiter false text.now) }
    ensures strict { IfOk result (λ n. plain_fault (take n text.now) ≡ None) }
    ensures fault { IfErr result (λ fault. plain_fault (take (raw_end delimiter false text.now) text.now) ≡ Some fault) }
{
    for (place, byte) in text.iter().enumerate() {
        if *byte == delimiter {
            return Ok(place);
        }
        if *byte == b'"' {
            return Err(CellFault::StrayMark);
        }
        if *byte == b'\r' {
            return Err(CellFault::LoneReturn);
        }
    }
    Ok(text.len())
}

/// Returns the length of a row's first cell after its opening quotation mark, or what is wrong with it.
fn quoted_end(text: &[u8], delimiter: u8) -> Result<usize, CellFault>
    ensures end { IfOk result (λ n. n ≡ raw_end delimiter true text.now) }
    ensures strict { IfOk result (λ n. quoted_fault false (take n text.now) ≡ None) }
    ensures fault { IfErr result (λ fault. quoted_fault false (take (raw_end delimiter true text.now) text.now) ≡ Some fault) }
{
    let mut is_closed = false;
    for (place, byte) in text.iter().enumerate() {
        if is_closed {
            if *byte == delimiter {
                return Ok(place);
            }
            if *byte != b'"' {
                return Err(CellFault::AfterMark);
            }
            is_closed = false;
        } else if *byte == b'"' {
            is_closed = true;
        }
    }
    if is_closed {
        Ok(text.len())
    } else {
        Err(CellFault::OpenMark)
    }
}

/// Returns the length of a row's first cell, or what is wrong with it.
#[tactic(auto, using(crate::proofs::CellLemmas::end_within))]
fn cell_end(text: &[u8], delimiter: u8) -> Result<usize, CellFault>
    ensures end { IfOk result (λ n. n ≡ raw_end delimiter false text.now) }
    ensures within { IfOk result (λ n. n ≤ length text.now) }
    ensures strict { IfOk result (λ n. cell_fault (take n text.now) ≡ None) }
    ensures fault { IfErr result (λ fault. cell_fault (take (raw_end delimiter false text.now) text.now) ≡ Some fault) }
{
    match text {
        [b'"', rest @ ..] if delimiter != b'"' => match quoted_end(rest, delimiter) {
            Ok(end) => Ok(end + 1),
            Err(fault) => Err(fault),
        },
        _ => plain_end(text, delimiter),
    }
}

/// Whether a text has a quotation mark.
fn has_mark(text: &[u8]) -> bool
    ensures { result ≡ list_any is_mark text.now }
{
    for byte in text {
        if *byte == b'"' {
            return true;
        }
    }
    false
}

/// Returns where the content of a cell is: in a row from `start` up to `end`.
#[tactic(auto, using(crate::proofs::CellLemmas::plain_place, crate::proofs::CellLemmas::quoted_place))]
fn place_of(row: &[u8], start: usize, end: usize) -> CellPlace
    requires ordered { start ≤ end }
    requires within { end ≤ length row.now }
    ensures { content_at row.now result ≡ content_of (slice_range row.now start end) }
{
    if start < end && row[start] == b'"' && end - start > 1 {
        return CellPlace {
            start: start + 1,
            end: end - 1,
            has_marks: has_mark(&row[start + 1..end - 1]),
        };
    }
    CellPlace {
        start,
        end,
        has_marks: false,
    }
}

/// Replaces `cells` by the places of a row's cells.
///
/// # Errors
///
/// The first cell that is bad.
pub fn split_row(row: &[u8], delimiter: u8, cells: &mut Vec<CellPlace>) -> Result<(), SplitFault>
    ensures contents { OnOk result (map (content_at row.now) cells.new.items ≡ map content_of (raw_cells delimiter false row.now)) }
    ensures strict { OnOk result (checked_row 0 (raw_cells delimiter false row.now) ≡ Ok (length cells.new.items)) }
    ensures fault { (fault : RowFault) → result ≡ Err (Row fault) → checked_row 0 (raw_cells delimiter false row.now) ≡ Err fault }
{
    cells.clear();
    let mut start = 0;
    while start <= row.len() {
        let end = match cell_end(&row[start..], delimiter) {
            Ok(length) => start + length,
            Err(fault) => {
                let cell = cells.len() + 1;
                return Err(SplitFault::Row(RowFault { cell, fault }));
            }
        };
        if cells.push(place_of(row, start, end)).is_err() {
            return Err(SplitFault::NoMemory);
        }
        start = end + 1;
    }
    Ok(())
}

/// Appends the content of a cell with quotation marks, one for each two.
pub fn add_undoubled(bytes: &[u8], out: &mut Vec<u8>) -> Result<(), AllocError>
    ensures { OnOk result (out.new.items ≡ out.old.items ++ undoubled false bytes.now) }
{
    let mut is_second = false;
    for byte in bytes {
        let is_mark = *byte == b'"';
        if is_second && is_mark {
            is_second = false;
        } else {
            out.push(*byte)?;
            is_second = is_mark;
        }
    }
    Ok(())
}
