//! Puts columns of the next line after each line.

ghost use Rattle.std.specs.Prelude.{◌≡◌, ◌^◌, ◌-◌, ◌<◌, OnOk};
ghost use Rattle.rpg_files.specs.Counting.{faults_of};

use crate::fault::{MOST_RECORDS, MergeStop, send_line};
use crate::head::Head;
use crate::input::LineInput;
use rpg_files::Counted;
use std::alloc::{AllocError, Global};
use std::io::{Read, Write};

/// Columns of a record, and the length of records.
#[derive(Clone, Copy)]
pub struct AheadColumns {
    pub first: usize,
    pub last: usize,
    pub length: usize,
}

/// Appends the characters of columns: blanks after the end of a line, and nines after the last line.
fn push_columns(
    out: &mut Vec<u8>,
    line: Option<&[u8]>,
    first: usize,
    last: usize,
) -> Result<(), AllocError> {
    for place in first.saturating_sub(1)..last {
        let character = match line {
            Some(line) => line.get(place).copied().unwrap_or(b' '),
            None => b'9',
        };
        out.push(character)?;
    }
    Ok(())
}

/// Appends the line that is written for a line and the next one, if there is one.
fn push_line(
    out: &mut Vec<u8>,
    columns: AheadColumns,
    now: &[u8],
    next: &Head,
) -> Result<(), AllocError> {
    push_columns(out, Some(now), 1, columns.length)?;
    let following = if next.is_there {
        Some(next.text())
    } else {
        None
    };
    push_columns(out, following, columns.first, columns.last)?;
    out.push(b'\n')?;
    Ok(())
}

/// Writes each line, padded to the length of a record, with columns of the next one after it; nines after the last one. Returns how
/// many lines there are.
///
/// Memory is taken for two lines, however many there are.
pub fn put_ahead<R: Read + Drop, W: Write>(
    alloc: Global,
    columns: AheadColumns,
    reader: R,
    writer: &mut Counted<W>,
) -> Result<u64, MergeStop>
    requires { faults_of writer.old < 2 ^ 64 - 1 }
{
    let mut input = LineInput::new(alloc, reader)?;
    let (mut now, mut out) = (Vec::new(alloc), Vec::new(alloc));
    let mut next = Head::new(alloc);
    next.read(&mut input, 0, columns.length)?;
    for count in 0..=MOST_RECORDS {
        if !next.is_there {
            return Ok(count);
        }
        now.clear();
        now.extend_from_slice(next.text())?;
        next.read(&mut input, 0, columns.length)?;
        out.clear();
        push_line(&mut out, columns, now.as_slice(), &next)?;
        send_line(writer, out.as_slice())?;
    }
    Err(MergeStop::TooMany)
}
