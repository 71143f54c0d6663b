//! Converts a record or a line to what is written for it.

ghost use Rattle.std.specs.Prelude.{◌≡◌, Some, None, Ok, IfErr, IfOk, OnOk, if◌then◌else◌};
ghost use Rattle.rpg_records.specs.Columns.{page_byte};
ghost use Rattle.rpg_record_lines.specs.Frames.{frame};
ghost use Rattle.rpg_record_lines.specs.Outcomes.{IsLineFaultOf};
ghost use Rattle.rpg_record_lines.specs.Ways.{is_dropped};

use crate::fault::LineFault;
use crate::frames::Framing;
use crate::line::Converter;
use crate::record::pad;
use std::alloc::AllocError;

/// The direction of a conversion.
#[derive(Clone, Copy)]
pub(crate) enum Making {
    /// Records to lines, except for those that begin with this byte.
    Lines { dropped: Option<u8> },
    /// Lines to records, delimited this way.
    Records { framing: Framing },
}

/// Converts records to lines, or lines to records.
#[derive(Drop)]
pub(crate) struct Maker<'a> {
    pub converter: Converter<'a>,
    pub making: Making,
}

/// Buffers for one record and one line, however many there are.
#[derive(Drop)]
pub(crate) struct Room {
    /// What was read.
    pub given: Vec<u8>,
    /// The record of a line.
    pub bytes: Vec<u8>,
    /// What is to be written.
    pub made: Vec<u8>,
}

/// Whether a record is to be left out.
fn is_dropped(dropped: Option<u8>, bytes: &[u8]) -> bool
    ensures { result ≡ is_dropped dropped bytes.now }
{
    match (dropped, bytes.first()) {
        (Some(byte), Some(first)) => *first == byte,
        _ => false,
    }
}

/// Writes a record with its delimiters.
fn put_in_frame(framing: Framing, bytes: &[u8], framed: &mut Vec<u8>) -> Result<(), AllocError>
    ensures { OnOk result (framed.new.items ≡ frame framing bytes.now) }
{
    framed.clear();
    match framing {
        Framing::EndToEnd => framed.extend_from_slice(bytes)?,
        Framing::Descriptors => {
            let whole = (bytes.len() % 65_536 + 4) % 65_536;
            framed.extend_from_slice(&[(whole / 256) as u8, (whole % 256) as u8, 0, 0])?;
            framed.extend_from_slice(bytes)?;
        }
        Framing::Lines => {
            framed.extend_from_slice(bytes)?;
            framed.push(b'\n')?;
        }
    }
    Ok(())
}

impl<'a> Maker<'a> {
    ghost use Rattle.rpg_record_lines.specs.Ways.{line_text_by, record_text_by, text_by};

    /// Converts a record to a line, with its line feed.
    fn make_line(&self, room: &mut Room) -> Result<(), LineFault>
        ensures text { OnOk result (line_text_by self.now.converter room.old.given.items ≡ Ok (Some room.new.made.items)) }
        ensures fault { IfErr result (IsLineFaultOf (line_text_by self.now.converter room.old.given.items)) }
    {
        let blank = self.converter.byte_of(b' ');
        pad(&mut room.given, self.converter.length(), blank)?;
        self.converter
            .write_line(room.given.as_slice(), &mut room.made)?;
        room.made.extend_from_slice(b"\n")?;
        Ok(())
    }

    /// Converts a line to a record, with its delimiters.
    fn make_record(&self, framing: Framing, room: &mut Room) -> Result<(), LineFault>
        ensures text { OnOk result (record_text_by framing self.now.converter room.old.given.items ≡ Ok (Some room.new.made.items)) }
        ensures fault { IfErr result (IsLineFaultOf (record_text_by framing self.now.converter room.old.given.items)) }
    {
        self.converter
            .write_record(&mut room.given, &mut room.bytes)?;
        put_in_frame(framing, room.bytes.as_slice(), &mut room.made)?;
        Ok(())
    }

    /// Converts what was read. Returns whether there is anything to write.
    pub fn make(&self, room: &mut Room) -> Result<bool, LineFault>
        ensures text { IfOk result (λ is_made. text_by self.now room.old.given.items ≡ Ok (if is_made then Some room.new.made.items else None)) }
        ensures fault { IfErr result (IsLineFaultOf (text_by self.now room.old.given.items)) }
    {
        match self.making {
            Making::Lines { dropped } => {
                if is_dropped(dropped, room.given.as_slice()) {
                    return Ok(false);
                }
                self.make_line(room)?;
            }
            Making::Records { framing } => self.make_record(framing, room)?,
        }
        Ok(true)
    }
}
