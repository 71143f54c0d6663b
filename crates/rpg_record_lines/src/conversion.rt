//! Converts all records of an input to lines, and all lines to records.

ghost use Rattle.std.specs.Prelude.{◌≡◌, ◌+◌, ◌<◌, ◌≤◌, List, IfOk, IfSome};
ghost use Rattle.rpg_record_lines.specs.Conversions.{EndsFull, HasConverted, counts_after, conversion_fault, frame_stop, line_stop};
ghost use Rattle.rpg_record_lines.specs.Inputs.{framing_of, most_of, offset_of, remaining_of};
ghost use Rattle.rpg_record_lines.specs.Texts.{EndsAfter, WritesNext, WritesTexts};
ghost use Rattle.rpg_record_lines.specs.Ways.{HasConvertedFrames, Steps, input_place_at, text_by, to_lines, to_records, way_by};

use crate::fault::{LineFault, RecordFault};
use crate::frames::{FrameFault, Frames, Framing, Next};
use crate::input::InputFault;
use crate::line::Converter;
use crate::maker::{Maker, Making, Room};
use crate::sending::send;
use rpg_records::{Layout, Page};
use std::alloc::{AllocError, Global};
use std::io::{Read, Write};

/// The most records of a file.
const MOST_RECORDS: u64 = 10_000_000;

/// The format of records in their file.
#[derive(Clone, Copy)]
pub struct RecordFormat {
    pub page: Page,
    pub framing: Framing,
    /// Whether a byte 0 is a blank.
    pub low_blank: bool,
    /// The first byte of records that are left out.
    pub dropped: Option<u8>,
}

/// How many records were written, and how many were left out.
#[derive(Clone, Copy)]
pub struct Counts {
    pub records: u64,
    pub dropped: u64,
}

impl Counts {
    ghost use Rattle.std.specs.Prelude.{Some, None, ℕ};

    /// Returns the number of the next record, from 1.
    fn next_number(&self) -> u64
        requires { self.now.records + self.now.dropped ≤ 10000000 }
        ensures { result ≡ self.now.records + self.now.dropped + 1 }
    {
        self.records + self.dropped + 1
    }

    /// Counts one more that is left out.
    fn with_dropped(self) -> Self
        requires { self.records + self.dropped ≤ 10000000 }
        ensures { result ≡ counts_after self None }
    {
        Counts {
            records: self.records,
            dropped: self.dropped + 1,
        }
    }

    /// Counts one more that is written.
    fn with_written(self) -> Self
        requires { self.records + self.dropped ≤ 10000000 }
        ensures { (text : List ℕ) → result ≡ counts_after self (Some text) }
    {
        Counts {
            records: self.records + 1,
            dropped: self.dropped,
        }
    }
}

/// Why a conversion ended early.
#[derive(Clone, Copy)]
pub enum ConversionFault {
    /// A record or a line is rejected. Records are numbered from 1, bytes of the input from 0.
    Record {
        number: u64,
        offset: u64,
        fault: RecordFault,
    },
    /// The reader failed.
    Read,
    /// The writer failed.
    Write,
    NoMemory,
}

impl From<AllocError> for ConversionFault {
    ghost use Rattle.std.specs.Prelude.{◌≡◌};
    ghost use Rattle.rpg_record_lines.specs.declared.conversion.ConversionFault.TheVariants.{NoMemory};

    ghost from_gives = { λ _ e. e ≡ NoMemory };

    fn from(_: AllocError) -> Self {
        ConversionFault::NoMemory
    }
}

fn refused(counts: Counts, offset: u64, fault: RecordFault) -> ConversionFault
    requires { counts.records + counts.dropped ≤ 10000000 }
    ensures { result ≡ conversion_fault (record { counts = counts; offset = offset }) fault }
{
    ConversionFault::Record {
        number: counts.next_number(),
        offset,
        fault,
    }
}

fn frame_fault(counts: Counts, offset: u64, fault: FrameFault) -> ConversionFault
    requires { counts.records + counts.dropped ≤ 10000000 }
    ensures { result ≡ frame_stop (record { counts = counts; offset = offset }) fault }
{
    match fault {
        FrameFault::Input(InputFault::Device) => ConversionFault::Read,
        FrameFault::Input(InputFault::NoMemory) => ConversionFault::NoMemory,
        FrameFault::Record(fault) => refused(counts, offset, fault),
    }
}

fn line_fault(counts: Counts, offset: u64, fault: LineFault) -> ConversionFault
    requires { counts.records + counts.dropped ≤ 10000000 }
    ensures { result ≡ line_stop (record { counts = counts; offset = offset }) fault }
{
    match fault {
        LineFault::NoMemory => ConversionFault::NoMemory,
        LineFault::Record(fault) => refused(counts, offset, fault),
    }
}

/// Converts and writes the next record. Returns the new counts, or None at the end.
#[tactic(auto, using(crate::proofs::StepLemmas::taken_end, crate::proofs::StepLemmas::fault_taken, crate::proofs::StepLemmas::refused_taken, crate::proofs::StepLemmas::dropped_taken, crate::proofs::StepLemmas::taken_part, crate::proofs::StepLemmas::text_taken))]
fn convert_next<R: Read + Drop, W: Write>(
    maker: &Maker<'_>,
    frames: &mut Frames<R>,
    room: &mut Room,
    counts: Counts,
    writer: &mut W,
) -> Result<Option<Counts>, ConversionFault>
    requires { counts.records + counts.dropped < 10000000 }
    ensures framing { framing_of frames.new ≡ framing_of frames.old }
    ensures most { most_of frames.new ≡ most_of frames.old }
    ensures counts { IfOk result (λ more. IfSome more (λ more. more.records + more.dropped ≡ counts.records + counts.dropped + 1)) }
    ensures step { Steps R.remaining maker.now counts frames.old frames.new (W.contents writer.old) (W.contents writer.new) result }
    ensures text { WritesNext (text_by maker.now) (W.contents writer.old) (W.contents writer.new) counts result }
{
    let offset = frames.position();
    match frames.next(&mut room.given) {
        Ok(Next::Record) => {}
        Ok(Next::End) => return Ok(None),
        Err(fault) => return Err(frame_fault(counts, offset, fault)),
    }
    match maker.make(room) {
        Ok(true) => {}
        Ok(false) => return Ok(Some(counts.with_dropped())),
        Err(fault) => return Err(line_fault(counts, offset, fault)),
    }
    match send(writer, room.made.as_slice()) {
        Ok(()) => Ok(Some(counts.with_written())),
        Err(_) => Err(ConversionFault::Write),
    }
}

/// Ends a file that has as many records as allowed: another one is a fault.
#[tactic(auto, using(crate::proofs::StepLemmas::last_end, crate::proofs::StepLemmas::full_record, crate::proofs::StepLemmas::full_fault))]
fn end_full_file<R: Read + Drop>(
    frames: &mut Frames<R>,
    room: &mut Room,
    counts: Counts,
) -> Result<Counts, ConversionFault>
    requires { counts.records + counts.dropped ≤ 10000000 }
    ensures known { EndsFull (framing_of frames.old) (most_of frames.old) (input_place_at counts frames.old) (remaining_of R.remaining frames.old) result }
    ensures any { EndsAfter counts result }
{
    let offset = frames.position();
    match frames.next(&mut room.given) {
        Ok(Next::End) => Ok(counts),
        Ok(Next::Record) => Err(refused(counts, offset, RecordFault::TooMany)),
        Err(fault) => Err(frame_fault(counts, offset, fault)),
    }
}

/// Converts and writes all records.
#[tactic(auto, using(crate::proofs::StepLemmas::reached_start, crate::proofs::StepLemmas::reached_next, crate::proofs::StepLemmas::reached_last, crate::proofs::StepLemmas::reached_stop, crate::proofs::StepLemmas::reached_all, crate::proofs::TextLemmas::none_written, crate::proofs::TextLemmas::one_written, crate::proofs::TextLemmas::ended_all))]
fn convert_all<R: Read + Drop, W: Write>(
    maker: &Maker<'_>,
    frames: &mut Frames<R>,
    room: &mut Room,
    writer: &mut W,
) -> Result<Counts, ConversionFault>
    requires { offset_of frames.old ≡ 0 }
    ensures known { HasConvertedFrames R.remaining maker.now frames.old (W.contents writer.old) (W.contents writer.new) result }
    ensures any { WritesTexts (text_by maker.now) (W.contents writer.old) (W.contents writer.new) result }
{
    let mut counts = Counts {
        records: 0,
        dropped: 0,
    };
    while counts.next_number() <= MOST_RECORDS {
        match convert_next(maker, frames, room, counts, writer)? {
            Some(more) => counts = more,
            None => return Ok(counts),
        }
    }
    end_full_file(frames, room, counts)
}

/// Converts all records of a reader, each of at most `most` bytes.
#[tactic(auto, using(crate::proofs::StepLemmas::unread, crate::proofs::TextLemmas::unwritten))]
fn convert<R: Read + Drop, W: Write>(
    alloc: Global,
    maker: &Maker<'_>,
    framing: Framing,
    most: usize,
    reader: R,
    writer: &mut W,
) -> Result<Counts, ConversionFault>
    ensures known { HasConverted (way_by framing most maker.now) (R.remaining reader) (W.contents writer.old) (W.contents writer.new) result }
    ensures any { WritesTexts (text_by maker.now) (W.contents writer.old) (W.contents writer.new) result }
{
    let mut room = Room {
        given: Vec::new(alloc),
        bytes: Vec::new(alloc),
        made: Vec::new(alloc),
    };
    let mut frames = Frames::new(alloc, reader, framing, most)?;
    convert_all(maker, &mut frames, &mut room, writer)
}

/// Writes a line for each record of a reader. Memory use doesn't grow with the number of records: it holds one record, one line and a piece
/// of the input.
pub fn records_to_lines<R: Read + Drop, W: Write>(
    alloc: Global,
    layout: &Layout,
    format: RecordFormat,
    reader: R,
    writer: &mut W,
) -> Result<Counts, ConversionFault>
    // However short the reads are, the output, the counts and the first rejected record are those of the definition.
    ensures known { HasConverted (to_lines layout.now format) (R.remaining reader) (W.contents writer.old) (W.contents writer.new) result }
    // With any reader, complete lines were written, each of which is that of some record.
    ensures any { WritesTexts (to_lines layout.now format).text_of (W.contents writer.old) (W.contents writer.new) result }
{
    let maker = Maker {
        converter: Converter::new(layout, format.page, format.low_blank),
        making: Making::Lines {
            dropped: format.dropped,
        },
    };
    let most = usize::from(layout.length);
    convert(alloc, &maker, format.framing, most, reader, writer)
}

/// Writes a record for each line of a reader.
pub fn lines_to_records<R: Read + Drop, W: Write>(
    alloc: Global,
    layout: &Layout,
    format: RecordFormat,
    reader: R,
    writer: &mut W,
) -> Result<Counts, ConversionFault>
    // However short the reads are, the output, the count and the first rejected line are those of the definition.
    ensures known { HasConverted (to_records layout.now format) (R.remaining reader) (W.contents writer.old) (W.contents writer.new) result }
    // With any reader, complete records were written, as in a file, each of which is that of some line.
    ensures any { WritesTexts (to_records layout.now format).text_of (W.contents writer.old) (W.contents writer.new) result }
{
    let maker = Maker {
        converter: Converter::new(layout, format.page, false),
        making: Making::Records {
            framing: format.framing,
        },
    };
    let most = layout.columns();
    convert(alloc, &maker, Framing::Lines, most, reader, writer)
}
