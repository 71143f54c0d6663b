//! Rows of a reader's input.

ghost use Rattle.std.specs.Prelude.{◌≡◌, ◌^◌, ◌-◌, ◌+◌, ◌<◌, ◌≤◌, ◌++◌, false, length, take, true, vec_len, [], drop, Err, IfOk, OnOk, IfErr};
ghost use Rattle.std.specs.Io.BufRead.{ends_with_byte, strip_last};
ghost use Rattle.rpg_files.specs.Counting.{faults_of};
ghost use Rattle.rpg_csv_rows.specs.declared.input.RowInputFault.TheVariants.{Device, NoMemory};
ghost use Rattle.rpg_csv_rows.specs.Rows.{ends_row, is_open_through, row_text, row_through};

use crate::cells::is_open_after;
use rpg_files::{Counted, DeviceFault};
use std::alloc::{AllocError, Global};
use std::io::Read;

/// The room for each read, in bytes.
const READ_ROOM: usize = 65_536;

/// The most bytes of a row, without its line end.
const MOST_BYTES: usize = 1_048_576;

/// The room for a row: its most bytes, a line end, and one more byte.
const ROW_ROOM: usize = MOST_BYTES + 3;

/// Why no more rows can be read.
#[derive(Clone, Copy, PartialEq, Eq)]
pub enum RowInputFault {
    Device,
    NoMemory,
}

impl From<AllocError> for RowInputFault {
    ghost use Rattle.rpg_csv_rows.specs.declared.input.RowInputFault.TheVariants.{NoMemory};

    ghost from_gives = { λ _ e. e ≡ NoMemory };

    fn from(_: AllocError) -> Self {
        RowInputFault::NoMemory
    }
}

impl From<DeviceFault> for RowInputFault {
    ghost use Rattle.rpg_csv_rows.specs.declared.input.RowInputFault.TheVariants.{Device};

    ghost from_gives = { λ _ e. e ≡ Device };

    fn from(_: DeviceFault) -> Self {
        RowInputFault::Device
    }
}

/// The first part of a row, and whether the row ends with it or a quotation mark is open after it.
#[derive(Clone, Copy)]
struct RowPart<'a> {
    bytes: &'a [u8],
    is_ended: bool,
    is_open: bool,
    /// How many line feeds it has.
    line_feeds: u64,
}

/// Returns the bytes of the first row, or all bytes, given whether a quotation mark is open before them.
fn row_part(bytes: &[u8], was_open: bool) -> RowPart<'_>
    ensures bytes { result.bytes.now ≡ row_through was_open bytes.now }
    ensures ended { result.is_ended ≡ ends_row was_open bytes.now }
    ensures open { result.is_ended ≡ false → result.is_open ≡ is_open_through was_open bytes.now }
{
    let mut is_open = was_open;
    let mut line_feeds = 0u64;
    for (place, byte) in bytes.iter().enumerate() {
        if *byte > b'"' {
            continue;
        }
        if *byte == b'\n' {
            line_feeds = line_feeds.saturating_add(1);
            if !is_open {
                return RowPart {
                    bytes: &bytes[..place + 1],
                    is_ended: true,
                    is_open,
                    line_feeds,
                };
            }
        }
        is_open = is_open_after(is_open, *byte);
    }
    RowPart {
        bytes,
        is_ended: false,
        is_open,
        line_feeds,
    }
}

/// Whether a row ends with what was appended of it, or a quotation mark is open after that.
#[derive(Clone, Copy)]
struct PartEnd {
    is_ended: bool,
    is_open: bool,
}

/// A row without its line end.
#[derive(Clone, Copy)]
pub struct WholeRow<'a> {
    pub text: &'a [u8],
    /// Whether it was cut, as it has more than 1,048,576 bytes.
    pub is_long: bool,
}

/// Whether a byte is the last one.
fn ends_with(bytes: &[u8], byte: u8) -> bool
    ensures { result ≡ ends_with_byte byte bytes.now }
{
    !bytes.is_empty() && bytes[bytes.len() - 1] == byte
}

/// Returns bytes without the last one, if it is this byte.
fn without_last(bytes: &[u8], byte: u8) -> &[u8]
    ensures { result.now ≡ strip_last byte bytes.now }
{
    if ends_with(bytes, byte) {
        &bytes[..bytes.len() - 1]
    } else {
        bytes
    }
}

/// Returns the bytes of a row without its line feed, and a carriage return before that.
fn row_text(bytes: &[u8]) -> &[u8]
    ensures { result.now ≡ row_text bytes.now }
{
    if ends_with(bytes, b'\n') {
        without_last(without_last(bytes, b'\n'), b'\r')
    } else {
        bytes
    }
}

/// Returns the bytes of a row without its line feed, and a carriage return before that; at most 1,048,576.
pub fn whole_row(bytes: &[u8]) -> WholeRow<'_>
    ensures text { result.text.now ≡ take 1048576 (row_text bytes.now) }
    ensures long { result.is_long ≡ true → 1048576 < length (row_text bytes.now) }
    ensures short { result.is_long ≡ false → length (row_text bytes.now) ≤ 1048576 }
{
    let text = row_text(bytes);
    let is_long = text.len() > MOST_BYTES;
    WholeRow {
        text: front(text, MOST_BYTES),
        is_long,
    }
}

/// Returns the bytes through the first line feed, or all bytes.
fn line_part(bytes: &[u8]) -> &[u8]
    ensures within { length result.now ≤ length bytes.now }
{
    for (place, byte) in bytes.iter().enumerate() {
        if *byte == b'\n' {
            return &bytes[..place + 1];
        }
    }
    bytes
}

/// The bytes of a reader that were read but not yet returned: `buf[start..end]`.
#[derive(Drop)]
pub struct RowInput {
    buf: Vec<u8>,
    start: usize,
    end: usize,
    /// How many line feeds the last row has.
    line_feeds: u64,
    ghost ordered: { start ≤ end },
    ghost in_bounds: { end ≤ vec_len buf },
    ghost room: { 0 < vec_len buf },
}

/// Returns the first bytes, at most `most`.
fn front(bytes: &[u8], most: usize) -> &[u8]
    ensures { result.now ≡ take most bytes.now }
{
    &bytes[..most.min(bytes.len())]
}

impl RowInput {
    ghost use Rattle.std.specs.Io.KnownBytes.{IsAtEnd, Keeps};
    ghost use Rattle.rpg_csv_rows.specs.Inputs.{GivesRow, left_in, remaining_in};

    /// Nothing was read yet.
    pub fn new(alloc: Global) -> Result<Self, AllocError>
        ensures { IfOk result (λ input. left_in input ≡ []) }
    {
        let buf = vec![in alloc; 0; READ_ROOM]?;
        Ok(RowInput {
            buf,
            start: 0,
            end: 0,
            line_feeds: 0,
        })
    }

    /// Returns how many line feeds the row has that was read last.
    pub fn line_feeds(&self) -> u64 {
        self.line_feeds
    }

    fn bytes(&self) -> &[u8]
        ensures { result.now ≡ left_in self.now }
    {
        let all = self.buf.as_slice();
        &all[self.start..self.end]
    }

    /// Reads if no bytes are left. Returns whether there are any now; there are none at the end of the input.
    #[tactic(auto, using(crate::proofs::InputLemmas::filled, crate::proofs::InputLemmas::filled_end, crate::proofs::InputLemmas::unchanged))]
    fn fill<R: Read>(&mut self, reader: &mut Counted<R>) -> Result<bool, DeviceFault>
        requires { faults_of reader.old < 2 ^ 64 - 1 }
        ensures kept { OnOk result (Keeps (remaining_in R.remaining reader.old self.old) (remaining_in R.remaining reader.new self.new)) }
        ensures some { IfOk result (λ are_any. are_any ≡ true → 0 < length (left_in self.new)) }
        ensures end { IfOk result (λ are_any. are_any ≡ false → IsAtEnd (remaining_in R.remaining reader.new self.new)) }
        ensures faults { OnOk result (faults_of reader.new ≡ faults_of reader.old) }
        ensures fault { IfErr result (λ _. faults_of reader.new ≡ faults_of reader.old + 1) }
    {
        if self.start < self.end {
            return Ok(true);
        }
        let n = reader.read(self.buf.as_mut_slice())?;
        self.start = 0;
        self.end = n;
        Ok(n > 0)
    }

    #[tactic(auto, using(crate::proofs::InputLemmas::left_after_more))]
    fn consume(&mut self, n: usize)
        requires { n ≤ length (left_in self.old) }
        ensures { left_in self.new ≡ drop n (left_in self.old) }
    {
        self.start += n;
    }

    /// Appends the first row of the bytes that are left, at most `most` of them, given whether a quotation mark is open before.
    #[tactic(auto, using(crate::proofs::InputLemmas::part_shorter))]
    fn append_part(
        &mut self,
        most: usize,
        was_open: bool,
        row: &mut Vec<u8>,
    ) -> Result<PartEnd, AllocError>
        ensures appended { OnOk result (row.new.items ≡ row.old.items ++ row_through was_open (take most (left_in self.old))) }
        ensures left { OnOk result (left_in self.new ≡ drop (length (row_through was_open (take most (left_in self.old)))) (left_in self.old)) }
        ensures ended { IfOk result (λ end. end.is_ended ≡ ends_row was_open (take most (left_in self.old))) }
        ensures open { IfOk result (λ end. end.is_ended ≡ false → end.is_open ≡ is_open_through was_open (take most (left_in self.old))) }
    {
        let part = row_part(front(self.bytes(), most), was_open);
        row.extend_from_slice(part.bytes)?;
        let (n, line_feeds) = (part.bytes.len(), part.line_feeds);
        let end = PartEnd {
            is_ended: part.is_ended,
            is_open: part.is_open,
        };
        self.consume(n);
        self.line_feeds = self.line_feeds.saturating_add(line_feeds);
        Ok(end)
    }

    /// Appends a line of the bytes that are left, at most `most` of them. Returns whether it ended.
    fn append_line(&mut self, most: usize, line: &mut Vec<u8>) -> Result<bool, AllocError> {
        let piece = line_part(front(self.bytes(), most));
        line.extend_from_slice(piece)?;
        let (n, is_ended) = (piece.len(), ends_with(piece, b'\n'));
        self.consume(n);
        Ok(is_ended)
    }

    /// Reads the first line, which replaces the bytes there: with its line feed, if it has one; none at the end of the input. A line of more
    /// than `most` bytes is cut.
    pub fn read_line<R: Read>(
        &mut self,
        reader: &mut Counted<R>,
        most: usize,
        line: &mut Vec<u8>,
    ) -> Result<(), RowInputFault>
        requires { faults_of reader.old < 2 ^ 64 - 1 }
        ensures faults { OnOk result (faults_of reader.new ≡ faults_of reader.old) }
        ensures device { result ≡ Err Device → faults_of reader.new ≡ faults_of reader.old + 1 }
        ensures memory { result ≡ Err NoMemory → faults_of reader.new ≡ faults_of reader.old }
    {
        line.clear();
        for _ in 0..most {
            if line.len() >= most || !self.fill(reader)? {
                break;
            }
            if self.append_line(most - line.len(), line)? {
                break;
            }
        }
        Ok(())
    }

    /// Reads the first row, which replaces the bytes there: with its line end, if it has one; none at the end of the input. A row that is
    /// too long is cut.
    #[tactic(auto, using(crate::proofs::InputLemmas::row_start, crate::proofs::InputLemmas::row_ended, crate::proofs::InputLemmas::row_full))]
    pub fn read_row<R: Read>(
        &mut self,
        reader: &mut Counted<R>,
        row: &mut Vec<u8>,
    ) -> Result<(), RowInputFault>
        requires { faults_of reader.old < 2 ^ 64 - 1 }
        ensures row { OnOk result (GivesRow 1048579 (remaining_in R.remaining reader.old self.old) (remaining_in R.remaining reader.new self.new) row.new.items) }
        ensures faults { OnOk result (faults_of reader.new ≡ faults_of reader.old) }
        ensures device { result ≡ Err Device → faults_of reader.new ≡ faults_of reader.old + 1 }
        ensures memory { result ≡ Err NoMemory → faults_of reader.new ≡ faults_of reader.old }
    {
        row.clear();
        self.line_feeds = 0;
        let mut is_open = false;
        while row.len() < ROW_ROOM {
            if !self.fill(reader)? {
                return Ok(());
            }
            let end = self.append_part(ROW_ROOM - row.len(), is_open, row)?;
            if end.is_ended {
                return Ok(());
            }
            is_open = end.is_open;
        }
        Ok(())
    }
}
