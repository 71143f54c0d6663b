//! Records from a reader, one at a time.

ghost use Rattle.std.specs.Prelude.{◌≡◌, ◌+◌, ◌<◌, ◌≤◌, [], length};
ghost use Rattle.rpg_files.specs.Buffers.{capacity_of, left_in};
ghost use Rattle.rpg_files.specs.Records.{max_records};

use crate::buffer::Buffer;
use crate::counting::{Counted, DeviceFault, LastLine};
use crate::input::{NextLine, has_more, read_line};
use std::alloc::{AllocError, Global};
use std::io::Read;

/// The least room for each read, in bytes.
const READ_ROOM: usize = 65_536;

/// The most records of an input.
const MAX_RECORDS: u32 = 10_000_000;

/// The next record of an input, if any.
#[derive(Clone, Copy)]
pub enum Next {
    /// A record, which `record` returns until the next call.
    Record,
    /// A record that is longer than the limit, or has a byte that isn't a character.
    Bad,
    End,
}

/// Why reading an input stopped.
#[derive(Clone, Copy)]
pub enum ReadFault {
    /// The reader failed.
    Device,
    /// The input has more than 10,000,000 records.
    TooMany,
}

impl From<DeviceFault> for ReadFault {
    ghost use Rattle.rpg_files.specs.declared.reader.ReadFault.TheVariants.{Device};

    ghost from_gives = { λ _ e. e ≡ Device };

    fn from(_: DeviceFault) -> ReadFault {
        ReadFault::Device
    }
}

/// The memory for an input's records, however many there are.
#[derive(Drop)]
pub struct RecordRoom {
    buffer: Buffer,
    /// The most bytes of a record.
    limit: u16,
    ghost empty: { left_in buffer ≡ [] },
    ghost room: { limit + 1 < capacity_of buffer },
}

impl RecordRoom {
    ghost use Rattle.std.specs.Prelude.{IfOk};
    ghost use Rattle.rpg_files.specs.Reading.{room_limit};

    /// Room for records of at most `limit` bytes. If records have no bytes, nothing is read, and it takes almost none.
    pub fn new(alloc: Global, limit: u16) -> Result<RecordRoom, AllocError>
        ensures { IfOk result (λ room. room_limit room ≡ limit) }
    {
        let read_room = if limit == 0 { 1 } else { READ_ROOM };
        let buffer = Buffer::with_capacity(alloc, read_room + limit as usize + 1)?;
        Ok(RecordRoom { buffer, limit })
    }
}

/// The records of a reader's input.
#[derive(Drop)]
pub struct RecordReader<'a, R> {
    reader: &'a mut Counted<R>,
    buffer: Buffer,
    /// The length of the last record, at the start of the buffer.
    len: usize,
    /// Its length with its line end.
    line_len: usize,
    /// The most bytes of a record.
    limit: u16,
    is_ended: bool,
    /// How many records were returned.
    count: u32,
    answer: Result<Next, ReadFault>,
    ghost ordered: { len ≤ line_len },
    ghost within: { line_len ≤ length (left_in buffer) },
    ghost room: { limit + 1 < capacity_of buffer },
    ghost few: { count ≤ max_records },
}

impl<'a, R> RecordReader<'a, R> {
    ghost use Rattle.rpg_files.specs.Reading.{IsFresh, reader_of, record_of, room_limit};

    /// A reader of records into the given room.
    pub fn new(reader: &'a mut Counted<R>, room: RecordRoom) -> RecordReader<'a, R>
        ensures same_reader { result.reader.ghost_name ≡ reader.entry.ghost_name }
        ensures untouched { reader_of result ≡ reader.old }
        ensures fresh { IsFresh (room_limit room) result }
    {
        RecordReader {
            reader,
            buffer: room.buffer,
            len: 0,
            line_len: 0,
            limit: room.limit,
            is_ended: false,
            count: 0,
            answer: Ok(Next::Record),
        }
    }

    /// Returns the reader itself, after all that was read from it.
    pub fn into_reader(self) -> &'a mut Counted<R>
        ensures same_reader { result.ghost_name ≡ self.entry.reader.ghost_name }
        ensures now { result.now ≡ reader_of self.entry }
    {
        self.reader
    }

    /// Returns the last record.
    pub fn record(&self) -> &[u8]
        ensures { result.now ≡ record_of self.now }
    {
        &self.buffer.bytes()[..self.len]
    }
}

impl<'a, R: Read> RecordReader<'a, R> {
    ghost use Rattle.std.specs.Prelude.{◌-◌, ◌^◌, true, false, IsOk};
    ghost use Rattle.rpg_files.specs.Counting.{faults_of};
    ghost use Rattle.rpg_files.specs.Reading.{ReadsNext, answer_of, is_record, cannot_fail, reader_of};

    /// Whether the next call can't fail, since it needn't read.
    #[inline(always)]
    pub fn cannot_fail(&self) -> bool
        ensures { result ≡ cannot_fail self.now }
    {
        self.count < MAX_RECORDS
            && (self.is_ended || self.buffer.len() - self.line_len >= self.limit as usize + 2)
    }

    /// Reads the next record. Any result other than a record is repeated from then on.
    #[inline(never)]
    pub fn next(&mut self) -> Result<Next, ReadFault>
        requires { faults_of (reader_of self.old) < 2 ^ 64 - 1 }
        ensures same_reader { self.new.reader.ghost_name ≡ self.old.reader.ghost_name }
        ensures answer { answer_of self.new ≡ result }
        ensures stands_after_record { is_record (answer_of self.old) ≡ true → ReadsNext R.remaining self.old result self.new }
        ensures sure { is_record (answer_of self.old) ≡ true → cannot_fail self.old ≡ true → IsOk result }
        ensures repeated { is_record (answer_of self.old) ≡ false → (result ≡ answer_of self.old) × (self.new ≡ self.old) }
    {
        if let Ok(Next::Record) = self.answer {
            self.answer = self.read_next();
            let last = LastLine {
                number: self.count,
                left: self.buffer.len(),
            };
            self.reader.note(last);
        }
        self.answer
    }

    /// Reads the record after the last one.
    fn read_next(&mut self) -> Result<Next, ReadFault>
        requires { faults_of (reader_of self.old) < 2 ^ 64 - 1 }
        ensures same_reader { self.new.reader.ghost_name ≡ self.old.reader.ghost_name }
        ensures next { ReadsNext R.remaining self.old result self.new }
        ensures sure { cannot_fail self.old ≡ true → IsOk result }
    {
        let line_len = self.line_len;
        self.len = 0;
        self.line_len = 0;
        self.buffer.consume(line_len);
        if self.count == MAX_RECORDS {
            return if has_more(self.reader, &mut self.buffer, &mut self.is_ended)? {
                Err(ReadFault::TooMany)
            } else {
                Ok(Next::End)
            };
        }
        let limit = self.limit as usize;
        match read_line(self.reader, &mut self.buffer, &mut self.is_ended, limit)? {
            NextLine::Record { len, line_len } => {
                self.len = len;
                self.line_len = line_len;
                self.count += 1;
                Ok(Next::Record)
            }
            NextLine::Bad => Ok(Next::Bad),
            NextLine::End => Ok(Next::End),
        }
    }
}
