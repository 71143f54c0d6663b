//! The sources of records and targets of printed lines: files, or the standard streams; and the bytes that were read last, for the
//! diagnostic of a halt.

ghost use Rattle.std.specs.Prelude.{◌≡◌, ◌≤◌, min, IfSome, None};

use crate::files::{FileFault, Patience, Reason, empty_file};
use crate::replacing::InPlace;
use std::alloc::Global;
use std::cell::Cell;
use std::fs::OpenFile;
use std::io::{self, Error, ErrorKind, Printer, Read, Write};
use std::rt::Files;

/// The most columns of a record in any file.
const MOST_COLUMNS: usize = 9999;

/// A file of a job, after it was opened.
#[derive(Drop)]
pub enum Opened<F> {
    /// The program has no such file.
    Nothing,
    File(F),
    /// A new, empty file beside the one to be written.
    New(F),
    /// A file that no new one can replace.
    InPlace(F, InPlace),
    /// Standard input, or standard output.
    Standard,
}

impl<F: OpenFile> Opened<F> {
    /// Empties the file to be written. A new file is already empty.
    pub fn empty(&self) -> Result<(), FileFault> {
        match self {
            Opened::File(file) | Opened::InPlace(file, _) => empty_file(file),
            Opened::Nothing | Opened::New(_) | Opened::Standard => Ok(()),
        }
    }
}

impl<F> Opened<F> {
    /// Returns why the file is written in place, if its old contents were to be kept.
    pub fn in_place(&self) -> Option<&'static str> {
        match self {
            Opened::InPlace(_, why) => why.text(),
            _ => None,
        }
    }
}

/// A source of records, and why its last read failed, if it did.
#[derive(Drop)]
pub struct RecordSource<F, S> {
    from: Source<F, S>,
    fault: Option<Reason>,
    patience: Patience,
    window: Window,
}

/// What records are read from. Without a file there are no records.
#[derive(Drop)]
enum Source<F, S> {
    Nothing,
    File(F),
    StandardInput(S),
}

/// A target of lines, and why its last write failed, if it did.
///
/// It doesn't buffer: the engine's pieces are large, and its output should be visible before it reads again.
#[derive(Drop)]
pub struct LineTarget<'r, F, P> {
    to: Target<F, P>,
    fault: Option<Reason>,
    patience: Patience,
    /// How many bytes may still be written, to this target and those that share the number; None without a limit.
    room: Option<&'r Cell<u64>>,
}

#[derive(Drop)]
enum Target<F, P> {
    Nothing,
    File(F),
    /// A file that replaces another once it is on the disk.
    New(F),
    StandardOutput(P),
}

/// Returns the records of an open file.
pub fn records<R: Files + Input + AllocGlobal>(
    rt: &R,
    opened: Opened<R::File>,
) -> RecordSource<R::File, R::Reader> {
    let from = match opened {
        Opened::Nothing => Source::Nothing,
        Opened::File(file) | Opened::New(file) | Opened::InPlace(file, _) => Source::File(file),
        Opened::Standard => Source::StandardInput(rt.reader()),
    };
    RecordSource {
        from,
        fault: None,
        patience: Patience::NEW,
        window: Window::closed(rt.alloc()),
    }
}

/// Returns the writer of an open file.
pub fn lines<'r, R: Files + Print>(
    rt: &'r R,
    opened: Opened<R::File>,
    room: Option<&'r Cell<u64>>,
) -> LineTarget<'r, R::File, Printer<'r, R>> {
    let to = match opened {
        Opened::Nothing => Target::Nothing,
        Opened::File(file) | Opened::InPlace(file, _) => Target::File(file),
        Opened::New(file) => Target::New(file),
        Opened::Standard => Target::StandardOutput(io::writer(rt)),
    };
    LineTarget {
        to,
        fault: None,
        patience: Patience::NEW,
        room,
    }
}

/// Returns why a call failed, if it did.
fn fault_of<T>(answer: &io::Result<T>) -> Option<Reason> {
    match answer {
        Ok(_) => None,
        Err(error) => Some(Reason::of(error.kind())),
    }
}

impl<F, S> RecordSource<F, S> {
    /// Returns the same source, which keeps the bytes that it reads last: at least all of the last line. Without memory it keeps none.
    pub fn keeping(mut self, alloc: Global) -> RecordSource<F, S> {
        if !matches!(self.from, Source::Nothing) {
            self.window = Window::open(alloc);
        }
        self
    }

    /// Returns why the last read failed, if it did.
    pub fn fault(&self) -> Option<Reason> {
        self.fault
    }
}

impl<F: Drop, S: Drop> RecordSource<F, S> {
    /// Returns the bytes that were read last.
    pub fn into_last_bytes(self) -> Vec<u8> {
        let RecordSource { window, .. } = self;
        window.into_bytes()
    }
}

impl<F: Read, S: Read> RecordSource<F, S> {
    /// Reads on to the end of the last line, of which this many bytes were read, or to more bytes than a record has. Returns how many
    /// were read.
    pub fn read_line_end(&mut self, left: usize) -> usize {
        let mut piece = [0u8; 256];
        let mut left = left;
        for _ in 0..MOST_COLUMNS {
            if left == 0 || left > MOST_COLUMNS || self.window.has_line_feed(left) {
                break;
            }
            match self.read(&mut piece) {
                Ok(count) if count > 0 => left = left.saturating_add(count),
                _ => break,
            }
        }
        left
    }
}

impl<F: Read, S: Read> Read for RecordSource<F, S> {
    fn read(&mut self, buf: &mut [u8]) -> io::Result<usize> {
        let answer = match &mut self.from {
            Source::Nothing => Ok(0),
            Source::File(file) => file.read(buf),
            Source::StandardInput(reader) => reader.read(buf),
        };
        let answer = self.patience.of(answer);
        self.fault = fault_of(&answer);
        if let Ok(count) = answer {
            self.window.add(&buf[..count]);
        }
        answer
    }
}

/// Returns how many of these bytes may be written, given how many are left if there is a limit.
fn allowed(left: Option<u64>, bytes: usize) -> usize
    ensures few { result ≤ bytes }
    ensures limited { IfSome left (λ n. result ≡ min n bytes) }
    ensures free { left ≡ None → result ≡ bytes }
{
    match left {
        None => bytes,
        Some(left) => left.min(bytes as u64) as usize,
    }
}

impl<F, P> LineTarget<'_, F, P> {
    /// Returns why the last write failed, if it did.
    pub fn fault(&self) -> Option<Reason> {
        self.fault
    }

    /// Counts the bytes that were written, and keeps why they weren't.
    fn note(&mut self, answer: &io::Result<usize>) {
        self.fault = fault_of(answer);
        if let (Some(room), Ok(written)) = (self.room, answer) {
            room.set(room.get().saturating_sub(*written as u64));
        }
    }
}

impl<F: Write + OpenFile, P: Write> Write for LineTarget<'_, F, P> {
    fn write(&mut self, buf: &[u8]) -> io::Result<usize> {
        let allowed = allowed(self.room.map(Cell::get), buf.len());
        if allowed == 0 && !buf.is_empty() {
            self.fault = Some(Reason::Limit);
            return Err(Error::from(ErrorKind::QuotaExceeded));
        }
        let buf = &buf[..allowed];
        let answer = match &mut self.to {
            Target::Nothing => Ok(buf.len()),
            Target::File(file) | Target::New(file) => file.write(buf),
            Target::StandardOutput(printer) => printer.write(buf),
        };
        let answer = self.patience.of(answer);
        self.note(&answer);
        answer
    }

    fn flush(&mut self) -> io::Result<()> {
        match &mut self.to {
            Target::Nothing => Ok(()),
            Target::File(file) => file.flush(),
            Target::New(file) => file.sync_all(),
            Target::StandardOutput(printer) => printer.flush(),
        }
    }
}

/// How many earlier bytes are kept at least: more than the longest line that can be a record.
const EARLIER: usize = 16_384;

/// Room for the most bytes that a job reads at once, with as many earlier ones before and after what is dropped.
const ROOM: usize = 65_536 + 3 * EARLIER;

/// The bytes that were read last. Its memory is allocated once; without it, it stays empty.
#[derive(Drop)]
pub(crate) struct Window {
    bytes: Vec<u8>,
}

impl Window {
    /// A window that keeps nothing.
    pub fn closed(alloc: Global) -> Window {
        Window {
            bytes: Vec::new(alloc),
        }
    }

    pub fn open(alloc: Global) -> Window {
        match Vec::with_capacity(alloc, ROOM) {
            Ok(bytes) => Window { bytes },
            Err(_) => Window::closed(alloc),
        }
    }

    /// Keeps bytes that were read, in place of earlier ones if there is no room for all.
    pub fn add(&mut self, bytes: &[u8]) {
        if self.bytes.capacity() < ROOM {
            return;
        }
        if self.bytes.len().saturating_add(bytes.len()) > ROOM && self.bytes.len() > EARLIER {
            let from = self.bytes.len() - EARLIER;
            self.bytes.copy_within(from.., 0);
            self.bytes.truncate(EARLIER);
        }
        let _ = self.bytes.extend_from_slice(bytes);
    }

    /// Whether the last bytes, so many of them, have a line feed.
    pub fn has_line_feed(&self, left: usize) -> bool {
        let from = self.bytes.len().saturating_sub(left);
        self.bytes[from..].contains(&b'\n')
    }

    /// Returns the bytes.
    pub fn into_bytes(self) -> Vec<u8> {
        self.bytes
    }
}
