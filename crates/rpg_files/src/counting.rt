//! Readers and writers that count their failed calls.

ghost use Rattle.std.specs.Prelude.{◌≡◌, ◌+◌, ◌-◌, ◌^◌, ◌<◌, ◌≤◌, length, IfOk};
ghost use Rattle.std.specs.Io.KnownBytes.{Keeps, ReadConsumes, WriteAppends};
ghost use Rattle.rpg_files.specs.Counting.{faults_after, device_of, faults_of, last_of, max_tries};

use std::io;
use std::io::{ErrorKind, Read, Write};

/// Returns how often a read or a write is tried: it fails if every try is interrupted.
pub fn most_tries() -> u32
    ensures { result ≡ max_tries }
{
    1_000
}

/// The device failed.
#[derive(Clone, Copy)]
pub struct DeviceFault;

/// Where the last line that was read from a device is, for diagnostics.
#[derive(Clone, Copy)]
pub struct LastLine {
    /// How many records were read.
    pub number: u32,
    /// How many bytes were read from the beginning of the last line on, a record or one that no program accepts; none at the end of the
    /// input.
    pub left: usize,
}

/// A reader or a writer, with the number of its failed calls. A reader of records notes where the last line is.
#[derive(Drop)]
pub struct Counted<T> {
    device: T,
    faults: u64,
    last: LastLine,
}

impl<T> Counted<T> {
    pub fn new(device: T) -> Counted<T>
        ensures device { device_of result ≡ device }
        ensures faults { faults_of result ≡ 0 }
    {
        Counted {
            device,
            faults: 0,
            last: LastLine { number: 0, left: 0 },
        }
    }

    /// Returns where the last line is.
    pub fn last(&self) -> LastLine
        ensures { result ≡ last_of self.now }
    {
        self.last
    }

    /// Notes where the last line is.
    pub(crate) fn note(&mut self, last: LastLine)
        ensures { self.new ≡ record self.old { last = last } }
    {
        self.last = last;
    }

    /// Returns how many calls failed.
    pub fn faults(&self) -> u64
        ensures { result ≡ faults_of self.now }
    {
        self.faults
    }

    /// Returns the reader or the writer, to be looked at.
    pub fn device(&self) -> &T
        ensures { result.now ≡ device_of self.now }
    {
        &self.device
    }

    /// Returns the reader or the writer itself.
    pub fn into_device(self) -> T
        ensures { result ≡ device_of self }
    {
        self.device
    }
}

impl<R: Read> Counted<R> {
    /// Reads into `buf`. Returns how many bytes, 0 at the end of the input or if `buf` is empty.
    pub fn read(&mut self, buf: &mut [u8]) -> Result<usize, DeviceFault>
        requires { faults_of self.old < 2 ^ 64 - 1 }
        ensures within { IfOk result (λ n. n ≤ length buf.new) }
        ensures bytes { ReadConsumes (R.remaining (device_of self.old)) (R.remaining (device_of self.new)) result buf.new }
        ensures faults { faults_of self.new ≡ faults_after (faults_of self.old) result }
    {
        for _ in 0..most_tries() {
            match self.device.read(buf) {
                Ok(n) => return Ok(n),
                Err(error) => {
                    if error.kind() != ErrorKind::Interrupted {
                        break;
                    }
                }
            }
        }
        self.faults += 1;
        Err(DeviceFault)
    }
}

impl<W: Write> Counted<W> {
    /// Writes bytes of `buf`. Returns how many, at least one unless `buf` is empty: a write of 0 bytes is a fault.
    pub fn write(&mut self, buf: &[u8]) -> Result<usize, DeviceFault>
        requires { faults_of self.old < 2 ^ 64 - 1 }
        ensures within { IfOk result (λ n. n ≤ length buf.now) }
        ensures some { IfOk result (λ n. 0 < length buf.now → 0 < n) }
        ensures bytes { WriteAppends (W.contents (device_of self.old)) (W.contents (device_of self.new)) result buf.now }
        ensures faults { faults_of self.new ≡ faults_after (faults_of self.old) result }
    {
        for _ in 0..most_tries() {
            match self.device.write(buf) {
                Ok(0) if !buf.is_empty() => break,
                Ok(n) => return Ok(n),
                Err(error) => {
                    if error.kind() != ErrorKind::Interrupted {
                        break;
                    }
                }
            }
        }
        self.faults += 1;
        Err(DeviceFault)
    }

    /// Flushes the writer. The error is the writer's own.
    pub fn flush(&mut self) -> io::Result<()>
        requires { faults_of self.old < 2 ^ 64 - 1 }
        ensures bytes { Keeps (W.contents (device_of self.old)) (W.contents (device_of self.new)) }
        ensures faults { faults_of self.new ≡ faults_after (faults_of self.old) result }
    {
        let flushed = self.device.flush();
        if flushed.is_err() {
            self.faults += 1;
        }
        flushed
    }
}
