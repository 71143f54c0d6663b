//! Readers and writers with short, interrupted and failing calls.

ghost use Rattle.std.specs.Prelude.{◌≤◌, IfOk, None};

use std::alloc::Global;
use std::io::{self, ErrorKind, Read, Write};

/// What a reader or a writer does.
#[derive(Clone, Copy)]
pub struct Device {
    /// The most bytes of one read or write. A writer with 0 accepts nothing, without failing.
    pieces: usize,
    /// After how many bytes it fails.
    until_fault: usize,
    /// How often it interrupts before each call.
    times: usize,
    /// The interruptions since the last call.
    interrupted: usize,
}

impl Device {
    /// Returns how many bytes a call for this many takes.
    fn take(&mut self, bytes: usize) -> io::Result<usize>
        ensures { IfOk result (λ n. n ≤ bytes) }
    {
        if self.interrupted < self.times {
            self.interrupted += 1;
            return Err(io::Error::from(ErrorKind::Interrupted));
        }
        self.interrupted = 0;
        if self.until_fault == 0 {
            return Err(io::Error::from(ErrorKind::BrokenPipe));
        }
        let taken = self.pieces.min(self.until_fault).min(bytes);
        self.until_fault -= taken;
        Ok(taken)
    }
}

/// A device without limits or failures.
const WHOLE: Device = Device {
    pieces: usize::MAX,
    until_fault: usize::MAX,
    times: 0,
    interrupted: 0,
};

/// Parses a device of three numbers; `-` is without limit.
pub fn device_of(column: &str) -> Device {
    let mut numbers = [usize::MAX; 3];
    for (number, text) in numbers.iter_mut().zip(column.split(' ')) {
        *number = text.parse().unwrap_or(usize::MAX);
    }
    let [pieces, until_fault, times] = numbers;
    Device {
        pieces,
        until_fault,
        times,
        interrupted: 0,
    }
}

/// The readers of both inputs, and the writers of the print and the disk file.
pub type Devices = [Device; 4];

/// Devices without limits or failures.
pub const ALL_WHOLE: Devices = [WHOLE; 4];

pub fn devices_of(column: &str) -> Devices {
    let mut devices = ALL_WHOLE;
    for (device, text) in devices.iter_mut().zip(column.split('/')) {
        *device = device_of(text);
    }
    devices
}

/// Reads what is left. If it fails after these bytes, it doesn't report the end of the input.
#[derive(Drop)]
pub struct CaseReader<'a> {
    device: Device,
    left: &'a [u8],
}

impl<'a> CaseReader<'a> {
    pub fn new(device: Device, left: &'a [u8]) -> CaseReader<'a> {
        CaseReader { device, left }
    }
}

impl Read for CaseReader<'_> {
    ghost remaining = { λ _. None };

    fn read(&mut self, buf: &mut [u8]) -> io::Result<usize> {
        let taken = self.device.take(buf.len().min(self.left.len()))?;
        let (now, later) = self.left.split_at(taken);
        buf[..taken].copy_from_slice(now);
        self.left = later;
        Ok(taken)
    }
}

/// Keeps what it accepts.
#[derive(Drop)]
pub struct CaseWriter {
    device: Device,
    pub written: Vec<u8>,
}

impl CaseWriter {
    pub fn new(alloc: Global, device: Device) -> CaseWriter {
        CaseWriter {
            device,
            written: Vec::new(alloc),
        }
    }
}

impl Write for CaseWriter {
    ghost contents = { λ _. None };

    fn write(&mut self, buf: &[u8]) -> io::Result<usize> {
        let taken = self.device.take(buf.len())?;
        self.written.extend_from_slice(&buf[..taken])?;
        Ok(taken)
    }

    fn flush(&mut self) -> io::Result<()> {
        Ok(())
    }
}
