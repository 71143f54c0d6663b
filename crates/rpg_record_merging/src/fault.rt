//! Why lines aren't written, and the writing of one.

ghost use Rattle.std.specs.Prelude.{◌≡◌, ◌^◌, ◌-◌, ◌<◌, OnOk};
ghost use Rattle.std.specs.Io.KnownBytes.{Appends};
ghost use Rattle.rpg_files.specs.Counting.{device_of, faults_of};

use rpg_files::{Counted, send};
use std::alloc::{AllocError, AllocFailed};
use std::io::Write;

/// Why a merge ended early. Files are counted from 0, lines from 1.
#[derive(Clone, Copy)]
pub enum MergeStop {
    /// A line has more columns than the records of its file.
    Long { file: usize, number: u64 },
    /// There are more than 10,000,000 records.
    TooMany,
    /// The reader of a file failed.
    Read { file: usize },
    /// The writer failed.
    Write,
    NoMemory,
}

impl From<AllocError> for MergeStop {
    fn from(_: AllocError) -> Self {
        MergeStop::NoMemory
    }
}

impl<T: Drop> From<AllocFailed<T>> for MergeStop {
    fn from(_: AllocFailed<T>) -> Self {
        MergeStop::NoMemory
    }
}

/// The most records that are written.
pub(crate) const MOST_RECORDS: u64 = 10_000_000;

/// Writes a line.
pub(crate) fn send_line<W: Write>(writer: &mut Counted<W>, line: &[u8]) -> Result<(), MergeStop>
    requires { faults_of writer.old < 2 ^ 64 - 1 }
    ensures line { OnOk result (Appends (W.contents (device_of writer.old)) (W.contents (device_of writer.new)) line.now) }
    ensures faults { OnOk result (faults_of writer.new ≡ faults_of writer.old) }
{
    match send(writer, line) {
        Ok(()) => Ok(()),
        Err(_) => Err(MergeStop::Write),
    }
}
