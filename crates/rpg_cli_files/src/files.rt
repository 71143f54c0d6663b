//! Whole files, by path; why a file failed, and devices that are interrupted again and again.

ghost use Rattle.std.specs.Prelude.{◌≡◌, ◌-◌, ◌^◌, ◌<◌, ◌≤◌, length, IfOk, Ok};
ghost use Rattle.std.specs.Io.KnownBytes.{Keeps};
ghost use Rattle.rpg_files.specs.Counting.{device_of, faults_after, faults_of};

use rpg_files::{Counted, most_tries};
use std::alloc::AllocError;
use std::fs::{self, File, Metadata, OpenFile};
use std::io::{self, Error, ErrorKind, Read, Write};
use std::os::unix::fs::MetadataExt;
use std::rt::Files;

/// The most bytes of a source or object file in this profile.
const MOST_BYTES: usize = 16_777_216;

/// What went wrong with a file.
#[derive(Clone, Copy)]
pub enum FileFault {
    /// An input file can't be opened or read.
    Input(Reason),
    /// An output file can't be created or written.
    Output(Reason),
    /// A new file can't be created in the folder of the output file that it would replace.
    Beside(Reason),
    /// A file that is read as a whole is longer than 16,777,216 bytes.
    TooLarge,
    NoMemory,
}

impl From<AllocError> for FileFault {
    fn from(_: AllocError) -> Self {
        FileFault::NoMemory
    }
}

fn input_fault(error: Error) -> FileFault {
    match error.kind() {
        ErrorKind::OutOfMemory => FileFault::NoMemory,
        kind => FileFault::Input(Reason::of(kind)),
    }
}

pub(crate) fn output_fault(error: Error) -> FileFault {
    match error.kind() {
        ErrorKind::OutOfMemory => FileFault::NoMemory,
        kind => FileFault::Output(Reason::of(kind)),
    }
}

pub(crate) fn beside_fault(error: Error) -> FileFault {
    match error.kind() {
        ErrorKind::OutOfMemory => FileFault::NoMemory,
        kind => FileFault::Beside(Reason::of(kind)),
    }
}

/// The identity of a regular file, whatever its name: its device, and its inode number there.
#[derive(Clone, Copy, PartialEq, Eq)]
pub struct FileIdentity {
    device: u64,
    number: u64,
}

/// Returns the identity of a regular file. Other files have none: writing them loses nothing.
fn identity_in(about: &Metadata) -> Option<FileIdentity> {
    about.is_file().then_some(FileIdentity {
        device: about.dev(),
        number: about.ino(),
    })
}

/// Returns the identity of an open file, if it is regular. The error is why the system can't tell.
pub fn identity<F: OpenFile>(file: &F) -> Result<Option<FileIdentity>, Reason> {
    match file.metadata() {
        Ok(about) => Ok(identity_in(&about)),
        Err(error) => Err(Reason::of(error.kind())),
    }
}

/// Returns the identity of the file at a path, if it is regular.
pub fn identity_at<R: Files>(rt: &R, path: &str) -> Option<FileIdentity> {
    identity_in(&fs::metadata(rt, path).ok()?)
}

/// Whether a file that can be read begins with these bytes.
fn has_mark<R: Files>(rt: &R, path: &str, mark: &[u8; 6]) -> io::Result<bool> {
    let mut bytes = [0; 6];
    fs::open(rt, path)?.read_exact(&mut bytes)?;
    Ok(bytes == *mark)
}

/// Whether the file at a path begins with these six bytes. None if it isn't there, isn't regular or is empty: writing it loses nothing.
pub fn begins_with<R: Files>(rt: &R, path: &str, mark: &[u8; 6]) -> Option<bool> {
    let about = fs::metadata(rt, path).ok()?;
    if !about.is_file() || about.len() == 0 {
        return None;
    }
    Some(has_mark(rt, path, mark).unwrap_or(false))
}

/// Opens a file for reading, and returns it with its metadata. A folder isn't one.
fn opened<R: Files>(rt: &R, path: &str) -> Result<(R::File, Metadata), FileFault> {
    let file = fs::open(rt, path).map_err(input_fault)?;
    let about = file.metadata().map_err(input_fault)?;
    if about.is_dir() {
        return Err(FileFault::Input(Reason::Folder));
    }
    Ok((file, about))
}

/// Opens a file for reading. A folder isn't one.
pub fn input_file<R: Files>(rt: &R, path: &str) -> Result<R::File, FileFault> {
    let (file, _) = opened(rt, path)?;
    Ok(file)
}

/// Reads a source or object file.
pub fn file_bytes<R: Files + AllocGlobal>(rt: &R, path: &str) -> Result<Vec<u8>, FileFault>
    ensures few { IfOk result (λ bytes. length bytes.items ≤ 16777216) }
{
    let (file, about) = opened(rt, path)?;
    // A byte more than the file has, so that the read that finds its end has room.
    let room = about.len().min(MOST_BYTES as u64) as usize + 1;
    let mut bytes = Vec::with_capacity(rt.alloc(), room)?;
    Patient::new(file)
        .take(MOST_BYTES as u64 + 1)
        .read_to_end(&mut bytes)
        .map_err(input_fault)?;
    if bytes.len() > MOST_BYTES {
        return Err(FileFault::TooLarge);
    }
    Ok(bytes)
}

/// Opens a file for writing, and creates it if it doesn't exist. Its contents stay until it is
/// emptied.
pub fn output_file<R: Files>(rt: &R, path: &str) -> Result<R::File, FileFault> {
    File::options()
        .write(true)
        .create(true)
        .open(rt, path)
        .map_err(output_fault)
}

/// Empties a file that will be written. A file that isn't regular has no contents.
pub(crate) fn empty_file<F: OpenFile>(file: &F) -> Result<(), FileFault> {
    match identity(file) {
        Ok(Some(_)) => file.set_len(0).map_err(output_fault),
        Ok(None) => Ok(()),
        Err(reason) => Err(FileFault::Output(reason)),
    }
}

/// Flushes a writer.
pub fn flush_device<W: Write>(writer: &mut Counted<W>) -> Result<(), FileFault>
    requires { faults_of writer.old < 2 ^ 64 - 1 }
    ensures bytes { Keeps (W.contents (device_of writer.old)) (W.contents (device_of writer.new)) }
    ensures faults { faults_of writer.new ≡ faults_after (faults_of writer.old) result }
{
    match writer.flush() {
        Ok(()) => Ok(()),
        Err(error) => Err(output_fault(error)),
    }
}

/// How many calls of a device in a row were interrupted.
#[derive(Clone, Copy)]
pub(crate) struct Patience {
    interrupts: u32,
}

impl Patience {
    pub const NEW: Patience = Patience { interrupts: 0 };

    /// Takes the answer of a call. Returns it, but after 1,000 interrupts in a row a fault: nothing tries again then.
    pub fn of(&mut self, answer: io::Result<usize>) -> io::Result<usize>
        ensures { IfOk result (λ n. answer ≡ Ok n) }
    {
        match answer {
            Err(error) if error.kind() == ErrorKind::Interrupted => {
                self.interrupts = self.interrupts.saturating_add(1);
                if self.interrupts >= most_tries() {
                    Err(Error::from(ErrorKind::Other))
                } else {
                    Err(error)
                }
            }
            other => {
                self.interrupts = 0;
                other
            }
        }
    }
}

/// A reader that fails after 1,000 interrupts in a row.
#[derive(Drop)]
pub struct Patient<R> {
    reader: R,
    patience: Patience,
}

impl<R: Read> Patient<R> {
    pub fn new(reader: R) -> Patient<R> {
        Patient {
            reader,
            patience: Patience::NEW,
        }
    }
}

impl<R: Read> Read for Patient<R> {
    fn read(&mut self, buf: &mut [u8]) -> io::Result<usize> {
        self.patience.of(self.reader.read(buf))
    }
}

/// Why a file can't be opened, read, created or written, as far as the system distinguishes reasons.
#[derive(Clone, Copy)]
pub enum Reason {
    Missing,
    NotAllowed,
    /// All names that were tried for a new file are taken.
    Taken,
    /// A new file can't be given to the group of the old one.
    Group,
    Folder,
    /// A part of the path is a file.
    NoFolder,
    ReadOnly,
    Full,
    /// The arguments allow no more bytes.
    Limit,
    TooLarge,
    /// The reader of the output closed it.
    Closed,
    Name,
    /// A folder can't be written as a file, a device doesn't exist, or another fault.
    Other,
}

impl Reason {
    pub fn of(kind: ErrorKind) -> Self {
        match kind {
            ErrorKind::NotFound => Reason::Missing,
            ErrorKind::PermissionDenied => Reason::NotAllowed,
            ErrorKind::AlreadyExists => Reason::Taken,
            ErrorKind::IsADirectory => Reason::Folder,
            ErrorKind::NotADirectory => Reason::NoFolder,
            ErrorKind::ReadOnlyFilesystem => Reason::ReadOnly,
            ErrorKind::StorageFull | ErrorKind::QuotaExceeded => Reason::Full,
            ErrorKind::FileTooLarge => Reason::TooLarge,
            ErrorKind::BrokenPipe => Reason::Closed,
            ErrorKind::InvalidFilename | ErrorKind::FilesystemLoop | ErrorKind::InvalidInput => {
                Reason::Name
            }
            _ => Reason::Other,
        }
    }

    /// Returns the reason in words.
    pub fn text(self) -> &'static str {
        match self {
            Reason::Missing => "no such file or directory",
            Reason::NotAllowed => "permission denied",
            Reason::Taken => "file exists",
            Reason::Group => "its group can't be given to a new file",
            Reason::Folder => "is a directory",
            Reason::NoFolder => "a part of the path is no directory",
            Reason::ReadOnly => "the file system is read-only",
            Reason::Full => "no space left on device",
            Reason::Limit => "--most-bytes allows no more",
            Reason::TooLarge => "the file would be too large",
            Reason::Closed => "nobody reads it",
            Reason::Name => "no file can have that name",
            Reason::Other => "the system refuses it",
        }
    }
}
