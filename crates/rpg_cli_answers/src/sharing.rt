//! The files that arguments name: sources, which are read from their paths or from standard input; files that must not be written, since two
//! arguments name them, or an output may not replace them; outputs that are written in place, or that a command replaced before it failed.

use crate::answer::{Answer, named};
use rpg_cli_diagnostics::{Draft, FileName};
use rpg_cli_files::{
    FileFault, FileIdentity, Listener, Opened, Patient, Pending, Reason, Replaces, begins_with,
    file_bytes, identity, identity_at, remark_made, tell_made,
};
use rpg_cli_text::TextWriter;
use rpg_cli_words::{
    Existing, FileArgument, Request, SameFile, Shared, Unreplaced, is_standard, may_replace,
};
use std::alloc::Global;
use std::fs::OpenFile;
use std::io::{Error, ErrorKind, Read};
use std::rt::Files;

/// An argument, and the regular file that it names, if any.
#[derive(Clone, Copy)]
pub struct NamedFile {
    argument: FileArgument,
    identity: Option<FileIdentity>,
}

/// Returns the identity of an open file, or the fault of the file that an argument names.
fn identity_of<F: OpenFile>(
    argument: FileArgument,
    file: &F,
) -> Result<Option<FileIdentity>, FileFault> {
    match identity(file) {
        Ok(identity) => Ok(identity),
        Err(reason) => Err(match argument {
            FileArgument::Print | FileArgument::Disk => FileFault::Output(reason),
            _ => FileFault::Input(reason),
        }),
    }
}

impl NamedFile {
    pub fn at<R: Files>(rt: &R, argument: FileArgument, path: &str) -> NamedFile {
        NamedFile::named(rt, argument, Some(path))
    }

    pub fn named<R: Files>(rt: &R, argument: FileArgument, path: Option<&str>) -> NamedFile {
        NamedFile {
            argument,
            identity: path.and_then(|path| identity_at(rt, path)),
        }
    }

    /// Returns an open file of a job, or the one that a standard stream is redirected to, which the
    /// system knows by this path.
    pub fn opened<R: Files>(
        rt: &R,
        argument: FileArgument,
        file: &Opened<R::File>,
        stream: &str,
    ) -> Result<NamedFile, Answer> {
        let identity = match file {
            Opened::Nothing => None,
            Opened::File(file) | Opened::New(file) | Opened::InPlace(file, _) => {
                named(argument, identity_of(argument, file))?
            }
            Opened::Standard => identity_at(rt, stream),
        };
        Ok(NamedFile { argument, identity })
    }

    /// Returns a file that a job writes, or the place of one that is written beside it.
    pub fn written<R: Files>(
        rt: &R,
        argument: FileArgument,
        file: &Opened<R::File>,
        pending: &Option<Pending<'_>>,
        stream: &str,
    ) -> Result<NamedFile, Answer> {
        match pending {
            Some(pending) => Ok(NamedFile::at(rt, argument, pending.place())),
            None => NamedFile::opened(rt, argument, file, stream),
        }
    }
}

pub fn refuse_same_file(written: NamedFile, others: &[NamedFile]) -> Result<(), SameFile> {
    if written.identity.is_none() {
        return Ok(());
    }
    for earlier in others {
        if earlier.identity == written.identity {
            return Err(SameFile {
                earlier: earlier.argument,
                written: written.argument,
                shared: Shared::File,
            });
        }
    }
    Ok(())
}

fn existing_at<R: Files>(rt: &R, path: &str) -> Existing {
    match begins_with(rt, path, b"RPGOBJ") {
        None => Existing::Nothing,
        Some(true) => Existing::ObjectProgram,
        Some(false) if path.ends_with(".rpg") => Existing::Source,
        Some(false) => Existing::Other,
    }
}

/// Refuses to replace a file that an output may not replace.
pub fn refuse_replacing<R: Files>(
    rt: &R,
    written: FileArgument,
    path: Option<&str>,
    is_forced: bool,
) -> Result<(), Unreplaced> {
    let existing = existing_at(rt, path.unwrap_or(""));
    if may_replace(written, existing, is_forced) {
        Ok(())
    } else {
        Err(Unreplaced { written, existing })
    }
}

/// Returns a file of an argument as diagnostics name it.
pub fn file_at(argument: FileArgument, path: &str) -> FileName<'_> {
    FileName {
        path,
        role: argument.name(),
    }
}

pub fn file_of<'a>(request: &Request<'a>, argument: FileArgument) -> FileName<'a> {
    file_at(argument, request.file(argument))
}

/// Reports an output that is written in place, if its old contents were to be kept.
pub fn report_in_place<F, L: Listener>(
    alloc: Global,
    request: &Request,
    argument: FileArgument,
    file: &Opened<F>,
    listener: &mut L,
) {
    if let Some(why) = file.in_place() {
        let place = file_of(request, argument).whole();
        let pieces = [argument.name().into(), why.into()];
        let note = Draft::note(alloc, place).filled("{} is written in place: {}", &pieces);
        tell_made(listener, note);
    }
}

/// Reports a new file that was moved to its place, if there is one, since the command fails all the same.
pub fn report_placed<L: Listener>(
    alloc: Global,
    argument: FileArgument,
    file: &Option<Pending<'_>>,
    listener: &mut L,
) {
    if let Some(file) = file {
        let mut out = TextWriter::new(alloc);
        let sentence = match file.replaces() {
            Replaces::Nothing => "{} was made by this run",
            Replaces::File => "{} was replaced by what this run wrote",
        };
        out.fill_one(sentence, argument.name());
        remark_made(listener, file_at(argument, file.place()), out.finish());
    }
}

/// The most bytes of a source.
const MOST_BYTES: usize = 16_777_216;

fn input_fault(error: &Error) -> FileFault {
    match error.kind() {
        ErrorKind::OutOfMemory => FileFault::NoMemory,
        kind => FileFault::Input(Reason::of(kind)),
    }
}

/// Reads all of standard input.
fn input_bytes<R: Input + AllocGlobal>(rt: &R) -> Result<Vec<u8>, FileFault> {
    let mut bytes = Vec::new(rt.alloc());
    match Patient::new(rt.reader())
        .take(MOST_BYTES as u64 + 1)
        .read_to_end(&mut bytes)
    {
        Ok(_) if bytes.len() <= MOST_BYTES => Ok(bytes),
        Ok(_) => Err(FileFault::TooLarge),
        Err(error) => Err(input_fault(&error)),
    }
}

/// Reads a source from a file or from standard input.
pub fn source_bytes<R: Files + Input + AllocGlobal>(
    rt: &R,
    path: &str,
) -> Result<Vec<u8>, FileFault> {
    if is_standard(path) {
        input_bytes(rt)
    } else {
        file_bytes(rt, path)
    }
}

/// Returns the path by which the system knows a source.
pub fn system_path(path: &str) -> &str {
    if is_standard(path) {
        "/dev/stdin"
    } else {
        path
    }
}
