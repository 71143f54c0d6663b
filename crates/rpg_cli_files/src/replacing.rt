//! A file that is written completely before it replaces the existing one.

use crate::files::{FileFault, Reason, beside_fault, output_fault};
use crate::listener::{Listener, tell_made};
use crate::sending::send_bytes;
use rpg_cli_diagnostics::{Draft, FileName};
use std::alloc::{AllocError, Global};
use std::fs::{self, File, Metadata, OpenFile};
use std::io::{ErrorKind, Write};
use std::os::unix::fs::{MetadataExt, chown};
use std::path::Path;
use std::rt::Files;

/// How many names are tried for a file beside another.
const NAMES: u32 = 10_000;

/// How many links lead to a file at most.
const LINKS: u32 = 40;

/// What exists at the place of a file.
#[derive(Drop)]
enum Place {
    Nothing,
    /// A regular file.
    File(Metadata),
    /// A device, a pipe or a folder, or nothing that has a path.
    Other,
}

/// Why a file is written in place.
#[derive(Clone, Copy)]
pub enum InPlace {
    /// It is no regular file, and has nothing to lose.
    NotAFile,
    /// A new file would have only one of its names.
    OtherNames,
    /// A new file can't be given to its owner.
    OtherOwner,
}

impl InPlace {
    /// Returns the reason in words, if the file has something to lose.
    pub fn text(self) -> Option<&'static str> {
        match self {
            InPlace::NotAFile => None,
            InPlace::OtherNames => Some("it has another name"),
            InPlace::OtherOwner => Some("it belongs to another user"),
        }
    }
}

/// How a file is written.
#[derive(Drop)]
pub(crate) enum Writing<F> {
    Beside(Beside<F>),
    InPlace(InPlace),
}

/// Where a file goes, without links on the last part of its path, and how it is written.
#[derive(Drop)]
pub(crate) struct Written<F> {
    pub target: String,
    pub writing: Writing<F>,
}

/// A new file in the folder of another.
#[derive(Drop)]
pub(crate) struct Beside<F> {
    pub file: F,
    pub path: String,
    /// The number in its name.
    pub number: u32,
    pub replaces: Replaces,
}

/// What a new file replaces.
#[derive(Clone, Copy, PartialEq, Eq)]
pub enum Replaces {
    Nothing,
    File,
}

/// Whether a file may go there: nothing is there, or a regular file.
pub(crate) fn is_free<R: Files>(rt: &R, path: &str) -> bool {
    match fs::symlink_metadata(rt, path) {
        Ok(about) => about.is_file(),
        Err(error) => error.kind() == ErrorKind::NotFound,
    }
}

/// Whether a path names an open stream, which no new file can replace.
fn is_stream(path: &str) -> bool {
    path.is_empty()
        || path.starts_with("/dev/std")
        || path.starts_with("/dev/fd/")
        || path.starts_with("/proc/")
}

/// Returns where the link at a path leads.
fn linked<R: Files + AllocGlobal>(rt: &R, path: &str) -> Result<String, FileFault> {
    let link = fs::read_link(rt, path).map_err(output_fault)?;
    let target = Path::new(path).with_file_name(rt.alloc(), link.as_str())?;
    Ok(target.into_string())
}

/// A place without links on its last part: its path, and what exists there.
#[derive(Drop)]
pub(crate) struct Target {
    pub path: String,
    place: Place,
}

/// Follows the links at a path.
pub(crate) fn target_of<R: Files + AllocGlobal>(rt: &R, path: &str) -> Result<Target, FileFault> {
    let mut path = format!(in rt.alloc(); "{path}")?;
    for _ in 0..LINKS {
        let place = match fs::symlink_metadata(rt, path.as_str()) {
            _ if is_stream(path.as_str()) => Place::Other,
            Ok(about) if about.is_symlink() => {
                path = linked(rt, path.as_str())?;
                continue;
            }
            Ok(about) if about.is_file() => Place::File(about),
            Ok(_) => Place::Other,
            Err(error) if error.kind() == ErrorKind::NotFound => Place::Nothing,
            Err(error) => return Err(output_fault(error)),
        };
        return Ok(Target { path, place });
    }
    Err(FileFault::Output(Reason::Name))
}

/// Returns the name of a new file beside another.
pub(crate) fn name_beside(alloc: Global, path: &str, number: u32) -> Result<String, AllocError> {
    format!(in alloc; "{path}.{number}.new")
}

/// Creates a file beside another, with this number in its name. None if the name is taken.
fn numbered_beside<R: Files + AllocGlobal>(
    rt: &R,
    path: &str,
    number: u32,
    replaces: Replaces,
) -> Result<Option<Beside<R::File>>, FileFault> {
    let path = name_beside(rt.alloc(), path, number)?;
    match File::create_new(rt, path.as_str()) {
        Ok(file) => Ok(Some(Beside {
            file,
            path,
            number,
            replaces,
        })),
        Err(error) if error.kind() == ErrorKind::AlreadyExists => Ok(None),
        Err(error) => Err(beside_fault(error)),
    }
}

const LEFT: &str =
    "{}.0.new was left by a run that was killed, or another run writes it: remove it if none runs";

const SEVERAL_LEFT: &str =
    "{}.0.new to {}.{}.new were left by runs that were killed, or other runs write them: remove them if none runs";

const NOT_REMOVED: &str = "it is left there, since it can't be removed: {}";

/// Begins a note on a file, whose argument isn't known.
fn note(alloc: Global, path: &str) -> Draft<'_> {
    Draft::note(alloc, FileName { path, role: "" }.whole())
}

/// Reports the names beside a file that other runs have taken, so many of them.
pub(crate) fn report_taken<L: Listener>(alloc: Global, path: &str, count: u32, listener: &mut L) {
    if count > 0 {
        let (name, last) = (path.as_bytes(), u64::from(count - 1));
        let sentence = if count == 1 { LEFT } else { SEVERAL_LEFT };
        let pieces = [name.into(), name.into(), last.into()];
        tell_made(listener, note(alloc, path).filled(sentence, &pieces));
    }
}

/// Creates a file beside another, under a name that isn't taken.
fn new_beside<R: Files + AllocGlobal>(
    rt: &R,
    path: &str,
    replaces: Replaces,
) -> Result<Beside<R::File>, FileFault> {
    for number in 0..NAMES {
        if let Some(beside) = numbered_beside(rt, path, number, replaces)? {
            return Ok(beside);
        }
    }
    Err(FileFault::Beside(Reason::Taken))
}

/// Removes a new file, if it is there. Reports one that can't be removed.
pub(crate) fn remove_new<R: Files + AllocGlobal, L: Listener>(
    rt: &R,
    path: &str,
    listener: &mut L,
) {
    if let Err(error) = fs::remove_file(rt, path) {
        if error.kind() != ErrorKind::NotFound {
            let reason = Reason::of(error.kind()).text();
            let told = note(rt.alloc(), path).filled(NOT_REMOVED, &[reason.into()]);
            tell_made(listener, told);
        }
    }
}

/// Gives a new file the owner, the group and the permissions of an old one. None if it can't belong to that owner.
fn take_over<R: Files>(
    rt: &R,
    new: &Beside<R::File>,
    old: &Metadata,
) -> Result<Option<()>, FileFault> {
    let about = new.file.metadata().map_err(beside_fault)?;
    if (old.uid(), old.gid()) != (about.uid(), about.gid()) {
        let given = chown(rt, new.path.as_str(), Some(old.uid()), Some(old.gid()));
        if given.is_err() && old.uid() != about.uid() {
            return Ok(None);
        }
        given.map_err(|_| FileFault::Beside(Reason::Group))?;
    }
    new.file
        .set_permissions(old.permissions())
        .map_err(beside_fault)?;
    Ok(Some(()))
}

/// Creates a file beside an old one that can be written, to replace it.
fn new_for<R: Files + AllocGlobal, L: Listener>(
    rt: &R,
    path: &str,
    old: &Metadata,
    listener: &mut L,
) -> Result<Writing<R::File>, FileFault> {
    File::options()
        .write(true)
        .open(rt, path)
        .map_err(output_fault)?;
    if old.nlink() > 1 {
        return Ok(Writing::InPlace(InPlace::OtherNames));
    }
    let beside = new_beside(rt, path, Replaces::File)?;
    let taken = take_over(rt, &beside, old);
    if let Ok(Some(())) = taken {
        return Ok(Writing::Beside(beside));
    }
    remove_new(rt, beside.path.as_str(), listener);
    taken?;
    Ok(Writing::InPlace(InPlace::OtherOwner))
}

/// Creates a file to replace the one at a path, or where a link there leads.
pub(crate) fn new_file<R: Files + AllocGlobal, L: Listener>(
    rt: &R,
    path: &str,
    listener: &mut L,
) -> Result<Written<R::File>, FileFault> {
    let Target { path, place } = target_of(rt, path)?;
    let writing = match place {
        Place::Nothing => Writing::Beside(new_beside(rt, path.as_str(), Replaces::Nothing)?),
        Place::File(old) => new_for(rt, path.as_str(), &old, listener)?,
        Place::Other => Writing::InPlace(InPlace::NotAFile),
    };
    Ok(Written {
        target: path,
        writing,
    })
}

fn write_whole<F: Write>(file: &mut F, bytes: &[u8]) -> Result<(), FileFault> {
    match send_bytes(file, bytes) {
        Ok(()) => Ok(()),
        Err(reason) => Err(FileFault::Output(reason)),
    }
}

/// Writes a file beside another, forces it onto the disk, and moves it to that one's place.
fn move_in_place<R: Files>(
    rt: &R,
    beside: &mut Beside<R::File>,
    path: &str,
    bytes: &[u8],
) -> Result<(), FileFault> {
    write_whole(&mut beside.file, bytes)?;
    beside.file.sync_all().map_err(output_fault)?;
    fs::rename(rt, beside.path.as_str(), path).map_err(output_fault)
}

/// Moves a file beside another to that one's place, or removes it.
fn replace_by<R: Files + AllocGlobal, L: Listener>(
    rt: &R,
    mut beside: Beside<R::File>,
    path: &str,
    bytes: &[u8],
    listener: &mut L,
) -> Result<(), FileFault> {
    report_taken(rt.alloc(), path, beside.number, listener);
    let moved = move_in_place(rt, &mut beside, path, bytes);
    if moved.is_err() {
        remove_new(rt, beside.path.as_str(), listener);
    }
    moved
}

/// Writes these bytes to a file in place.
fn overwrite<R: Files>(rt: &R, path: &str, bytes: &[u8]) -> Result<(), FileFault> {
    write_whole(&mut fs::create(rt, path).map_err(output_fault)?, bytes)
}

/// Writes these bytes to a file, which it creates or empties.
///
/// If nothing or a regular file is there, the bytes are written beside it and then moved there, so that the old file stays until all of
/// them are written. If no file can be created beside it, or it has other names or another owner, it is emptied and written.
pub fn write_bytes<R: Files + AllocGlobal, L: Listener>(
    rt: &R,
    path: &str,
    bytes: &[u8],
    listener: &mut L,
) -> Result<(), FileFault> {
    let written = match new_file(rt, path, listener) {
        Err(FileFault::Beside(_)) => return overwrite(rt, path, bytes),
        written => written?,
    };
    let Written { target, writing } = written;
    match writing {
        Writing::Beside(beside) => replace_by(rt, beside, target.as_str(), bytes, listener),
        Writing::InPlace(_) => overwrite(rt, path, bytes),
    }
}
