//! Files of a job that are written beside their places, and moved there once they are complete.

use crate::files::{FileFault, identity_at, output_fault, output_file};
use crate::listener::Listener;
use crate::replacing::{
    Beside, Replaces, Target, Writing, Written, is_free, name_beside, new_file, remove_new,
    report_taken, target_of,
};
use crate::streams::Opened;
use std::alloc::Global;
use std::fs;
use std::rt::Files;

/// A new file that is written beside its place.
#[derive(Drop)]
pub struct Pending<'a> {
    /// What the arguments call its place.
    place: &'a str,
    /// Where it goes when it is complete: the place, or where a link there leads. The file there is kept until then.
    target: String,
    /// Where it goes if it is incomplete.
    part: String,
    new: String,
    /// The number in the new file's name.
    number: u32,
    replaces: Replaces,
}

/// A file to be written.
#[derive(Drop)]
pub struct KeptFile<'a, F> {
    pub opened: Opened<F>,
    /// None if the file is written in place.
    pub pending: Option<Pending<'a>>,
}

/// Opens a file for writing: a new one beside its place, or the existing one if that has nothing to lose, or has another name or another
/// owner.
pub fn kept_file<'a, R: Files + AllocGlobal, L: Listener>(
    rt: &R,
    place: &'a str,
    listener: &mut L,
) -> Result<KeptFile<'a, R::File>, FileFault> {
    let Written { target, writing } = new_file(rt, place, listener)?;
    let beside = match writing {
        Writing::Beside(beside) => beside,
        Writing::InPlace(why) => {
            return Ok(KeptFile {
                opened: Opened::InPlace(output_file(rt, place)?, why),
                pending: None,
            });
        }
    };
    let Beside {
        file,
        path,
        number,
        replaces,
    } = beside;
    let Ok(part) = format!(in rt.alloc(); "{target}.part") else {
        remove_new(rt, path.as_str(), listener);
        return Err(FileFault::NoMemory);
    };
    Ok(KeptFile {
        opened: Opened::New(file),
        pending: Some(Pending {
            place,
            target,
            part,
            new: path,
            number,
            replaces,
        }),
    })
}

impl<'a> Pending<'a> {
    pub fn place(&self) -> &'a str {
        self.place
    }

    /// Returns what the file replaces when it is complete.
    pub fn replaces(&self) -> Replaces {
        self.replaces
    }

    /// Returns where the file goes if it is incomplete.
    pub fn part(&self) -> &str {
        self.part.as_str()
    }

    /// Reports what other runs left beside the place.
    pub fn report_taken<L: Listener>(&self, alloc: Global, listener: &mut L) {
        report_taken(alloc, self.target.as_str(), self.number, listener);
    }

    /// Moves the file to its place, and replaces what was there, unless this fails.
    pub fn put_in_place<R: Files>(&self, rt: &R) -> Result<(), FileFault> {
        fs::rename(rt, self.new.as_str(), self.target.as_str()).map_err(output_fault)
    }

    /// Leaves the file as a part, replacing an older one, and returns where it is.
    ///
    /// It stays where it was written if the part's name belongs to anything but a regular file.
    pub fn leave_part<R: Files>(&self, rt: &R) -> &str {
        let part = self.part.as_str();
        if is_free(rt, part) && fs::rename(rt, self.new.as_str(), part).is_ok() {
            part
        } else {
            self.new.as_str()
        }
    }

    /// Removes the file, if it is there. Reports it by its name if it can't be removed.
    pub fn discard<R: Files + AllocGlobal, L: Listener>(&self, rt: &R, listener: &mut L) {
        remove_new(rt, self.new.as_str(), listener);
    }

    /// Whether a path leads to the file's place, where there may be no file yet: the new one is found beside it.
    pub fn goes_to<R: Files + AllocGlobal>(&self, rt: &R, path: &str) -> Result<bool, FileFault> {
        let Target { path, .. } = target_of(rt, path)?;
        let beside = name_beside(rt.alloc(), path.as_str(), self.number)?;
        let own = identity_at(rt, self.new.as_str());
        Ok(own.is_some() && identity_at(rt, beside.as_str()) == own)
    }
}
