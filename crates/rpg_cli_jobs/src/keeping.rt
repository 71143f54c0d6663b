//! Files that a run writes beside their places, and what happens to them at its end.

ghost use Rattle.std.specs.Prelude.{◌≡◌, IfErr};
ghost use Rattle.rpg_cli_jobs.specs.Keeping.{IsOfFile, KeepsAnswer, disposition_of};

use rpg_cli_answers::{
    Answer, CommandStop, Listener, NamedFile, file_at, named, refuse_same_file, remark_made,
    report_placed,
};
use rpg_cli_files::{FileFault, Pending, Replaces};
use rpg_cli_text::TextWriter;
use rpg_cli_words::{FileArgument, SameFile, Shared};
use rpg_engine::{JobEnd, Report};
use std::alloc::{AllocError, Global};
use std::rt::Files;

/// The files that a run writes beside their places; none for files that it writes in place, or doesn't write.
#[derive(Drop)]
pub struct Kept<'a> {
    pub(crate) print: Option<Pending<'a>>,
    pub(crate) disk: Option<Pending<'a>>,
}

/// What happens to new files.
#[derive(Clone, Copy)]
pub(crate) enum Disposition {
    /// They are moved to their places.
    Placed,
    /// They are left beside them.
    Left,
    /// They are removed, since no job has written them.
    Removed,
}

/// Returns what happens to the new files of a run. They are moved to their places only at the end of a job, not at a halt.
fn end_of_files(ran: &Result<Report, CommandStop>) -> Disposition
    ensures { result ≡ disposition_of ran.now }
{
    match ran {
        Ok(report) => match report.ending {
            JobEnd::EndOfJob => Disposition::Placed,
            JobEnd::Halt(_) => Disposition::Left,
        },
        Err(CommandStop::Job { .. }) => Disposition::Left,
        Err(_) => Disposition::Removed,
    }
}

/// Moves a new file, if there is one, to its place.
fn put_in_place<R: Files>(rt: &R, file: &Option<Pending<'_>>) -> Result<(), FileFault> {
    match file {
        Some(pending) => pending.put_in_place(rt),
        None => Ok(()),
    }
}

/// Returns the message about a file that stays as it was: what became of it, and where its part is.
fn left_message(
    alloc: Global,
    argument: FileArgument,
    file: &Pending<'_>,
    part: &str,
) -> Result<String, AllocError> {
    let sentence = match file.replaces() {
        Replaces::Nothing => "{} is not made; what this run wrote is in {}",
        Replaces::File => "{} is left as it was; what this run wrote is in {}",
    };
    let mut out = TextWriter::new(alloc);
    out.fill_two(sentence, argument.name(), part.as_bytes());
    out.finish()
}

/// Leaves a new file, if there is one, beside its place, and reports where.
fn leave_part<R: Files + AllocGlobal, L: Listener>(
    rt: &R,
    argument: FileArgument,
    file: &Option<Pending<'_>>,
    listener: &mut L,
) {
    if let Some(pending) = file {
        let part = pending.leave_part(rt);
        let message = left_message(rt.alloc(), argument, pending, part);
        remark_made(listener, file_at(argument, pending.place()), message);
    }
}

/// Rejects a part that would replace the file of another argument.
fn refuse_part<R: Files>(
    rt: &R,
    argument: FileArgument,
    file: &Option<Pending<'_>>,
    others: &[NamedFile],
) -> Result<(), SameFile> {
    let Some(pending) = file else {
        return Ok(());
    };
    match refuse_same_file(NamedFile::at(rt, argument, pending.part()), others) {
        Ok(()) => Ok(()),
        Err(same) => Err(SameFile {
            shared: Shared::Part,
            ..same
        }),
    }
}

/// Whether two new files have the same place, or the part of one goes to the other's place.
fn shared_place<R: Files + AllocGlobal>(
    rt: &R,
    print: &Pending<'_>,
    disk: &Pending<'_>,
) -> Result<Option<SameFile>, FileFault> {
    let (earlier, written, shared) = if print.goes_to(rt, disk.place())? {
        (FileArgument::Print, FileArgument::Disk, Shared::File)
    } else if print.goes_to(rt, disk.part())? {
        (FileArgument::Print, FileArgument::Disk, Shared::Part)
    } else if disk.goes_to(rt, print.part())? {
        (FileArgument::Disk, FileArgument::Print, Shared::Part)
    } else {
        return Ok(None);
    };
    Ok(Some(SameFile {
        earlier,
        written,
        shared,
    }))
}

/// Removes a new file, if there is one.
fn remove<R: Files + AllocGlobal, L: Listener>(
    rt: &R,
    file: &Option<Pending<'_>>,
    listener: &mut L,
) {
    if let Some(pending) = file {
        pending.discard(rt, listener);
    }
}

impl<'a> Kept<'a> {
    pub fn new() -> Self {
        Kept {
            print: None,
            disk: None,
        }
    }

    /// Rejects new files that would replace one another, or the file of another argument.
    pub(crate) fn refuse_shared<R: Files + AllocGlobal>(
        &self,
        rt: &R,
        others: &[NamedFile],
    ) -> Result<(), CommandStop> {
        refuse_part(rt, FileArgument::Print, &self.print, others)?;
        refuse_part(rt, FileArgument::Disk, &self.disk, others)?;
        let (Some(print), Some(disk)) = (&self.print, &self.disk) else {
            return Ok(());
        };
        match named(FileArgument::Disk, shared_place(rt, print, disk))? {
            None => Ok(()),
            Some(same) => Err(CommandStop::SameFile(same)),
        }
    }

    /// Moves the new files to their places, the print file first. If one can't be moved, it and the next one are left beside.
    fn put_all<R: Files + AllocGlobal, L: Listener>(
        &self,
        rt: &R,
        listener: &mut L,
    ) -> Result<(), Answer>
        ensures { IfErr result IsOfFile }
    {
        if let Err(fault) = put_in_place(rt, &self.print) {
            self.leave_all(rt, listener);
            return Err(Answer::File {
                argument: FileArgument::Print,
                fault,
            });
        }
        if let Err(fault) = put_in_place(rt, &self.disk) {
            report_placed(rt.alloc(), FileArgument::Print, &self.print, listener);
            leave_part(rt, FileArgument::Disk, &self.disk, listener);
            return Err(Answer::File {
                argument: FileArgument::Disk,
                fault,
            });
        }
        Ok(())
    }

    fn leave_all<R: Files + AllocGlobal, L: Listener>(&self, rt: &R, listener: &mut L) {
        leave_part(rt, FileArgument::Print, &self.print, listener);
        leave_part(rt, FileArgument::Disk, &self.disk, listener);
    }

    /// Finishes the new files as the end of their run requires, reports those that are left beside their places, and returns the answer of
    /// the run.
    ///
    /// The answer differs only if a new file can't be moved to its place.
    pub fn finish<R: Files + AllocGlobal, L: Listener>(
        &self,
        rt: &R,
        ran: Result<Report, CommandStop>,
        listener: &mut L,
    ) -> Result<Report, CommandStop>
        ensures { KeepsAnswer ran result }
    {
        match end_of_files(&ran) {
            Disposition::Placed => {
                if let Err(answer) = self.put_all(rt, listener) {
                    return Err(CommandStop::Answer(answer));
                }
            }
            Disposition::Left => self.leave_all(rt, listener),
            Disposition::Removed => {
                remove(rt, &self.print, listener);
                remove(rt, &self.disk, listener);
            }
        }
        ran
    }
}
