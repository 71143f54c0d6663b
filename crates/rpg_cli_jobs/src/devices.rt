//! The files of a run: opened, compared with one another, emptied, and read and written as devices.

use crate::keeping::Kept;
use crate::limits::WantedFiles;
use rpg_cli_answers::{
    Answer, CommandStop, Listener, NamedFile, named, refuse_replacing, refuse_same_file,
    report_in_place, system_path,
};
use rpg_cli_files::{
    KeptFile, LineTarget, Opened, Pending, RecordSource, input_file, kept_file, lines, output_file,
    records,
};
use rpg_cli_words::{FileArgument, Request, is_standard};
use std::cell::Cell;
use std::io::Printer;
use std::rt::Files;

/// The open files of a run. Output files aren't emptied yet.
#[derive(Drop)]
pub struct RunFiles<F> {
    input: Opened<F>,
    secondary: Opened<F>,
    print: Opened<F>,
    disk: Opened<F>,
}

/// Opens the inputs, then the outputs. Those that are written beside their places go into `kept`.
pub fn open_files<'a, R: Files + AllocGlobal, L: Listener>(
    rt: &R,
    request: &Request<'a>,
    wanted: WantedFiles<'a>,
    kept: &mut Kept<'a>,
    listener: &mut L,
) -> Result<RunFiles<R::File>, Answer> {
    let keeps = request.keeps;
    let (print, disk) = (
        (FileArgument::Print, request.print),
        (FileArgument::Disk, wanted.disk),
    );
    Ok(RunFiles {
        input: read_file(rt, FileArgument::Input, request.input)?,
        secondary: read_file(rt, FileArgument::Secondary, wanted.secondary)?,
        print: written_file(rt, keeps, print, &mut kept.print, listener)?,
        disk: written_file(rt, keeps, disk, &mut kept.disk, listener)?,
    })
}

/// Opens a file for reading, if there is one.
fn read_file<R: Files>(
    rt: &R,
    argument: FileArgument,
    path: Option<&str>,
) -> Result<Opened<R::File>, Answer> {
    match path {
        None => Ok(Opened::Nothing),
        Some(path) if is_standard(path) => Ok(Opened::Standard),
        Some(path) => Ok(Opened::File(named(argument, input_file(rt, path))?)),
    }
}

/// Opens the file of an argument for writing, if there is one, or creates a new one beside it, which goes into `new`.
fn written_file<'a, R: Files + AllocGlobal, L: Listener>(
    rt: &R,
    keeps: bool,
    output: (FileArgument, Option<&'a str>),
    new: &mut Option<Pending<'a>>,
    listener: &mut L,
) -> Result<Opened<R::File>, Answer> {
    let (argument, path) = output;
    match path {
        None => Ok(Opened::Nothing),
        Some(path) if is_standard(path) => Ok(Opened::Standard),
        Some(path) if keeps => {
            let KeptFile { opened, pending } = named(argument, kept_file(rt, path, listener))?;
            *new = pending;
            Ok(opened)
        }
        Some(path) => Ok(Opened::File(named(argument, output_file(rt, path))?)),
    }
}

/// Returns the files that a run reads: the object, its source and both inputs.
fn read_files<R: Files>(
    rt: &R,
    request: &Request,
    files: &RunFiles<R::File>,
) -> Result<[NamedFile; 4], Answer> {
    let (stream, program) = ("/dev/stdin", request.program());
    Ok([
        NamedFile::at(rt, program, system_path(request.file(program))),
        NamedFile::named(rt, FileArgument::OwnSource, request.own_source),
        NamedFile::opened(rt, FileArgument::Input, &files.input, stream)?,
        NamedFile::opened(rt, FileArgument::Secondary, &files.secondary, stream)?,
    ])
}

/// Refuses to empty or replace a file that another argument names too, or a program.
fn refuse_shared<R: Files + AllocGlobal>(
    rt: &R,
    request: &Request,
    files: &RunFiles<R::File>,
    kept: &Kept<'_>,
) -> Result<(), CommandStop> {
    let stream = "/dev/stdout";
    let [object, source, primary, secondary] = read_files(rt, request, files)?;
    let print = NamedFile::written(rt, FileArgument::Print, &files.print, &kept.print, stream)?;
    let disk = NamedFile::written(rt, FileArgument::Disk, &files.disk, &kept.disk, stream)?;
    let all = [object, source, primary, secondary, print, disk];
    refuse_same_file(print, &all[..4])?;
    refuse_same_file(disk, &all[..5])?;
    kept.refuse_shared(rt, &all)?;
    refuse_program(rt, FileArgument::Print, request.print, &files.print)?;
    refuse_program(rt, FileArgument::Disk, request.disk, &files.disk)
}

/// Refuses to replace a program by what a run writes.
fn refuse_program<R: Files>(
    rt: &R,
    argument: FileArgument,
    path: Option<&str>,
    file: &Opened<R::File>,
) -> Result<(), CommandStop> {
    match file {
        Opened::Nothing | Opened::Standard => Ok(()),
        _ => Ok(refuse_replacing(rt, argument, path, false)?),
    }
}

/// Empties the output files, unless another argument names one of them, or it isn't replaced. Reports one that is written in place, though
/// it was to be kept, and what other runs left beside it.
pub fn empty_files<R: Files + AllocGlobal, L: Listener>(
    rt: &R,
    request: &Request,
    files: &RunFiles<R::File>,
    kept: &Kept<'_>,
    listener: &mut L,
) -> Result<(), CommandStop> {
    refuse_shared(rt, request, files, kept)?;
    for (argument, file, new) in [
        (FileArgument::Print, &files.print, &kept.print),
        (FileArgument::Disk, &files.disk, &kept.disk),
    ] {
        if let Some(new) = new {
            new.report_taken(rt.alloc(), listener);
        }
        report_in_place(rt.alloc(), request, argument, file, listener);
        named(argument, file.empty())?;
    }
    Ok(())
}

/// What a run reads and writes.
#[derive(Drop)]
pub struct Devices<'r, F: Drop, S: Drop, P: Drop> {
    pub input: RecordSource<F, S>,
    pub secondary: RecordSource<F, S>,
    pub print: LineTarget<'r, F, P>,
    pub disk: LineTarget<'r, F, P>,
}

/// Returns the readers and writers of a run's files. All that is written may have as many bytes as there is room for.
pub fn devices_of<'r, R: Files + Input + Print + AllocGlobal>(
    rt: &'r R,
    files: RunFiles<R::File>,
    room: Option<&'r Cell<u64>>,
) -> Devices<'r, R::File, R::Reader, Printer<'r, R>> {
    let alloc = rt.alloc();
    Devices {
        input: records(rt, files.input).keeping(alloc),
        secondary: records(rt, files.secondary).keeping(alloc),
        print: lines(rt, files.print, room),
        disk: lines(rt, files.disk, room),
    }
}
