//! The commands that run an object program over its files, or compile a source and run it: what the arguments ask about a job's cycles is
//! reported, and where it halted.

use rpg_cli_answers::{
    Answer, CommandStop, Listener, Reasons, file_at, file_of, named, source_bytes,
};
use rpg_cli_diagnostics::FileName;
use rpg_cli_files::{RecordSource, begins_with, file_bytes};
use rpg_cli_halts::{
    HaltedCycle, HaltedRecord, HaltedSource, InputNames, LastRead, halt_diagnostic,
};
use rpg_cli_jobs::{
    Devices, Kept, Running, WantedFiles, devices_of, empty_files, open_files, program_of,
    report_wanted, run_counted, settle_date, source_files,
};
use rpg_cli_programs::{OwnSource, own_source, report_faults, report_object};
use rpg_cli_show_fields::SourceRows;
use rpg_cli_trace::{HaltedFile, JobNames, Looking};
use rpg_cli_warnings::deny_warnings;
use rpg_cli_words::{FileArgument, Request};
use rpg_engine::{
    Halt, InputFile, JobEnd, ObjectFault, Program, Readers, Report, Verified, Watcher, Writers,
    decode_object,
};
use rpg_files::{Counted, LastLine};
use rpg_meaning::CompiledSource;
use std::alloc::{AllocError, Global};
use std::cell::Cell;
use std::fs::OpenFile;
use std::io::{Printer, Read, Write};
use std::rt::{Clock, Env, Files};

/// How a run ended.
pub(crate) type Ended = Result<Report, CommandStop>;

/// What is run: a program, and the source that it was compiled from, if that is known.
#[derive(Clone, Copy)]
pub(crate) struct Runnable<'a> {
    pub program: &'a Verified,
    source: Option<&'a OwnSource<'a>>,
}

impl<'a> Runnable<'a> {
    /// Returns what runs, without its names.
    pub fn running(self) -> Running<'a> {
        match self.source {
            None => Running::Program(self.program),
            Some(source) => Running::Source(&source.compiled),
        }
    }

    /// Returns the cards of the source's rows.
    pub fn rows(self) -> Option<&'a SourceRows> {
        Some(&self.source?.rows)
    }

    /// Returns the source, for the diagnostic of a halt.
    pub fn halted(self) -> Option<HaltedSource<'a>> {
        let source = self.source?;
        Some(HaltedSource {
            file: source.file,
            text: source.compiled.text(),
            rows: &source.rows,
        })
    }
}

/// How a run ended, and what it read last.
#[derive(Drop)]
pub(crate) struct Ran {
    pub outcome: Ended,
    pub inputs: LastInputs,
}

/// Returns what was read last from an input. A line that halted the job before its end was read is read to its end.
fn last_input<F: Read + Drop, S: Read + Drop>(
    reader: Counted<RecordSource<F, S>>,
    is_bad: bool,
) -> LastInput {
    let LastLine { number, left } = reader.last();
    let mut source = reader.into_device();
    let left = if is_bad {
        source.read_line_end(left)
    } else {
        left
    };
    LastInput {
        bytes: source.into_last_bytes(),
        left,
        number,
    }
}

/// Whether a job halted at a record that no program accepts.
fn is_bad_record(ran: &Result<Report, Answer>) -> bool {
    match ran {
        Ok(report) => matches!(report.ending, JobEnd::Halt(Halt::BadRecord)),
        Err(_) => false,
    }
}

/// Runs a program or a source over its devices. If one of them fails, the reason comes with the answer.
pub(crate) fn run_devices<
    F: Read + Write + OpenFile + Drop,
    S: Read + Drop,
    P: Write + Drop,
    W: Watcher,
>(
    alloc: Global,
    running: Running<'_>,
    date: &[u8],
    devices: Devices<'_, F, S, P>,
    watcher: &mut W,
) -> Ran {
    let mut readers = Readers::new(devices.input, devices.secondary);
    let mut writers = Writers::new(devices.print, devices.disk);
    let ran = run_counted(alloc, running, date, &mut readers, &mut writers, watcher);
    let reasons = Reasons {
        input: readers.primary.device().fault(),
        secondary: readers.secondary.device().fault(),
        print: writers.printer.into_device().fault(),
        disk: writers.disk.into_device().fault(),
    };
    let is_bad = is_bad_record(&ran);
    Ran {
        outcome: match ran {
            Ok(report) => Ok(report),
            Err(answer) => Err(CommandStop::Job { answer, reasons }),
        },
        inputs: LastInputs {
            primary: last_input(readers.primary, is_bad),
            secondary: last_input(readers.secondary, is_bad),
        },
    }
}

/// A command that runs a program: the machine, the arguments, and who takes the diagnostics.
#[derive(Drop)]
pub(crate) struct Runs<'s, 'a, R, L> {
    pub rt: &'s R,
    pub request: &'s Request<'a>,
    pub listener: &'s mut L,
}

impl<'s, 'a, R: Files + Input + Print + AllocGlobal, L: Listener> Runs<'s, 'a, R, L> {
    pub fn of(rt: &'s R, request: &'s Request<'a>, listener: &'s mut L) -> Self {
        Runs {
            rt,
            request,
            listener,
        }
    }

    /// Opens the files of a run, empties the outputs, and runs the program over them.
    fn run_opened(
        &mut self,
        accepted: Result<Runnable<'_>, ObjectFault>,
        wanted: WantedFiles<'a>,
        kept: &mut Kept<'a>,
    ) -> Ended {
        let (rt, request) = (self.rt, self.request);
        let files = open_files(rt, request, wanted, kept, self.listener)?;
        empty_files(rt, request, &files, kept, self.listener)?;
        let room = request.most_bytes.map(Cell::new);
        let devices: Devices<'_, R::File, R::Reader, Printer<'_, R>> = devices_of(
            rt,
            files,
            room.as_ref(),
        );
        match accepted {
            Ok(runnable) => self.run_as_asked(runnable, devices),
            Err(fault) => Err(Answer::Object(fault).into()),
        }
    }

    /// Runs an accepted program over its files, and finishes those that are written beside their places.
    fn run_accepted(
        &mut self,
        accepted: Result<Runnable<'_>, ObjectFault>,
        wanted: WantedFiles<'a>,
    ) -> Ended {
        let mut kept = Kept::new();
        let ran = self.run_opened(accepted, wanted, &mut kept);
        kept.finish(self.rt, ran, self.listener)
    }

    /// Runs a compiled source over its files.
    pub fn run_own(&mut self, source: &OwnSource<'_>) -> Ended {
        let wanted = source_files(self.request, &source.compiled)?;
        let runnable = Runnable {
            program: source.compiled.program(),
            source: Some(source),
        };
        self.run_accepted(Ok(runnable), wanted)
    }

    /// Runs the object program in these bytes. Rules and date are checked after its files are opened, unless the arguments name a limit or
    /// keep files.
    fn run_object(&mut self, object: &[u8]) -> Ended {
        let (accepted, wanted) = program_of(self.rt.alloc(), self.request, object)?;
        let runnable = match &accepted {
            Ok(program) => Ok(Runnable {
                program,
                source: None,
            }),
            Err(fault) => Err(*fault),
        };
        self.run_accepted(runnable, wanted)
    }

    /// Runs the object program in these bytes, or the source that the arguments name, once it proves to be the object's.
    fn run_named(&mut self, object: &[u8]) -> Ended {
        match own_source(self.rt, self.request.own_source, object, self.listener)? {
            Some(source) => self.run_own(&source),
            None => self.run_object(object),
        }
    }

    /// Adds to the diagnostic for bytes that are no object program that the input is one.
    fn report_exchanged(&mut self, fault: ObjectFault) {
        let input = file_of(self.request, FileArgument::Input);
        if let ObjectFault::NotAnObject { offset: 0, .. } = fault {
            if begins_with(self.rt, input.path, b"RPGOBJ") == Some(true) {
                let remark = "this is an object program: are OBJ and INPUT exchanged?";
                self.listener.remark(input, remark);
            }
        }
    }

    /// Reports which file or date a program needs, or that its bound is over the limit, if that is the answer.
    pub fn report_wanted(&mut self, program: &Program, answer: Answer) {
        report_wanted(
            self.rt.alloc(),
            self.request,
            program,
            answer,
            self.listener,
        );
    }

    /// Reports what is wrong with the bytes of a rejected object program, or what it needs.
    fn report_refused(&mut self, object: &[u8], answer: Answer) {
        let alloc = self.rt.alloc();
        if let Answer::Object(fault) = answer {
            let file = file_of(self.request, FileArgument::Object);
            report_object(alloc, file, object, fault, self.listener);
            self.report_exchanged(fault);
        } else if let Ok(program) = decode_object(alloc, object) {
            self.report_wanted(&program, answer);
        }
    }

    /// Runs an object program over its files. Reports why it is rejected, or where its job halted.
    fn run_dated(&mut self) -> Ended {
        if let Some(same) = self.request.shared_stream() {
            return Err(same.into());
        }
        let path = self.request.file(FileArgument::Object);
        let object = named(FileArgument::Object, file_bytes(self.rt, path))?;
        let ran = self.run_named(&object);
        if let Err(CommandStop::Answer(answer)) = ran {
            self.report_refused(&object, answer);
        }
        ran
    }
}

/// Runs an object program over its files, on the date of the arguments or today's.
pub fn run_files<R: Clock + Env + Files + Input + Print + AllocGlobal, L: Listener>(
    rt: &R,
    request: &mut Request,
    listener: &mut L,
) -> Result<Answer, CommandStop> {
    settle_date(rt, request, listener)?;
    let mut runs = Runs::of(rt, request, listener);
    Ok(runs.run_dated()?.into())
}

impl<R: Files + Input + Print + AllocGlobal, L: Listener> Runs<'_, '_, R, L> {
    /// Runs a compiled source, unless a warning rejects it. The diagnostic of a halt has cards and names.
    fn run_compiled(&mut self, compiled: CompiledSource) -> Ended {
        let (alloc, file) = (self.rt.alloc(), file_of(self.request, FileArgument::Source));
        let warnings = self.request.warnings;
        deny_warnings(alloc, file, compiled.text(), warnings, self.listener)?;
        let source = OwnSource::of(alloc, file, compiled)?;
        let ran = self.run_own(&source);
        if let Err(CommandStop::Answer(answer)) = ran {
            self.report_wanted(source.compiled.program().program(), answer);
        }
        ran
    }

    /// Compiles a source and runs its program over its files, which are opened only if the source has no faults.
    fn go_dated(&mut self) -> Ended {
        if let Some(same) = self.request.shared_stream() {
            return Err(same.into());
        }
        let (alloc, file) = (self.rt.alloc(), file_of(self.request, FileArgument::Source));
        let text = named(FileArgument::Source, source_bytes(self.rt, file.path))?;
        match CompiledSource::new(alloc, text, self.request.allowance) {
            Ok(compiled) => self.run_compiled(compiled),
            Err((text, fault)) => {
                report_faults(
                    alloc,
                    file,
                    &text,
                    self.request.warnings.most,
                    self.listener,
                );
                Err(Answer::Source(fault).into())
            }
        }
    }
}

/// Compiles a source and runs its program over its files, on the date of the arguments or today's.
pub fn go_files<R: Clock + Env + Files + Input + Print + AllocGlobal, L: Listener>(
    rt: &R,
    request: &mut Request,
    listener: &mut L,
) -> Result<Answer, CommandStop> {
    settle_date(rt, request, listener)?;
    let mut runs = Runs::of(rt, request, listener);
    Ok(runs.go_dated()?.into())
}

/// Returns the end of a job at one of whose records a control field went down.
fn unsorted(ran: Ended, record: u64) -> Ended {
    match ran? {
        Report {
            ending: JobEnd::EndOfJob,
            ..
        } => Err(CommandStop::Job {
            answer: Answer::Unsorted { record },
            reasons: Reasons::NONE,
        }),
        halted => Ok(halted),
    }
}

impl<R: Files + Input + Print + AllocGlobal, L: Listener> Runs<'_, '_, R, L> {
    /// Runs a program or a source over its devices. What the arguments ask about its cycles is reported during the run and after it, and
    /// where it halted.
    pub fn run_as_asked(
        &mut self,
        runnable: Runnable<'_>,
        devices: Devices<'_, R::File, R::Reader, Printer<'_, R>>,
    ) -> Ended {
        let (alloc, request) = (self.rt.alloc(), self.request);
        let (running, date) = (runnable.running(), request.date_text().as_bytes());
        let names = JobNames {
            program: runnable.program,
            primary: file_of(request, FileArgument::Input),
            secondary: secondary_of(request),
            source: runnable.rows(),
        };
        let mut looking = Looking::new(alloc, request.looks, names, self.listener);
        let Ran { outcome, inputs } = run_devices(alloc, running, date, devices, &mut looking);
        let fallen = looking.finish();
        let file = looking.into_halted();
        if let Ok(report) = outcome {
            self.report_halt(runnable, report, &inputs, &file);
        }
        match fallen {
            Some(record) if request.looks.is_sorted => unsorted(outcome, record),
            _ => outcome,
        }
    }
}

/// What was read last from an input.
#[derive(Drop)]
pub(crate) struct LastInput {
    pub bytes: Vec<u8>,
    /// How many of the bytes begin with the last line; none at the end of the input.
    pub left: usize,
    /// How many records were read.
    pub number: u32,
}

/// What was read last from both inputs.
#[derive(Drop)]
pub(crate) struct LastInputs {
    pub primary: LastInput,
    pub secondary: LastInput,
}

impl LastInputs {
    /// Returns what was read last from the file whose record a job had. A record that no program accepts isn't counted.
    fn of<'a>(&'a self, file: &'a HaltedFile, halt: Halt) -> LastRead<'a> {
        let input = match file.file {
            InputFile::Primary => &self.primary,
            InputFile::Secondary => &self.secondary,
        };
        let is_bad = matches!(halt, Halt::BadRecord);
        LastRead {
            file: file.file,
            bytes: &input.bytes,
            left: input.left,
            number: u64::from(input.number) + u64::from(is_bad),
            value: &file.value,
        }
    }
}

/// Returns the secondary file, if the arguments name one.
pub(crate) fn secondary_of<'a>(request: &Request<'a>) -> Option<FileName<'a>> {
    Some(file_at(FileArgument::Secondary, request.secondary?))
}

/// Returns the halt of a report, if its job halted.
fn halt_of(report: Report) -> Option<HaltedCycle> {
    match report.ending {
        JobEnd::EndOfJob => None,
        JobEnd::Halt(halt) => Some(HaltedCycle {
            halt,
            cycles: report.cycles,
            place: report.place,
        }),
    }
}

/// Reports a halt, with the record if that shows more.
fn report_halted<'a, L: Listener>(
    alloc: Global,
    request: &Request<'a>,
    runnable: Runnable<'a>,
    halted: HaltedCycle,
    last: LastRead<'_>,
    listener: &mut L,
) -> Result<(), AllocError> {
    let names = InputNames {
        primary: file_of(request, FileArgument::Input),
        secondary: secondary_of(request),
    };
    let (program, source) = (runnable.program, runnable.halted());
    if !halted.needs_record(program) {
        let told = halt_diagnostic(alloc, names, program, halted, None, source)?;
        listener.tell(&told);
        return Ok(());
    }
    let record = HaltedRecord::of(alloc, program, last)?;
    let told = halt_diagnostic(alloc, names, program, halted, Some(&record), source)?;
    listener.tell(&told);
    Ok(())
}

impl<R: AllocGlobal, L: Listener> Runs<'_, '_, R, L> {
    /// Reports where a job halted, if it did, with the record that it had.
    pub fn report_halt(
        &mut self,
        runnable: Runnable<'_>,
        report: Report,
        inputs: &LastInputs,
        file: &Option<HaltedFile>,
    ) {
        if let (Some(halted), Some(file)) = (halt_of(report), file) {
            let last = inputs.of(file, halted.halt);
            let alloc = self.rt.alloc();
            let reported = report_halted(
                alloc,
                self.request,
                runnable,
                halted,
                last,
                self.listener,
            );
            if reported.is_err() {
                self.listener.lose();
            }
        }
    }
}
