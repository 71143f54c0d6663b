//! Runs over any readers and writers.

ghost use Rattle.std.specs.Prelude.{◌-◌, ◌^◌, ◌<◌};
ghost use Rattle.rpg_cli_jobs.specs.Flushing.{Flushes};
ghost use Rattle.rpg_cli_jobs.specs.Running.{AnswersRun, AnswersRunOf, AnswersWhoseFault};
ghost use Rattle.rpg_engine.specs.Devices.{CanCountFaults};
ghost use Rattle.rpg_engine.specs.Running.{RunsProgram};
ghost use Rattle.rpg_files.specs.Counting.{faults_of};
ghost use Rattle.rpg_meaning.specs.Sources.Running.{RunsSource};

use rpg_cli_answers::Answer;
use rpg_cli_files::flush_device;
use rpg_cli_words::FileArgument;
use rpg_engine::{Readers, Report, Verified, Watcher, Writers, watch_program};
use rpg_meaning::{CompiledSource, run_source};
use std::alloc::Global;
use std::io::{Read, Write};

/// Flushes the writers after a run that gave a report, the printer first.
fn flushed<P: Write, D: Write>(
    report: Report,
    writers: &mut Writers<P, D>,
) -> Result<Report, Answer>
    requires printer { faults_of writers.old.printer < 2 ^ 64 - 1 }
    requires disk { faults_of writers.old.disk < 2 ^ 64 - 1 }
    ensures { Flushes P.contents D.contents report result writers.old writers.new }
{
    if let Err(fault) = flush_device(&mut writers.printer) {
        return Err(Answer::File {
            argument: FileArgument::Print,
            fault,
        });
    }
    if let Err(fault) = flush_device(&mut writers.disk) {
        return Err(Answer::File {
            argument: FileArgument::Disk,
            fault,
        });
    }
    Ok(report)
}

/// Runs an accepted program over its inputs, then flushes the writers. A watcher looks at the job between its cycles. The answer is that of
/// the run, or of a file that couldn't be flushed after it.
fn run_over<I: Read, S: Read, P: Write, D: Write, W: Watcher>(
    alloc: Global,
    program: &Verified,
    date: &[u8],
    readers: &mut Readers<I, S>,
    writers: &mut Writers<P, D>,
    watcher: &mut W,
) -> Result<Report, Answer>
    requires { CanCountFaults readers.old writers.old }
    ensures runs { AnswersRun (RunsProgram I.remaining S.remaining P.contents D.contents program.now date.now readers writers) result }
    ensures faults { AnswersWhoseFault I.remaining S.remaining readers writers result }
{
    let ran = watch_program(alloc, program, date, readers, writers, watcher);
    let report = match ran {
        Ok(report) => report,
        Err(fault) => return Err(Answer::Run(fault)),
    };
    flushed(report, writers)
}

/// Runs a compiled source over its inputs, then flushes the writers. A watcher looks at the job between its cycles. The answer is that of
/// the run, or of a file that couldn't be flushed after it.
fn run_source_over<I: Read, S: Read, P: Write, D: Write, W: Watcher>(
    alloc: Global,
    source: &CompiledSource,
    date: &[u8],
    readers: &mut Readers<I, S>,
    writers: &mut Writers<P, D>,
    watcher: &mut W,
) -> Result<Report, Answer>
    requires { CanCountFaults readers.old writers.old }
    ensures runs { AnswersRun (RunsSource I.remaining S.remaining P.contents D.contents source.now date.now readers writers) result }
    ensures program { AnswersRun (RunsProgram I.remaining S.remaining P.contents D.contents source.now.program date.now readers writers) result }
    ensures faults { AnswersWhoseFault I.remaining S.remaining readers writers result }
{
    let ran = run_source(alloc, source, date, readers, writers, watcher);
    let report = match ran {
        Ok(report) => report,
        Err(fault) => return Err(Answer::Run(fault)),
    };
    flushed(report, writers)
}

/// What runs.
#[derive(Clone, Copy)]
pub enum Running<'a> {
    /// The program of an object file.
    Program(&'a Verified),
    /// A source, as the program that it compiles to.
    Source(&'a CompiledSource),
}

/// Runs a program or a source over its inputs, then flushes the writers.
pub fn run_counted<I: Read, S: Read, P: Write, D: Write, W: Watcher>(
    alloc: Global,
    running: Running<'_>,
    date: &[u8],
    readers: &mut Readers<I, S>,
    writers: &mut Writers<P, D>,
    watcher: &mut W,
) -> Result<Report, Answer>
    requires { CanCountFaults readers.old writers.old }
    ensures runs { AnswersRunOf I.remaining S.remaining P.contents D.contents running.entry date.now readers writers result }
    ensures faults { AnswersWhoseFault I.remaining S.remaining readers writers result }
{
    match running {
        Running::Program(program) => run_over(alloc, program, date, readers, writers, watcher),
        Running::Source(source) => run_source_over(alloc, source, date, readers, writers, watcher),
    }
}
