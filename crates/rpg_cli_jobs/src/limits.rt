//! Whether a program may run: its date, its rules and its bound; the files and the date that it needs, and the diagnostics if the arguments
//! don't name them.

ghost use Rattle.std.specs.Prelude.{◌≡◌, Ok, IfErr, IfOk};
ghost use Rattle.rpg_cli_jobs.specs.Wanted.{IsReady, StopsRun, source_answer, files_answer, path_answer};
ghost use Rattle.rpg_cli_jobs.specs.Limits as words;

use crate::dating::{has_date, is_valid};
use rpg_cli_answers::{Answer, Listener, file_of, tell_made};
use rpg_cli_diagnostics::{Diagnostic, Draft, FileName, Made};
use rpg_cli_values::DateArgument;
use rpg_cli_words::Request;
use rpg_engine::{
    ObjectFault, Program, RunFault, Verified, accept, decode_object, has_disk_file,
    has_secondary_file,
};
use rpg_meaning::CompiledSource;
use std::alloc::Global;

/// A program that is accepted, or why it isn't.
pub type Accepted = Result<Verified, ObjectFault>;

/// Checks whether an accepted program may run: first the date, then its bound.
fn keeps_bound(program: &Verified, date: Option<DateArgument<'_>>, most: u64) -> Result<(), Answer>
    ensures { result ≡ words.bound_answer program.now date.entry most }
{
    if !is_valid(date) {
        return Err(Answer::Run(RunFault::BadDate));
    }
    if program.bound() > most {
        return Err(Answer::OverLimit {
            bound: program.bound(),
        });
    }
    Ok(())
}

/// Checks whether a program may run: first the rules and the date, then its bound.
fn keeps_limit(accepted: &Accepted, date: Option<DateArgument>, most: u64) -> Result<(), Answer>
    ensures { result ≡ words.limit_answer accepted.now date.entry most }
{
    match accepted {
        Err(fault) => Err(Answer::Object(*fault)),
        Ok(program) => keeps_bound(program, date, most),
    }
}

/// Returns the limit on a program's bound, if that is checked before the other files are opened.
fn limit_of(request: &Request) -> Option<u64>
    ensures { result ≡ words.limit_of request.now }
{
    match request.most {
        None if request.keeps => Some(u64::MAX),
        most => most,
    }
}

/// Checks whether a program may run, if this must happen before the other files are opened.
fn keeps_asked_limit(accepted: &Accepted, request: &Request) -> Result<(), Answer>
    ensures { result ≡ words.asked_answer (words.limit_of request.now) accepted.now request.now.date }
{
    match limit_of(request) {
        None => Ok(()),
        Some(most) => keeps_limit(accepted, request.date, most),
    }
}

/// Returns the program of a run, accepted or rejected, and the files that it needs besides those of every run.
///
/// The object is decoded first; a disk file, a secondary file or a date that it needs and the arguments don't name is reported. If the
/// arguments name a limit, or output files keep their contents, the rules, the date and the limit are checked next, before the other files.
pub fn program_of<'a>(
    alloc: Global,
    request: &Request<'a>,
    object: &[u8],
) -> Result<(Accepted, WantedFiles<'a>), Answer>
    ensures ready { IfOk result (λ ready. IsReady object.now request.now ready.0 ready.1) }
    ensures stops { IfErr result (StopsRun object.now request.now) }
{
    let program = decode_object(alloc, object)?;
    let wanted = WantedFiles::of(&program, request)?;
    let accepted = accept(alloc, program);
    keeps_asked_limit(&accepted, request)?;
    Ok((accepted, wanted))
}

/// Returns the files that the program of a compiled source needs besides those of every run. A missing date, the date and the limit are
/// checked next, as for an object.
pub fn source_files<'a>(
    request: &Request<'a>,
    compiled: &CompiledSource,
) -> Result<WantedFiles<'a>, Answer>
    ensures { result ≡ source_answer compiled.now.program request.now }
{
    let program = compiled.program();
    let wanted = WantedFiles::of(program.program(), request)?;
    if let Some(most) = limit_of(request) {
        keeps_bound(program, request.date, most)?;
    }
    Ok(wanted)
}

/// Returns the path of a file that the program has. A path that the program doesn't need is ignored.
fn wanted_path<'a>(
    is_wanted: bool,
    named: Option<&'a str>,
    missing: Answer,
) -> Result<Option<&'a str>, Answer>
    ensures { result ≡ path_answer is_wanted named.entry missing }
{
    match named {
        _ if !is_wanted => Ok(None),
        None => Err(missing),
        named => Ok(named),
    }
}

/// The files that only some runs have, if the program needs them.
#[derive(Clone, Copy)]
pub struct WantedFiles<'a> {
    pub secondary: Option<&'a str>,
    pub disk: Option<&'a str>,
}

impl<'a> WantedFiles<'a> {
    /// Returns those that the arguments name. The disk file is checked first, then the secondary file, and the date last.
    pub(crate) fn of(program: &Program, request: &Request<'a>) -> Result<WantedFiles<'a>, Answer>
        ensures { result ≡ files_answer program.now request.now }
    {
        let disk = wanted_path(has_disk_file(program), request.disk, Answer::DiskFileWanted)?;
        let (has_secondary, missing) = (has_secondary_file(program), Answer::SecondaryFileWanted);
        let secondary = wanted_path(has_secondary, request.secondary, missing)?;
        has_date(program, request.date)?;
        Ok(WantedFiles { secondary, disk })
    }
}

const DISK: &str = "the program writes a disk file of {} columns: name it with --disk FILE";

const SECONDARY: &str =
    "the program reads a secondary file of {} columns: name it with --secondary FILE";

const DATE: &str = "the program uses the date: give --date today, or six digits, as --date 112376";

/// Returns the diagnostic for a file or a date that a program needs.
fn wanted_diagnostic<'a>(
    alloc: Global,
    file: FileName<'a>,
    program: &Program,
    answer: Answer,
) -> Made<Diagnostic<'a>> {
    let (sentence, length) = match answer {
        Answer::DiskFileWanted => (DISK, program.rows().disk_length),
        Answer::DateWanted => (DATE, 0),
        _ => (SECONDARY, program.rows().secondary_length),
    };
    Draft::error(alloc, file.whole()).filled(sentence, &[length.into()])
}

const LIMIT: &str = "a cycle may take {} {}, more than --most {}";

fn limit_diagnostic(alloc: Global, file: FileName, bound: u64, most: u64) -> Made<Diagnostic> {
    let steps = if bound == 1 { "step" } else { "steps" };
    let pieces = [bound.into(), steps.into(), most.into()];
    Draft::error(alloc, file.whole()).filled(LIMIT, &pieces)
}

/// Reports which file or date a program needs but the arguments don't name, or that its bound is over their limit, if that is the answer.
pub fn report_wanted<L: Listener>(
    alloc: Global,
    request: &Request,
    program: &Program,
    answer: Answer,
    listener: &mut L,
) {
    let file = file_of(request, request.program());
    match (answer, request.most) {
        (Answer::DiskFileWanted | Answer::SecondaryFileWanted | Answer::DateWanted, _) => {
            tell_made(listener, wanted_diagnostic(alloc, file, program, answer))
        }
        (Answer::OverLimit { bound }, Some(most)) => {
            tell_made(listener, limit_diagnostic(alloc, file, bound, most))
        }
        _ => {}
    }
}
