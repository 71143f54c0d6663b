//! Carries out the command of the arguments, or explains why they are rejected.

ghost use Rattle.rpg_cli_reports.specs.Saying.{PrintsALine};

use rpg_cli_answers::{Answer, CommandStop, Listener, Reasons};
use rpg_cli_conversions::records_file;
use rpg_cli_fitting::fit_file;
use rpg_cli_paper::paper_file;
use rpg_cli_programs::Session;
use rpg_cli_reports::{
    Outlet, StandardError, StandardStreams, conclude, explain, refuse, report_unwritten,
};
use rpg_cli_run::{go_files, run_files};
use rpg_cli_words::{
    Colours, CommandName, Format, Refusal, Request, join_codes, refuse_bytes, refuse_same_file,
    refuse_unreplaced, request_of,
};
use std::alloc::AllocError;
use std::io::{ErrorKind, Write};
use std::process::ExitCode;
use std::rt::{Clock, Env, Files};
use std::{env, io};

fn answer_to<R: Clock + Env + Files + Input + Print + AllocGlobal, L: Listener>(
    rt: &R,
    request: &mut Request,
    listener: &mut L,
) -> Result<Answer, CommandStop> {
    match request.command {
        CommandName::Compile => Session::of(rt, request, listener).compile(),
        CommandName::Check => Session::of(rt, request, listener).check(),
        CommandName::List => Session::of(rt, request, listener).list(),
        CommandName::Cards => Session::of(rt, request, listener).convert_cards(),
        CommandName::Records => records_file(rt, request, listener),
        CommandName::Fit => fit_file(rt, request, listener),
        CommandName::Verify => Session::of(rt, request, listener).verify(),
        CommandName::Show => Session::of(rt, request, listener).show(),
        CommandName::Run => run_files(rt, request, listener),
        CommandName::Go => go_files(rt, request, listener),
        CommandName::Paper => paper_file(rt, request, listener),
        CommandName::Explain => explain(rt.alloc(), request, listener),
    }
}

/// Runs a command, prints one line to `out`, and returns the exit status.
fn obey<R: Clock + Env + Files + Input + Print + Eprint + AllocGlobal, W: Write, L: Listener>(
    rt: &R,
    request: &mut Request,
    out: &mut W,
    listener: &mut L,
) -> u8
    ensures { PrintsALine (W.contents out.old) (W.contents out.new) result }
{
    let alloc = rt.alloc();
    match answer_to(rt, request, listener) {
        Ok(answer) | Err(CommandStop::Answer(answer)) => {
            conclude(alloc, request, &answer, Reasons::NONE, out, listener)
        }
        Err(CommandStop::Job { answer, reasons }) => {
            conclude(alloc, request, &answer, reasons, out, listener)
        }
        Err(CommandStop::SameFile(same)) => {
            refuse(rt, &refuse_same_file(alloc, same), out, listener)
        }
        Err(CommandStop::Unreplaced(unreplaced)) => {
            refuse(rt, &refuse_unreplaced(alloc, unreplaced), out, listener)
        }
        Err(CommandStop::Unshown(reason)) => {
            report_unwritten(alloc, Outlet::of(request), reason, listener);
            listener.end();
            1
        }
    }
}

fn arguments<R: Env + AllocGlobal>(rt: &R) -> io::Result<Vec<String>> {
    let words = env::args(rt)?.collect(rt.alloc())?;
    Ok(join_codes(rt.alloc(), words)?)
}

/// Runs a command over the standard streams, and returns the exit status.
fn obey_on_streams<R: Clock + Env + Files + Input + Print + Eprint + AllocGlobal>(
    rt: &R,
    request: &mut Request,
    listener: &mut StandardStreams<'_, R>,
) -> u8 {
    if request.writes_standard_output() {
        obey(rt, request, &mut StandardError::new(rt), listener)
    } else {
        obey(rt, request, &mut io::writer(rt), listener)
    }
}

/// Runs the command of the arguments over the standard streams, and returns the exit status. The line goes to standard output, or to
/// standard error if a run writes records or printed lines to standard output.
fn run_on_streams<R: Clock + Env + Files + Input + Print + Eprint + AllocGlobal>(
    rt: &R,
    arguments: &[String],
    is_terminal: bool,
) -> u8 {
    match request_of(rt.alloc(), arguments) {
        Err(refusal) => refuse_on_streams(rt, &refusal),
        Ok(mut request) => {
            let has_colours = has_colours(rt, request.answer.colours, is_terminal);
            let mut listener = StandardStreams::new(rt, request.answer.format, has_colours);
            obey_on_streams(rt, &mut request, &mut listener)
        }
    }
}

/// Prints why there is no request, and returns the exit status.
fn refuse_on_streams<R: Print + Eprint + AllocGlobal>(rt: &R, refusal: &Refusal) -> u8 {
    let mut listener = StandardStreams::new(rt, Format::Text, false);
    refuse(rt, refusal, &mut io::writer(rt), &mut listener)
}

/// Whether a variable of the environment is on: 0 turns it off. None if it isn't set, or empty.
fn is_on<R: Env + AllocGlobal>(rt: &R, name: &str) -> Option<bool> {
    match env::var(rt, name) {
        Ok(value) if value.is_empty() => None,
        Ok(value) => Some(value.as_str() != "0"),
        Err(_) => None,
    }
}

/// Whether marks are coloured: as the arguments ask, and otherwise on a terminal, unless NO_COLOR is set or CLICOLOR is 0. CLICOLOR_FORCE
/// colours them elsewhere too.
fn has_colours<R: Env + AllocGlobal>(rt: &R, wanted: Colours, is_terminal: bool) -> bool {
    match wanted {
        Colours::Always => true,
        Colours::Never => false,
        Colours::Auto if is_on(rt, "NO_COLOR").is_some() => false,
        Colours::Auto if is_on(rt, "CLICOLOR_FORCE") == Some(true) => true,
        Colours::Auto => is_terminal && is_on(rt, "CLICOLOR") != Some(false),
    }
}

/// The whole program. Arguments that aren't UTF-8 are a fault of the command line. `is_terminal` is whether standard error is one.
pub(crate) fn main_with<R: Clock + Env + Files + Input + Print + Eprint + AllocGlobal>(
    rt: &R,
    is_terminal: bool,
) -> ExitCode {
    let status = match arguments(rt) {
        Ok(arguments) => run_on_streams(rt, arguments.as_slice(), is_terminal),
        Err(error) if error.kind() == ErrorKind::OutOfMemory => {
            refuse_on_streams(rt, &Refusal::from(AllocError))
        }
        Err(_) => refuse_on_streams(rt, &refuse_bytes(rt.alloc())),
    };
    ExitCode::from(status)
}
