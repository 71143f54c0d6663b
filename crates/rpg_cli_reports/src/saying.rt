//! Prints the line of an answer, with its diagnostic, or explains why the arguments are rejected; and where the line goes.

ghost use Rattle.std.specs.Prelude.{◌≡◌, ◌≤◌};
ghost use Rattle.rpg_cli_reports.specs.Saying.{PrintsALine, Says, SaysOrIsQuiet, SaysWith, WritesLine, status_with};

use crate::reporting::{report_answer, report_unwritten};
use rpg_cli_answers::{Answer, Listener, Reasons, json_line, line};
use rpg_cli_files::{Reason, send_line};
use rpg_cli_words::{AnswerArguments, CommandName, Format, Refusal, Request};
use std::alloc::Global;
use std::io::Write;

/// Writes a line, and returns the status, or reports that it can't be written and returns 1.
fn send<W: Write, L: Listener>(
    alloc: Global,
    out: &mut W,
    outlet: Outlet,
    text: &[u8],
    status: u8,
    listener: &mut L,
) -> u8
    ensures { WritesLine (W.contents out.old) (W.contents out.new) text.now status result }
{
    match send_line(out, text) {
        Ok(()) => status,
        Err(reason) => {
            report_unwritten(alloc, outlet, reason, listener);
            1
        }
    }
}

/// Returns the exit status of an answer: 1 in place of 0 if a diagnostic was lost.
fn status_of(answer: &Answer, has_lost: bool) -> u8
    ensures { result ≡ status_with answer.now has_lost }
{
    match line(answer).status {
        0 => u8::from(has_lost),
        status => status,
    }
}

/// Prints the line or the object of an answer, with this exit status, and returns the status. Reports it if that can't be written.
fn say_with<W: Write, L: Listener>(
    alloc: Global,
    out: &mut W,
    outlet: Outlet,
    format: Format,
    answer: &Answer,
    status: u8,
    listener: &mut L,
) -> u8
    ensures { SaysWith format (W.contents out.old) (W.contents out.new) status result answer.now }
{
    match format {
        Format::Text => {
            let said = line(answer);
            send(alloc, out, outlet, said.text.as_slice(), status, listener)
        }
        Format::Json => {
            let said = json_line(answer, status);
            send(alloc, out, outlet, said.as_slice(), status, listener)
        }
    }
}

/// Prints the line or the object of an answer, and returns the exit status. Reports it if that can't be written.
fn say<W: Write, L: Listener>(
    alloc: Global,
    out: &mut W,
    outlet: Outlet,
    format: Format,
    answer: &Answer,
    listener: &mut L,
) -> u8
    ensures { Says format (W.contents out.old) (W.contents out.new) result answer.now }
{
    let has_lost = listener.has_lost();
    let status = status_of(answer, has_lost);
    say_with(alloc, out, outlet, format, answer, status, listener)
}

/// Prints the line of an answer, except that of a success if the command is quiet, and returns the exit status.
fn say_if_wanted<W: Write, L: Listener>(
    alloc: Global,
    out: &mut W,
    outlet: Outlet,
    arguments: AnswerArguments,
    answer: &Answer,
    listener: &mut L,
) -> u8
    ensures { SaysOrIsQuiet arguments.is_quiet arguments.format (W.contents out.old) (W.contents out.new) result answer.now }
{
    if arguments.is_quiet && !listener.has_lost() && line(answer).status == 0 {
        0
    } else {
        say(alloc, out, outlet, arguments.format, answer, listener)
    }
}

/// Prints clap's text, or reports why help couldn't be written, and returns the exit status.
fn explain_refusal<R: Print + Eprint + AllocGlobal, L: Listener>(
    rt: &R,
    refusal: &Refusal,
    listener: &mut L,
) -> u8
    ensures { result ≤ 2 }
{
    match refusal.explain(rt) {
        Ok(status) => status,
        Err(error) => {
            let reason = Reason::of(error.kind());
            report_unwritten(rt.alloc(), Outlet::PAGES, reason, listener);
            1
        }
    }
}

/// Reports a fault of the command line, or prints the requested help, and returns the exit status.
pub fn refuse<R: Print + Eprint + AllocGlobal, W: Write, L: Listener>(
    rt: &R,
    refusal: &Refusal,
    out: &mut W,
    listener: &mut L,
) -> u8
    ensures { PrintsALine (W.contents out.old) (W.contents out.new) result }
{
    listener.end();
    if refusal.is_no_memory() {
        let (outlet, answer) = (Outlet::STANDARD_OUTPUT, Answer::NoMemory);
        say(rt.alloc(), out, outlet, Format::Text, &answer, listener)
    } else {
        explain_refusal(rt, refusal, listener)
    }
}

/// Prints the line of an answer, unless the command is quiet, with the diagnostic, and returns the exit status. The line is the last one
/// on standard error, if it goes there.
pub fn conclude<W: Write, L: Listener>(
    alloc: Global,
    request: &Request,
    answer: &Answer,
    reasons: Reasons,
    out: &mut W,
    listener: &mut L,
) -> u8
    ensures { PrintsALine (W.contents out.old) (W.contents out.new) result }
{
    let (outlet, arguments) = (Outlet::of(request), request.answer);
    if outlet.is_error {
        report_answer(alloc, request, answer, reasons, listener);
        listener.end();
        return say_if_wanted(alloc, out, outlet, arguments, answer, listener);
    }
    listener.pass_on();
    let status = say_if_wanted(alloc, out, outlet, arguments, answer, listener);
    report_answer(alloc, request, answer, reasons, listener);
    listener.end();
    status
}

/// Where the line of an answer and the text before it go.
#[derive(Clone, Copy)]
pub struct Outlet {
    pub name: &'static str,
    /// Whether its reader may close it early, as `head` does.
    pub may_close: bool,
    /// Whether diagnostics go there too.
    pub is_error: bool,
}

impl Outlet {
    pub const STANDARD_OUTPUT: Outlet = Outlet {
        name: "standard output",
        may_close: false,
        is_error: false,
    };

    pub const PAGES: Outlet = Outlet {
        name: "standard output",
        may_close: true,
        is_error: false,
    };

    const STANDARD_ERROR: Outlet = Outlet {
        name: "standard error",
        may_close: false,
        is_error: true,
    };

    pub fn of(request: &Request) -> Outlet {
        match request.command {
            CommandName::List | CommandName::Cards | CommandName::Show | CommandName::Explain => {
                Outlet::PAGES
            }
            _ if request.writes_standard_output() => Outlet::STANDARD_ERROR,
            _ => Outlet::STANDARD_OUTPUT,
        }
    }
}
