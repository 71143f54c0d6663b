//! The command that puts a print on sheets.

use crate::refused::print_diagnostic;
use rpg_cli_answers::{
    Answer, CommandStop, Listener, NamedFile, file_of, named, refuse_replacing, refuse_same_file,
    report_in_place, tell_made,
};
use rpg_cli_files::{
    FileFault, KeptFile, Opened, Pending, Reason, input_file, kept_file, lines, records,
};
use rpg_cli_words::{FileArgument, PaperArgument, PaperArguments, Request, is_standard};
use rpg_pdf::{PaperFault, PaperForm, Press, Settings};
use std::alloc::Global;
use std::rt::Files;

/// The number of a page after the most that a print may have.
const PAGE_TOO_MANY: u32 = 100_000;

/// Returns the settings of the arguments. The values that clap accepts are all in range.
fn settings_of(arguments: PaperArguments) -> Option<Settings> {
    let form = match arguments.form {
        PaperArgument::A4 => PaperForm::A4,
        PaperArgument::Letter => PaperForm::Letter,
        PaperArgument::Fanfold => PaperForm::Fanfold,
    };
    let (length, columns) = (arguments.length.into(), arguments.columns.into());
    Settings::of(form, length, columns, arguments.has_bars)
}

/// Opens the print.
fn opened_print<R: Files>(rt: &R, request: &Request) -> Result<Opened<R::File>, Answer> {
    let path = request.file(FileArgument::Printed);
    if is_standard(path) {
        return Ok(Opened::Standard);
    }
    let file = named(FileArgument::Printed, input_file(rt, path))?;
    Ok(Opened::File(file))
}

/// Refuses to write the PDF over the print, or over what isn't replaced.
fn keep_files<R: Files>(
    rt: &R,
    request: &Request,
    print: &Opened<R::File>,
) -> Result<(), CommandStop> {
    let print = NamedFile::opened(rt, FileArgument::Printed, print, "/dev/stdin")?;
    let written = NamedFile::named(rt, FileArgument::Pdf, request.output);
    refuse_same_file(written, &[print])?;
    Ok(refuse_replacing(rt, FileArgument::Pdf, request.output, false)?)
}

/// Returns the answer for a print that isn't put on sheets. Reports a fault of its own.
fn early_answer<L: Listener>(
    alloc: Global,
    request: &Request,
    fault: PaperFault,
    (read, written): (Reason, Reason),
    listener: &mut L,
) -> Answer {
    let (argument, fault) = match fault {
        PaperFault::NoMemory => return Answer::NoMemory,
        PaperFault::Read => (FileArgument::Printed, FileFault::Input(read)),
        PaperFault::Write => (FileArgument::Pdf, FileFault::Output(written)),
        PaperFault::Size => (FileArgument::Pdf, FileFault::Output(Reason::TooLarge)),
        PaperFault::Page { .. } | PaperFault::Pages => {
            let file = file_of(request, FileArgument::Printed);
            let told = print_diagnostic(alloc, file, request.paper, fault);
            tell_made(listener, told);
            let page = match fault {
                PaperFault::Page { number, .. } => number,
                _ => PAGE_TOO_MANY,
            };
            return Answer::PageRefused { page };
        }
    };
    Answer::File { argument, fault }
}

/// Writes the PDF of an open print, and moves it to its place, unless that would lose a file.
fn write_opened<R: Files + Input + Print + AllocGlobal, L: Listener>(
    rt: &R,
    request: &Request,
    print: Opened<R::File>,
    output: Opened<R::File>,
    pending: &Option<Pending<'_>>,
    listener: &mut L,
) -> Result<Answer, CommandStop> {
    keep_files(rt, request, &print)?;
    if let Some(new) = pending {
        new.report_taken(rt.alloc(), listener);
    }
    report_in_place(rt.alloc(), request, FileArgument::Pdf, &output, listener);
    named(FileArgument::Pdf, output.empty())?;
    let Some(settings) = settings_of(request.paper) else {
        return Err(Answer::PageRefused { page: 1 }.into());
    };
    let (from, to) = (records(rt, print), lines(rt, output, None));
    let mut press = Press::new(rt.alloc(), settings, from, to);
    match press.print() {
        Ok(pages) => {
            if let Some(new) = pending {
                named(FileArgument::Pdf, new.put_in_place(rt))?;
            }
            Ok(Answer::Paper { pages })
        }
        Err(fault) => {
            let read = press.reader.device().fault().unwrap_or(Reason::Other);
            let written = press.writer.device().fault().unwrap_or(Reason::Other);
            let reasons = (read, written);
            Err(early_answer(rt.alloc(), request, fault, reasons, listener).into())
        }
    }
}

/// Puts each page of a print on a sheet, as a PDF.
///
/// The PDF is moved to its place once it is whole: otherwise what is there stays unchanged.
pub fn paper_file<R: Files + Input + Print + AllocGlobal, L: Listener>(
    rt: &R,
    request: &Request,
    listener: &mut L,
) -> Result<Answer, CommandStop> {
    let print = opened_print(rt, request)?;
    let place = request.file(FileArgument::Pdf);
    let KeptFile { opened, pending } = named(FileArgument::Pdf, kept_file(rt, place, listener))?;
    let answer = write_opened(rt, request, print, opened, &pending, listener);
    if let (Err(_), Some(new)) = (&answer, &pending) {
        new.discard(rt, listener);
    }
    answer
}
