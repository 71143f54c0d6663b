//! Diagnostics about failed files and bad dates.

use crate::saying::Outlet;
use rpg_cli_answers::{Answer, Listener, Reasons, file_at, file_of, tell_made};
use rpg_cli_diagnostics::{Diagnostic, Draft, Level, Made};
use rpg_cli_files::{FileFault, Reason};
use rpg_cli_text::TextWriter;
use rpg_cli_words::{DateArgument, FileArgument, Request};
use rpg_engine::{InputFile, OutputFile, ReadFault, RunFault};
use std::alloc::Global;

/// Writes why a file failed; nothing if memory ran out.
fn write_file_fault(out: &mut TextWriter, role: &str, fault: FileFault) {
    let (sentence, reason) = match fault {
        FileFault::Input(reason) => ("{} can't be read: {}", reason.text()),
        FileFault::Output(reason) => ("{} can't be written: {}", reason.text()),
        FileFault::Beside(reason) => ("no new file can be made beside {}: {}", reason.text()),
        FileFault::TooLarge => ("{} has more than 16,777,216 bytes", ""),
        FileFault::NoMemory => return,
    };
    out.fill_two(sentence, role, reason);
}

/// Writes the system's reason for a fault, if it is known.
fn write_reason(out: &mut TextWriter, reason: Option<Reason>) {
    if let Some(reason) = reason {
        out.fill_one(": {}", reason.text());
    }
}

/// Writes that an input couldn't be read during the job, or had too many records.
fn write_read_fault(out: &mut TextWriter, role: &str, fault: ReadFault, reason: Option<Reason>) {
    match fault {
        ReadFault::Device => {
            out.fill_one("{} can't be read to its end", role);
            write_reason(out, reason);
        }
        ReadFault::TooMany => out.fill_one("{} has more than 10,000,000 records", role),
    }
}

/// Writes that an output couldn't be written during the job.
fn write_write_fault(out: &mut TextWriter, role: &str, sent: u128, reason: Option<Reason>) {
    let bytes = if sent == 1 { "byte" } else { "bytes" };
    out.fill_one("{} can't be written after ", role);
    write!(out, "{sent} {bytes}");
    write_reason(out, reason);
}

fn write_bad_date(out: &mut TextWriter, request: &Request) {
    if let Some(DateArgument::Today(_)) = request.date {
        out.write_str("--date today: the system's clock can't be read");
        return;
    }
    let text = request.date_text().as_bytes();
    let Some(found) = six_digits(text) else {
        out.fill_one(BAD_DATE, text);
        return;
    };
    let date = found.date;
    out.fill_one("--date needs six digits: give --date {}", date.as_slice());
    if found.has_points {
        let [m, n, d, e, y, z] = date;
        let other = [d, e, m, n, y, z];
        out.fill_one(" or {}", other.as_slice());
    }
}

const BAD_DATE: &str =
    "--date needs six digits, such as 112676, or today, today-dmy or today-ymd; it was '{}'";

/// Whether digits are a month, a day and a year of two digits.
fn is_date(digits: [u8; 6]) -> bool {
    let [m, n, d, e, ..] = digits;
    let days = match [m, n] {
        [b'0', b'2'] => *b"29",
        [b'0', b'4' | b'6' | b'9'] | [b'1', b'1'] => *b"30",
        [b'0', b'1'..=b'9'] | [b'1', b'0'..=b'2'] => *b"31",
        _ => return false,
    };
    [d, e] != *b"00" && [d, e] <= days
}

fn are_digits(text: &[u8]) -> bool {
    text.iter().all(|byte| byte.is_ascii_digit())
}

/// A month, a day and a year of two digits, and whether they were written with points: the day may come first then.
#[derive(Clone, Copy)]
struct SixDigits {
    date: [u8; 6],
    has_points: bool,
}

/// Returns a date with dashes or points in six digits.
fn six_digits(text: &[u8]) -> Option<SixDigits> {
    let (century, date, has_points) = match *text {
        [c, f, y, z, b'-', m, n, b'-', d, e] => ([c, f], [m, n, d, e, y, z], false),
        [d, e, b'.', m, n, b'.', c, f, y, z] => ([c, f], [m, n, d, e, y, z], true),
        _ => return None,
    };
    let is_valid = are_digits(&century) && are_digits(&date) && is_date(date);
    is_valid.then_some(SixDigits { date, has_points })
}

/// Returns the argument whose file failed, if an answer is about one, and the reason that the system gave.
fn failed_file(answer: &Answer, reasons: Reasons) -> Option<(FileArgument, Option<Reason>)> {
    Some(match *answer {
        Answer::File { argument, .. } => (argument, None),
        Answer::OtherSource => (FileArgument::OwnSource, None),
        Answer::Run(RunFault::Read { file, .. }) => match file {
            InputFile::Primary => (FileArgument::Input, reasons.input),
            InputFile::Secondary => (FileArgument::Secondary, reasons.secondary),
        },
        Answer::Run(RunFault::Write { file, .. }) => match file {
            OutputFile::Print => (FileArgument::Print, reasons.print),
            OutputFile::Disk => (FileArgument::Disk, reasons.disk),
        },
        _ => return None,
    })
}

fn write_failed(out: &mut TextWriter, answer: &Answer, role: &str, reason: Option<Reason>) {
    match *answer {
        Answer::File { fault, .. } => write_file_fault(out, role, fault),
        Answer::Run(RunFault::Read { fault, .. }) => write_read_fault(out, role, fault, reason),
        Answer::Run(RunFault::Write { sent, .. }) => write_write_fault(out, role, sent, reason),
        _ => out.fill_one("{} is compiled to other bytes than those of OBJ", role),
    }
}

/// Returns the diagnostic for an answer that says that a file failed, or that the date is bad. Its message is empty for others.
fn answer_diagnostic<'a>(
    alloc: Global,
    request: &Request<'a>,
    answer: &Answer,
    reasons: Reasons,
) -> Made<Diagnostic<'a>> {
    let Some((argument, reason)) = failed_file(answer, reasons) else {
        let mut draft = Draft::new(alloc, Level::Error, None, None);
        if let Answer::Run(RunFault::BadDate) = answer {
            write_bad_date(&mut draft.message, request);
        }
        return draft.finish();
    };
    let mut draft = Draft::error(alloc, file_of(request, argument).whole());
    if let Answer::File {
        fault: FileFault::Beside(Reason::Taken),
        ..
    } = answer
    {
        write_taken(&mut draft, argument.name());
    } else {
        write_failed(&mut draft.message, answer, argument.name(), reason);
    }
    draft.finish()
}

/// Writes that all names of a new file beside another are taken, and adds what to do.
fn write_taken(draft: &mut Draft<'_>, role: &str) {
    let path = draft.path().unwrap_or("").as_bytes();
    let out = &mut draft.message;
    out.fill_one("no new file can be made beside {}: ", role);
    out.fill_two("{}.0.new to {}.9999.new exist", path, path);
    let mut remark = draft.text();
    remark.write_str("remove them if no run is going on");
    draft.remark(remark);
}

/// Prints a diagnostic, if it has a message.
fn tell_any<L: Listener>(listener: &mut L, made: Made<Diagnostic<'_>>) {
    match &made {
        Ok(told) if told.message.is_empty() => {}
        _ => tell_made(listener, made),
    }
}

/// Reports why one of several sources can't be read.
pub fn report_source_fault<L: Listener>(
    alloc: Global,
    path: &str,
    fault: FileFault,
    listener: &mut L,
) {
    let file = file_at(FileArgument::Source, path);
    let mut draft = Draft::error(alloc, file.whole());
    write_file_fault(&mut draft.message, file.role, fault);
    tell_any(listener, draft.finish());
}

pub fn report_answer<L: Listener>(
    alloc: Global,
    request: &Request,
    answer: &Answer,
    reasons: Reasons,
    listener: &mut L,
) {
    tell_any(listener, answer_diagnostic(alloc, request, answer, reasons));
}

/// Reports that a text couldn't be written completely, unless its reader closed the pipe on purpose.
pub fn report_unwritten<L: Listener>(
    alloc: Global,
    outlet: Outlet,
    reason: Reason,
    listener: &mut L,
) {
    if let (Reason::Closed, true) = (reason, outlet.may_close) {
        return;
    }
    let pieces = [outlet.name.into(), reason.text().into()];
    let draft = Draft::new(alloc, Level::Error, None, None);
    tell_made(listener, draft.filled("{} can't be written: {}", &pieces));
}
