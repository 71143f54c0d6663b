//! The command that rewrites an old deck.

use crate::changes::{
    forms_note, long_deck_diagnostic, refusal_diagnostic, report_changes, too_many_diagnostic,
};
use crate::new_deck::{new_deck_faults, origins};
use rpg_cli_answers::{
    Answer, CommandStop, Listener, NamedFile, file_of, named, refuse_replacing, refuse_same_file,
    tell_all, tell_made,
};
use rpg_cli_diagnostics::FileName;
use rpg_cli_files::{FileFault, Opened, Reason, file_bytes, lines, write_bytes};
use rpg_cli_messages::{is_object, source_diagnostics};
use rpg_cli_words::{FileArgument, Request, is_standard};
use rpg_faults::{CardFault, SourceCode, SourceFault, source_faults};
use rpg_fit::{FitFault, FittedDeck, Settings, Switches, TableFile, fit};
use rpg_sheet::{MOST_CARDS, SheetCode};
use std::alloc::{AllocError, Global};
use std::io::Write;
use std::rt::Files;

/// The number of the first card over the limit.
const PAST_LIMIT: u16 = MOST_CARDS + 1;

/// Reads the records of the table files that the arguments name.
fn table_records<R: Files + AllocGlobal>(
    rt: &R,
    request: &Request,
) -> Result<Vec<Vec<u8>>, Answer> {
    let mut records = Vec::new(rt.alloc());
    for (place, table) in request.tables.iter().enumerate() {
        let bytes = named(FileArgument::Table(place), file_bytes(rt, table.path))?;
        if records.push(bytes).is_err() {
            return Err(Answer::NoMemory);
        }
    }
    Ok(records)
}

/// Returns the table files with their names.
fn table_files<'b>(
    alloc: Global,
    request: &Request<'b>,
    records: &'b [Vec<u8>],
) -> Result<Vec<TableFile<'b>>, AllocError> {
    let mut files = Vec::new(alloc);
    for (table, bytes) in request.tables.iter().zip(records) {
        files.push(TableFile {
            name: table.name.as_bytes(),
            records: bytes.as_slice(),
        })?;
    }
    Ok(files)
}

fn switches_of(request: &Request) -> Switches {
    match request.switches {
        Some(digits) => Switches::of(digits.as_bytes()).unwrap_or(Switches::OFF),
        None => Switches::OFF,
    }
}

/// Returns the name of the printer whose deck is wanted.
fn printer_of<'b>(request: &Request<'b>) -> Option<&'b [u8]> {
    Some(request.printer?.as_bytes())
}

/// Rewrites a deck.
fn rewrite(
    alloc: Global,
    request: &Request,
    source: &[u8],
    records: &[Vec<u8>],
) -> Result<FittedDeck, FitFault> {
    let tables = table_files(alloc, request, records)?;
    let settings = Settings {
        switches: switches_of(request),
        printer: printer_of(request),
        tables: tables.as_slice(),
    };
    fit(alloc, source, &settings)
}

/// Counts the lines of a text.
fn count_lines(text: &[u8]) -> usize {
    let ended = text.iter().filter(|byte| **byte == b'\n').count();
    match text.last() {
        None | Some(b'\n') => ended,
        Some(_) => ended.saturating_add(1),
    }
}

/// Reports that a deck has too many cards, or that the new one would, and returns the answer.
fn refuse_long<L: Listener>(
    alloc: Global,
    request: &Request,
    source: &[u8],
    listener: &mut L,
) -> Answer {
    let cards = count_lines(source);
    let file = file_of(request, FileArgument::Source);
    let told = if cards > usize::from(MOST_CARDS) {
        long_deck_diagnostic(alloc, file, cards, PAST_LIMIT)
    } else {
        too_many_diagnostic(alloc, file)
    };
    tell_made(listener, told);
    Answer::NewDeck(SourceFault::At {
        card: PAST_LIMIT,
        code: SourceCode::Sheet(SheetCode::S6),
        columns: None,
    })
}

/// Reports why a deck isn't rewritten, and returns the answer.
fn refuse<L: Listener>(
    alloc: Global,
    request: &Request,
    source: &[u8],
    fault: &FitFault,
    listener: &mut L,
) -> Answer {
    match fault {
        FitFault::Refused(refusal) => {
            let file = file_of(request, FileArgument::Source);
            tell_made(listener, refusal_diagnostic(alloc, file, source, refusal));
            Answer::FitRefused {
                card: refusal.card as u64,
                rule: refusal.rule.number(),
            }
        }
        FitFault::TooMany => refuse_long(alloc, request, source, listener),
        FitFault::NoMemory => Answer::NoMemory,
    }
}

/// Refuses to write the new deck over a file that is read.
fn keep_files<R: Files>(rt: &R, request: &Request, path: &str) -> Result<(), CommandStop> {
    let written = NamedFile::at(rt, FileArgument::Fitted, path);
    let source = NamedFile::at(rt, FileArgument::Source, request.source());
    refuse_same_file(written, &[source])?;
    for (place, table) in request.tables.iter().enumerate() {
        let file = NamedFile::at(rt, FileArgument::Table(place), table.path);
        refuse_same_file(written, &[file])?;
    }
    Ok(())
}

/// Writes the new deck to standard output.
fn show_new_deck<R: Files + Print>(rt: &R, new: &[u8]) -> Result<(), Answer> {
    let mut target = lines(rt, Opened::<R::File>::Standard, None);
    match target.write_all(new) {
        Ok(()) => Ok(()),
        Err(_) => Err(Answer::File {
            argument: FileArgument::Fitted,
            fault: FileFault::Output(target.fault().unwrap_or(Reason::Other)),
        }),
    }
}

/// Writes the new deck, if the arguments ask for it.
fn write_new_deck<R: Files + Print + AllocGlobal, L: Listener>(
    rt: &R,
    request: &Request,
    new: &[u8],
    listener: &mut L,
) -> Result<(), CommandStop> {
    match request.new_deck {
        None => Ok(()),
        Some(path) if is_standard(path) => {
            keep_files(rt, request, "/dev/stdout")?;
            Ok(show_new_deck(rt, new)?)
        }
        Some(path) => {
            keep_files(rt, request, path)?;
            refuse_replacing(rt, FileArgument::Fitted, Some(path), request.forces)?;
            Ok(named(FileArgument::Fitted, write_bytes(rt, path, new, listener))?)
        }
    }
}

/// Reports the changes of a deck, and the faults of the new one.
fn report_fit<L: Listener>(
    alloc: Global,
    request: &Request,
    source: &[u8],
    fit: &FittedDeck,
    listener: &mut L,
) {
    let old = file_of(request, FileArgument::Source);
    let new = FileName {
        path: request.new_name(),
        role: FileArgument::Fitted.name(),
    };
    report_changes(alloc, old, source, fit, listener);
    if request.gives_forms {
        tell_made(listener, forms_note(alloc, old));
    }
    tell_all(listener, &new_deck_faults(alloc, new, fit));
    tell_all(listener, &origins(alloc, new, old, fit));
}

/// Returns the first of a deck's faults.
fn first_fault(faults: &[CardFault]) -> Option<SourceFault> {
    let fault = faults.first()?;
    Some(SourceFault::At {
        card: fault.card,
        code: fault.code,
        columns: fault.columns,
    })
}

/// Returns the answer for a rewritten deck: its changes, or the first fault of the new one.
fn answer_of(fit: &FittedDeck) -> Answer {
    match first_fault(&fit.judged.faults) {
        None => Answer::Fitted {
            changes: fit.fitted.changes() as u64,
        },
        Some(fault) => Answer::NewDeck(fault),
    }
}

/// Reports that an object program is given in place of a deck, as for any source, and returns the answer.
fn refuse_object<L: Listener>(
    alloc: Global,
    request: &Request,
    object: &[u8],
    listener: &mut L,
) -> Result<Answer, Answer> {
    let judged = source_faults(alloc, object)?;
    let file = file_of(request, FileArgument::Source);
    tell_all(
        listener,
        &source_diagnostics(alloc, file, object, &judged, 1),
    );
    match first_fault(&judged.faults) {
        None => Ok(Answer::Faultless),
        Some(fault) => Err(Answer::Source(fault)),
    }
}

/// Writes a new deck, and reports its changes.
fn conclude<R: Files + Print + AllocGlobal, L: Listener>(
    rt: &R,
    request: &Request,
    source: &[u8],
    fit: &FittedDeck,
    listener: &mut L,
) -> Result<Answer, CommandStop> {
    write_new_deck(rt, request, fit.fitted.new.as_slice(), listener)?;
    report_fit(rt.alloc(), request, source, fit, listener);
    Ok(answer_of(fit))
}

/// Rewrites an old deck. The new one is written once it is complete, even if it has faults; if a rule rejects the old one, or it is an
/// object program, nothing is written.
pub fn fit_file<R: Files + Print + AllocGlobal, L: Listener>(
    rt: &R,
    request: &Request,
    listener: &mut L,
) -> Result<Answer, CommandStop> {
    let source = named(FileArgument::Source, file_bytes(rt, request.source()))?;
    if is_object(&source) {
        return Ok(refuse_object(rt.alloc(), request, &source, listener)?);
    }
    let records = table_records(rt, request)?;
    match rewrite(rt.alloc(), request, &source, records.as_slice()) {
        Ok(fit) => conclude(rt, request, &source, &fit, listener),
        Err(fault) => Ok(refuse(rt.alloc(), request, &source, &fault, listener)),
    }
}
