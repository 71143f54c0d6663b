//! The source of an object program that is shown or run, if the arguments name it; and the diagnostics for a source or an object program
//! that is rejected. If memory runs out for one, only the line is printed.

use crate::judging::matched;
use rpg_cli_answers::{Answer, Listener, file_at, named, tell_all};
use rpg_cli_diagnostics::{Diagnostic, FileName};
use rpg_cli_files::file_bytes;
use rpg_cli_messages::source_diagnostics;
use rpg_cli_refusals::{bytes_diagnostic, rule_diagnostic};
use rpg_cli_show_fields::SourceRows;
use rpg_cli_words::FileArgument;
use rpg_engine::{ObjectFault, decode_object};
use rpg_faults::{faultless_cards, source_faults};
use rpg_meaning::CompiledSource;
use std::alloc::{AllocError, Global};
use std::rt::Files;

const MAX_LISTED: u16 = 20;

/// The source of the program: its name, what it compiles to, and the cards of its rows.
#[derive(Drop)]
pub struct OwnSource<'a> {
    pub file: FileName<'a>,
    pub compiled: CompiledSource,
    pub rows: SourceRows,
}

impl<'a> OwnSource<'a> {
    pub fn of(
        alloc: Global,
        file: FileName<'a>,
        compiled: CompiledSource,
    ) -> Result<OwnSource<'a>, Answer> {
        let rows = rows_of(alloc, compiled.text())?;
        Ok(OwnSource {
            file,
            compiled,
            rows,
        })
    }
}

fn rows_of(alloc: Global, text: &[u8]) -> Result<SourceRows, Answer> {
    let source = faultless_cards(alloc, text)?;
    Ok(SourceRows::of_cards(alloc, &source.cards)?)
}

/// Returns the source that an argument names, if it compiles to the object. Reports its faults, if it has any.
pub fn own_source<'a, R: Files + AllocGlobal, L: Listener>(
    rt: &R,
    path: Option<&'a str>,
    object: &[u8],
    listener: &mut L,
) -> Result<Option<OwnSource<'a>>, Answer> {
    let Some(path) = path else {
        return Ok(None);
    };
    let file = file_at(FileArgument::OwnSource, path);
    let text = named(FileArgument::OwnSource, file_bytes(rt, path))?;
    match matched(rt.alloc(), text, object) {
        Ok(compiled) => Ok(Some(OwnSource::of(rt.alloc(), file, compiled)?)),
        Err((text, answer)) => {
            if let Answer::Source(_) = answer {
                report_faults(rt.alloc(), file, &text, MAX_LISTED, listener);
            }
            Err(answer)
        }
    }
}

/// Reports the faults of a source, if it has any. If memory runs out for the messages, only the line says what is wrong.
pub fn report_faults<L: Listener>(
    alloc: Global,
    file: FileName<'_>,
    source: &[u8],
    most: u16,
    listener: &mut L,
) {
    let Ok(judged) = source_faults(alloc, source) else {
        listener.lose();
        return;
    };
    if judged.faults.is_empty() {
        return;
    }
    let told = source_diagnostics(alloc, file, source, &judged, most);
    tell_all(listener, &told);
}

fn object_diagnostic<'a>(
    alloc: Global,
    file: FileName<'a>,
    object: &[u8],
    fault: ObjectFault,
) -> Result<Option<Diagnostic<'a>>, AllocError> {
    match fault {
        ObjectFault::NotAnObject { offset, code } => {
            Ok(Some(bytes_diagnostic(alloc, file, object, offset, code)?))
        }
        ObjectFault::Refused(_) => match decode_object(alloc, object) {
            Ok(program) => rule_diagnostic(alloc, file, &program),
            Err(_) => Ok(None),
        },
        ObjectFault::NoMemory => Ok(None),
    }
}

pub fn report_object<L: Listener>(
    alloc: Global,
    file: FileName<'_>,
    object: &[u8],
    fault: ObjectFault,
    listener: &mut L,
) {
    match object_diagnostic(alloc, file, object, fault) {
        Ok(Some(told)) => listener.tell(&told),
        Ok(None) => {}
        Err(_) => listener.lose(),
    }
}
