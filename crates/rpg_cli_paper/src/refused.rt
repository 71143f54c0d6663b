//! The diagnostics for a print that isn't put on sheets.

use rpg_cli_diagnostics::{Diagnostic, Draft, FileName};
use rpg_cli_words::PaperArguments;
use rpg_pdf::{PageFault, PaperFault};
use std::alloc::{AllocError, Global};

const HEX: &[u8; 16] = b"0123456789ABCDEF";

/// Returns the diagnostic for a print that isn't put on sheets, if that is a fault of its own.
pub(crate) fn print_diagnostic(
    alloc: Global,
    file: FileName<'_>,
    settings: PaperArguments,
    fault: PaperFault,
) -> Result<Diagnostic<'_>, AllocError> {
    let draft = Draft::error(alloc, file.whole());
    let PaperFault::Page { number, fault } = fault else {
        return draft.filled("it has more than 99,999 pages", &[]);
    };
    let page = u64::from(number).into();
    match fault {
        PageFault::Bytes => {
            let text = "page {} has more than 1,048,576 bytes: a form feed ends a page";
            draft.filled(text, &[page])
        }
        PageFault::Lines { count } => {
            let text = if count > 112 {
                "page {} has {} lines, and 112 are the most"
            } else {
                "page {} has {} lines, and a form has {}: give --length"
            };
            draft.filled(text, &[page, count.into(), settings.length.into()])
        }
        PageFault::Columns { line, count } => {
            let text = if count > 198 {
                "page {} line {} has {} columns, and 198 are the most"
            } else {
                "page {} line {} has {} columns, and a form has {}: give --columns"
            };
            let (line, columns) = (u64::from(line).into(), settings.columns.into());
            draft.filled(text, &[page, line, count.into(), columns])
        }
        PageFault::Character { line, column, byte } => {
            let text = "page {} line {} column {}: byte {}{} is no character";
            let high = char::from(HEX[usize::from(byte / 16)]).into();
            let low = char::from(HEX[usize::from(byte % 16)]).into();
            draft.filled(
                text,
                &[page, u64::from(line).into(), column.into(), high, low],
            )
        }
    }
}
