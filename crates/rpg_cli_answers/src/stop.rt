//! What ends a command before its work is done, and the answer for one of several sources as a JSON object.

use crate::answer::Answer;
use json::Writer;
use rpg_cli_diagnostics::{Made, line_of};
use rpg_cli_files::Reason;
use rpg_cli_words::{SameFile, Unreplaced};
use std::alloc::{AllocError, Global};

/// What ends a command before its work is done.
#[derive(Clone, Copy)]
pub enum CommandStop {
    Answer(Answer),
    /// A file that another argument names would be emptied.
    SameFile(SameFile),
    /// A file would be replaced that its output may not replace.
    Unreplaced(Unreplaced),
    /// A text couldn't be printed completely.
    Unshown(Reason),
    Job { answer: Answer, reasons: Reasons },
}

/// Why the files of a job failed, if the system reports it.
#[derive(Clone, Copy)]
pub struct Reasons {
    pub input: Option<Reason>,
    pub secondary: Option<Reason>,
    pub print: Option<Reason>,
    pub disk: Option<Reason>,
}

impl Reasons {
    pub const NONE: Reasons = Reasons {
        input: None,
        secondary: None,
        print: None,
        disk: None,
    };
}

impl From<Answer> for CommandStop {
    fn from(answer: Answer) -> CommandStop {
        CommandStop::Answer(answer)
    }
}

impl From<AllocError> for CommandStop {
    fn from(error: AllocError) -> CommandStop {
        CommandStop::Answer(Answer::from(error))
    }
}

impl From<SameFile> for CommandStop {
    fn from(same: SameFile) -> CommandStop {
        CommandStop::SameFile(same)
    }
}

impl From<Unreplaced> for CommandStop {
    fn from(unreplaced: Unreplaced) -> CommandStop {
        CommandStop::Unreplaced(unreplaced)
    }
}

impl From<Reason> for CommandStop {
    fn from(reason: Reason) -> CommandStop {
        CommandStop::Unshown(reason)
    }
}

/// Returns the answer for one of several sources, as an object on a line of its own.
pub fn source_object(alloc: Global, path: &str, answer: &str, status: u8) -> Made<String> {
    let mut out = Writer::new(Vec::new(alloc));
    out.begin_object()?;
    out.key("file")?;
    out.string(path)?;
    out.key("answer")?;
    out.string(answer)?;
    out.key("status")?;
    out.u64(status.into())?;
    out.end_object()?;
    line_of(out)
}
