//! Why there is no request.

ghost use Rattle.std.specs.Prelude.{◌≤◌, IfOk};

use crate::commands::fault;
use crate::files::SameFile;
use crate::outputs::Unreplaced;
use clap::Error;
use clap::error::ErrorKind;
use std::alloc::{AllocError, Global};
use std::io;

/// Why there is no request: a fault of the command line, a request for help, or memory that ran out.
#[derive(Drop)]
pub struct Refusal {
    error: Error,
}

impl From<AllocError> for Refusal {
    fn from(error: AllocError) -> Refusal {
        Refusal {
            error: Error::from(error),
        }
    }
}

impl From<Error> for Refusal {
    fn from(error: Error) -> Refusal {
        Refusal { error }
    }
}

impl Refusal {
    pub(crate) fn of(reported: Result<Error, AllocError>) -> Refusal {
        match reported {
            Ok(error) => Refusal { error },
            Err(error) => Refusal::from(error),
        }
    }

    pub fn is_no_memory(&self) -> bool {
        self.error.kind() == ErrorKind::OutOfMemory
    }

    /// Prints clap's text, a fault to standard error and help to standard output, and returns the exit status. The error is why help couldn't
    /// be written.
    pub fn explain<R: Print + Eprint + AllocGlobal>(&self, rt: &R) -> io::Result<u8>
        ensures { IfOk result (λ status. status ≤ 2) }
    {
        let is_fault = self.error.use_stderr();
        match self.error.print(rt) {
            Ok(()) if is_fault => Ok(2),
            Ok(()) => Ok(0),
            Err(_) if is_fault => Ok(1),
            Err(error) => Err(error),
        }
    }
}

/// The program's name in clap's texts if the arguments have none.
const PROGRAM: &str = "rpg2";

/// Rejects arguments of which one isn't UTF-8.
pub fn refuse_bytes(alloc: Global) -> Refusal {
    let message = "invalid UTF-8 was detected in one or more arguments";
    Refusal::of(fault(alloc, PROGRAM, ErrorKind::InvalidValue, message))
}

fn conflict(alloc: Global, message: Result<String, AllocError>) -> Refusal {
    match message {
        Ok(message) => {
            let kind = ErrorKind::ArgumentConflict;
            Refusal::of(fault(alloc, PROGRAM, kind, message.as_str()))
        }
        Err(error) => Refusal::from(error),
    }
}

pub fn refuse_unreplaced(alloc: Global, unreplaced: Unreplaced) -> Refusal {
    let (written, text) = (unreplaced.written.text(), unreplaced.text());
    conflict(alloc, format!(in alloc; "'{written}' {text}"))
}

pub fn refuse_same_file(alloc: Global, same: SameFile) -> Refusal {
    let (written, earlier) = (same.written.text(), same.earlier.text());
    let (between, after) = same.shared.texts();
    conflict(
        alloc,
        format!(in alloc; "'{written}' {between} '{earlier}'{after}"),
    )
}

/// Returns the fault of arguments that clap accepts but that make no request. The program's name is what the first ends in.
pub(crate) fn unread(
    alloc: Global,
    arguments: &[String],
    bad_value: Option<&'static str>,
) -> Result<Error, AllocError> {
    let (kind, message) = match bad_value {
        Some(message) => (ErrorKind::InvalidValue, message),
        None => (ErrorKind::MissingSubcommand, "a command is required"),
    };
    let path = arguments.first().map_or(PROGRAM, |path| path.as_str());
    let name = path.rsplit_once('/').map_or(path, |(_, name)| name);
    fault(alloc, name, kind, message)
}
