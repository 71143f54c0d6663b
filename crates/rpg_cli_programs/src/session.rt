//! A command that reads programs and runs nothing, and the commands over object programs.

use crate::judging::verified;
use crate::sources::{own_source, report_faults, report_object};
use rpg_cli_answers::{Answer, CommandStop, Listener, file_of, named, source_bytes};
use rpg_cli_diagnostics::FileName;
use rpg_cli_files::file_bytes;
use rpg_cli_show::{program_overview, program_text};
use rpg_cli_words::{FileArgument, Format, Request};
use rpg_engine::{ObjectFault, decode_object};
use std::alloc::Global;
use std::rt::Files;

pub(crate) type Ended = Result<Answer, CommandStop>;

/// A command: the machine, the arguments, and who takes the diagnostics.
#[derive(Drop)]
pub struct Session<'s, 'a, R, L> {
    pub(crate) rt: &'s R,
    pub(crate) request: &'s Request<'a>,
    pub(crate) listener: &'s mut L,
}

impl<'s, 'a, R: Files + Input + AllocGlobal, L: Listener> Session<'s, 'a, R, L> {
    pub fn of(rt: &'s R, request: &'s Request<'a>, listener: &'s mut L) -> Self {
        Session {
            rt,
            request,
            listener,
        }
    }

    pub(crate) fn alloc(&self) -> Global {
        self.rt.alloc()
    }

    pub(crate) fn file(&self) -> FileName<'a> {
        file_of(self.request, FileArgument::Source)
    }

    pub(crate) fn source(&self) -> Result<Vec<u8>, Answer> {
        named(
            FileArgument::Source,
            source_bytes(self.rt, self.request.source()),
        )
    }

    pub(crate) fn object(&self) -> Result<Vec<u8>, Answer> {
        let path = self.request.file(FileArgument::Object);
        named(FileArgument::Object, file_bytes(self.rt, path))
    }

    pub(crate) fn report_faults(&mut self, source: &[u8], most: u16) {
        report_faults(self.alloc(), self.file(), source, most, self.listener);
    }

    pub(crate) fn report_object(&mut self, object: &[u8], fault: ObjectFault) {
        let file = file_of(self.request, FileArgument::Object);
        report_object(self.alloc(), file, object, fault, self.listener);
    }
}

impl<R: Files + Input + AllocGlobal, L: Listener> Session<'_, '_, R, L> {
    /// Verifies an object file. The answer has the bound of its program.
    pub fn verify(&mut self) -> Ended {
        let object = self.object()?;
        let bound = verified(self.alloc(), &object);
        if let Err(Answer::Object(fault)) = bound {
            self.report_object(&object, fault);
        }
        Ok(Answer::Accepted { bound: bound? })
    }

    /// Returns the text of an object file's program, if it encodes one, with names and cards if the arguments name its source.
    fn shown_text(&mut self, object: &[u8]) -> Result<String, Answer> {
        let (alloc, request) = (self.alloc(), self.request);
        let program = decode_object(alloc, object)?;
        let source = own_source(self.rt, request.own_source, object, self.listener)?;
        if !request.rows {
            return Ok(program_overview(alloc, program)?);
        }
        let rows = source.as_ref().map(|source| &source.rows);
        Ok(program_text(alloc, program, rows)?)
    }

    /// Prints the program of an object file, and answers as `verify` does. A broken rule is an object of JSON too: the line for people is
    /// among the rows.
    pub fn show(&mut self) -> Ended {
        let object = self.object()?;
        let text = self.shown_text(&object);
        if let Err(Answer::Object(fault)) = &text {
            self.report_object(&object, *fault);
        }
        let text = text?;
        let bound = verified(self.alloc(), &object);
        if let (Format::Json, Err(Answer::Object(fault))) = (self.request.answer.format, bound) {
            self.report_object(&object, fault);
        }
        self.listener.show(text.as_str())?;
        Ok(Answer::Accepted { bound: bound? })
    }
}
