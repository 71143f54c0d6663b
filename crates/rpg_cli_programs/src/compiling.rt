//! The commands over sources: to compile one to an object file, to list it, to check several, and to convert shorthand to cards, and cards to
//! shorthand.

use crate::judging::{CompiledObject, compiled};
use crate::session::{Ended, Session};
use crate::sources::report_faults;
use rpg_cli_answers::{
    Answer, CommandStop, Listener, NamedFile, file_at, line, named, refuse_replacing,
    refuse_same_file, source_bytes, source_object, system_path, tell_made,
};
use rpg_cli_files::write_bytes;
use rpg_cli_list::source_listing;
use rpg_cli_messages::{card_diagnostic, is_object, object_diagnostic};
use rpg_cli_reports::report_source_fault;
use rpg_cli_shorthand::{
    RULER, ShorthandFault, are_cards, deck_of, line_diagnostic, ruled_of, shorthand_of,
};
use rpg_cli_text::TextWriter;
use rpg_cli_warnings::judge_warnings;
use rpg_cli_words::{CardsWanted, FileArgument, Format, SameFile, Shared, is_standard};
use rpg_faults::{CardFault, SourceFault, faultless_cards};
use std::alloc::{AllocError, Global};
use std::rt::Files;

impl<R: Files + Input + AllocGlobal, L: Listener> Session<'_, '_, R, L> {
    /// Writes a compiled object to its file, unless a warning rejects the source, or the file may not be replaced.
    fn write_object(&mut self, text: &[u8], object: CompiledObject) -> Ended {
        let (rt, request) = (self.rt, self.request);
        let CompiledObject { source, bytes } = object;
        let place = request.file(FileArgument::Object);
        let file = self.file();
        judge_warnings(
            rt.alloc(),
            file,
            text,
            source,
            request.warnings,
            self.listener,
        )?;
        let source = NamedFile::at(rt, FileArgument::Source, system_path(request.source()));
        let written = NamedFile::at(rt, FileArgument::Object, place);
        refuse_same_file(written, &[source])?;
        refuse_replacing(rt, FileArgument::Object, request.object, false)?;
        let written = write_bytes(rt, place, &bytes, self.listener);
        named(FileArgument::Object, written)?;
        Ok(Answer::Compiled)
    }

    /// Compiles a source to an object file.
    ///
    /// The object file is written only after the source compiles and its warnings don't reject it: a rejected source leaves it unchanged,
    /// and all its faults are reported.
    pub fn compile(&mut self) -> Ended {
        let source = self.source()?;
        match compiled(self.alloc(), &source, self.request.allowance) {
            Ok(object) => self.write_object(&source, object),
            Err(answer) => {
                self.report_faults(&source, self.request.warnings.most);
                Err(answer.into())
            }
        }
    }
}

impl<R: Files + Input + AllocGlobal, L: Listener> Session<'_, '_, R, L> {
    /// Prints the listing of a source, with or without faults, and returns the first fault. If memory runs out, nothing is printed. With
    /// JSON all faults are objects too: the lines for people are in the listing.
    pub fn list(&mut self) -> Ended {
        let source = self.source()?;
        let fault = faultless_cards(self.alloc(), &source).err();
        if let Some(SourceFault::NoMemory) = fault {
            return Err(Answer::NoMemory.into());
        }
        let text = source_listing(self.alloc(), self.request.source(), &source)?;
        if self.request.answer.format == Format::Json {
            self.report_faults(&source, u16::MAX);
        }
        self.listener.show(text.as_str())?;
        match fault {
            None => Ok(Answer::Faultless),
            Some(fault) => Err(Answer::Source(fault).into()),
        }
    }
}

/// Returns the line for one of several sources.
fn source_line(alloc: Global, path: &str, answer: &Answer) -> Result<String, AllocError> {
    let mut out = TextWriter::new(alloc);
    out.write_shown(path.as_bytes());
    out.write_str(": ");
    out.write_shown(line(answer).text.as_slice());
    out.write_char('\n');
    out.finish()
}

/// Returns the JSON object for one of several sources.
fn object_line(alloc: Global, path: &str, answer: &Answer) -> Result<String, AllocError> {
    let line = line(answer);
    let mut text = TextWriter::new(alloc);
    text.write_shown(line.text.as_slice());
    let text = text.finish()?;
    source_object(alloc, path, text.as_str(), line.status)
}

/// The results of the sources so far.
#[derive(Clone, Copy)]
struct Tally {
    sources: u64,
    rejected: u64,
    unread: u64,
    status: u8,
}

impl Tally {
    const NONE: Tally = Tally {
        sources: 0,
        rejected: 0,
        unread: 0,
        status: 0,
    };

    /// Returns the tally after one more source. One with status 1 couldn't be read, or not be judged for want of memory.
    fn with(self, status: u8) -> Tally {
        Tally {
            sources: self.sources.saturating_add(1),
            rejected: self.rejected.saturating_add(u64::from(status > 1)),
            unread: self.unread.saturating_add(u64::from(status == 1)),
            status: self.status.max(status),
        }
    }

    fn answer(self) -> Answer {
        Answer::Checked {
            sources: self.sources,
            rejected: self.rejected,
            unread: (self.unread > 0).then_some(self.unread),
            status: self.status,
        }
    }
}

/// Returns standard input, if two of the sources name it.
fn shared_input(sources: &[&str]) -> Option<SameFile> {
    let standard = sources.iter().filter(|path| is_standard(path)).count();
    (standard > 1).then_some(SameFile {
        earlier: FileArgument::Source,
        written: FileArgument::Source,
        shared: Shared::StandardInput,
    })
}

impl<R: Files + Input + AllocGlobal, L: Listener> Session<'_, '_, R, L> {
    /// Reports all faults of a source, or its warnings. The answer is an error for a rejected source.
    fn check_source(&mut self, path: &str) -> Result<Answer, Answer> {
        let (alloc, arguments) = (self.alloc(), self.request.warnings);
        let file = file_at(FileArgument::Source, path);
        let source = named(FileArgument::Source, source_bytes(self.rt, path))?;
        match faultless_cards(alloc, &source) {
            Ok(faultless) => {
                judge_warnings(alloc, file, &source, faultless, arguments, self.listener)?;
                Ok(Answer::Faultless)
            }
            Err(fault) => {
                report_faults(alloc, file, &source, arguments.most, self.listener);
                Err(fault.into())
            }
        }
    }

    /// Prints the line for one of several sources, and reports why a file failed.
    fn show_source(&mut self, path: &str, answer: &Answer) -> Result<(), CommandStop> {
        if let Answer::File { fault, .. } = answer {
            report_source_fault(self.alloc(), path, *fault, self.listener);
        }
        let text = match self.request.answer.format {
            Format::Text => source_line(self.alloc(), path, answer)?,
            Format::Json => object_line(self.alloc(), path, answer)?,
        };
        Ok(self.listener.show(text.as_str())?)
    }

    /// Checks sources one after another, and prints a line for each; if the command is quiet, only for those with a fault.
    fn check_each(&mut self) -> Ended {
        let (request, mut tally) = (self.request, Tally::NONE);
        for path in &request.sources {
            let answer = match self.check_source(path) {
                Ok(answer) | Err(answer) => answer,
            };
            let status = line(&answer).status;
            if status != 0 || !request.answer.is_quiet {
                self.show_source(path, &answer)?;
            }
            tally = tally.with(status);
        }
        Ok(tally.answer())
    }

    pub fn check(&mut self) -> Ended {
        let request = self.request;
        if let Some(same) = shared_input(&request.sources) {
            return Err(same.into());
        }
        match request.sources.as_slice() {
            [path] => Ok(self.check_source(path)?),
            _ => self.check_each(),
        }
    }
}

impl<R: Files + Input + AllocGlobal, L: Listener> Session<'_, '_, R, L> {
    /// Converts shorthand to cards. Reports the first line that isn't a card.
    fn deck_text(&mut self, shorthand: &[u8]) -> Result<String, Answer> {
        let (alloc, file) = (self.alloc(), self.file());
        match deck_of(alloc, shorthand) {
            Ok(text) => Ok(text),
            Err(ShorthandFault::At { line, fault }) => {
                let told = if is_object(shorthand) {
                    object_diagnostic(alloc, file)
                } else {
                    line_diagnostic(alloc, file, line, fault)
                };
                tell_made(self.listener, told);
                Err(Answer::NoCard { line })
            }
            Err(ShorthandFault::NoMemory) => Err(Answer::NoMemory),
        }
    }

    /// Reports the first card that isn't one.
    fn report_card(&mut self, source: &[u8], fault: SourceFault) {
        if let SourceFault::At {
            card,
            code,
            columns,
        } = fault
        {
            let fault = CardFault {
                card,
                code,
                columns,
                cause: None,
            };
            let told = card_diagnostic(self.alloc(), self.file(), source, &fault);
            tell_made(self.listener, told);
        }
    }

    /// Converts a file to cards or shorthand, or rules its cards, as the arguments ask.
    fn wanted_text(&mut self, source: &[u8]) -> Result<String, Answer> {
        let made = match self.request.cards {
            CardsWanted::RuledCards if are_cards(source) => ruled_of(self.alloc(), source),
            CardsWanted::Cards | CardsWanted::RuledCards => return self.deck_text(source),
            CardsWanted::Shorthand => shorthand_of(self.alloc(), source),
        };
        if let Err(fault) = made {
            self.report_card(source, fault);
        }
        Ok(made?)
    }

    /// Prints the cards of a shorthand file, or the shorthand of a file of cards.
    pub fn convert_cards(&mut self) -> Ended {
        let source = self.source()?;
        let text = self.wanted_text(&source)?;
        if matches!(self.request.cards, CardsWanted::RuledCards) && !are_cards(&source) {
            self.listener.show(RULER)?;
        }
        self.listener.show(text.as_str())?;
        Ok(Answer::Deck)
    }
}
