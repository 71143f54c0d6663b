//! The standard streams, for diagnostics as text or as JSON objects, and for text before the line of an answer.

use json::Writer;
use rpg_cli_answers::Listener;
use rpg_cli_diagnostics::{
    Diagnostic, FileName, Level, Made, Place, begin_object, end_object, line_of, write_line_text,
    write_note_object, write_note_text, write_text,
};
use rpg_cli_files::{Reason, send_text};
use rpg_cli_text::TextWriter;
use rpg_cli_words::Format;
use std::alloc::Global;
use std::io::{self, Error, ErrorKind, Write};
use std::{mem, str};

/// How many bytes of lines wait before they are printed.
const ENOUGH: usize = 4_096;

/// What is printed once if memory runs out for a diagnostic, as text and as an object.
const LOST: &str = "rpg2: error: a diagnostic is lost: memory ran out for it\n";

const LOST_OBJECT: &str =
    "{\"level\":\"error\",\"message\":\"a diagnostic is lost: memory ran out for it\",\"code\":null,\"spans\":[],\"children\":[]}\n";

/// A remark that waits for an error.
#[derive(Drop)]
struct Remark {
    path: String,
    role: &'static str,
    message: String,
}

impl Remark {
    fn of(alloc: Global, file: FileName<'_>, message: &str) -> Made<Remark> {
        let path = file.path;
        Ok(Remark {
            path: format!(in alloc; "{path}")?,
            role: file.role,
            message: format!(in alloc; "{message}")?,
        })
    }
}

/// The standard streams of a program.
#[derive(Drop)]
pub struct StandardStreams<'a, R> {
    rt: &'a R,
    format: Format,
    has_colours: bool,
    has_lost: bool,
    /// Lines that aren't printed yet.
    lines: TextWriter,
    /// Whether the last diagnostic is an error, to which remarks belong.
    takes_remarks: bool,
    object: Option<Writer>,
    remarks: Vec<Remark>,
}

impl<'a, R: Print + Eprint + AllocGlobal> StandardStreams<'a, R> {
    pub fn new(rt: &'a R, format: Format, has_colours: bool) -> Self {
        StandardStreams {
            rt,
            format,
            has_colours,
            has_lost: false,
            lines: TextWriter::new(rt.alloc()),
            takes_remarks: false,
            object: None,
            remarks: Vec::new(rt.alloc()),
        }
    }
}

impl<R: Print + Eprint + AllocGlobal> StandardStreams<'_, R> {
    fn print(&mut self, text: &str) {
        if !text.is_empty() && self.rt.eprint(text).is_err() {
            self.has_lost = true;
        }
    }

    /// Prints a text, unless memory ran out for it.
    fn print_made(&mut self, text: Made<String>) {
        match text {
            Ok(text) => self.print(text.as_str()),
            Err(_) => self.lose(),
        }
    }

    /// Prints the lines that wait. Their memory is kept for the next ones.
    fn pass_lines(&mut self) {
        let mut lines = mem::replace(&mut self.lines, TextWriter::new(self.rt.alloc()));
        match lines.so_far() {
            Ok(text) => self.print(text),
            Err(_) => self.lose(),
        }
        lines.clear();
        self.lines = lines;
    }

    /// Prints a diagnostic. No lines wait.
    fn print_text(&mut self, told: &Diagnostic<'_>) {
        write_text(&mut self.lines, told, self.has_colours);
        self.pass_lines();
    }

    /// Begins the object of a diagnostic, which waits for remarks.
    fn begin(&mut self, told: &Diagnostic<'_>) {
        let mut out = Writer::new(Vec::new(self.rt.alloc()));
        match begin_object(self.rt.alloc(), &mut out, told) {
            Ok(()) => self.object = Some(out),
            Err(_) => self.lose(),
        }
    }

    fn pass_object(&mut self) {
        if let Some(out) = self.object.take() {
            self.print_made(object_line(out));
        }
    }

    /// Prints a note without a code on a line of its own.
    fn print_note(&mut self, place: Option<Place<'_>>, message: &str) {
        let note = match self.format {
            Format::Text => note_text(self.rt.alloc(), place, message, self.has_colours),
            Format::Json => note_object(self.rt.alloc(), place, message),
        };
        self.print_made(note);
    }

    fn add(&mut self, file: FileName<'_>, message: &str) {
        let place = Some(file.whole());
        let alloc = self.rt.alloc();
        let added = match &mut self.object {
            Some(out) => Some(write_note_object(alloc, out, place, message)),
            None => None,
        };
        match added {
            Some(Ok(())) => {}
            Some(Err(_)) => self.lose(),
            None => self.print_note(place, message),
        }
    }

    /// Adds the remarks that wait to the last diagnostic. Afterwards there are none.
    fn add_remarks(&mut self) {
        let remarks = mem::replace(&mut self.remarks, Vec::new(self.rt.alloc()));
        for remark in &remarks {
            let (path, role) = (remark.path.as_str(), remark.role);
            self.add(FileName { path, role }, remark.message.as_str());
        }
    }
}

/// Ends an object, and returns it on a line of its own.
fn object_line(mut out: Writer) -> Made<String> {
    end_object(&mut out)?;
    line_of(out)
}

fn note_text(
    alloc: Global,
    place: Option<Place<'_>>,
    message: &str,
    has_colours: bool,
) -> Made<String> {
    let mut out = TextWriter::new(alloc);
    write_note_text(&mut out, place, message, has_colours);
    out.finish()
}

/// Returns a note as an object on a line of its own.
fn note_object(alloc: Global, place: Option<Place>, message: &str) -> Made<String> {
    let mut out = Writer::new(Vec::new(alloc));
    write_note_object(alloc, &mut out, place, message)?;
    line_of(out)
}

impl<R: Print + Eprint + AllocGlobal> Listener for StandardStreams<'_, R> {
    fn tell(&mut self, told: &Diagnostic<'_>) {
        self.pass_on();
        match self.format {
            Format::Text => self.print_text(told),
            Format::Json => self.begin(told),
        }
        if told.level == Level::Error {
            self.takes_remarks = true;
            self.add_remarks();
        } else {
            self.pass_object();
        }
    }

    fn remark(&mut self, file: FileName<'_>, message: &str) {
        if self.takes_remarks {
            self.add(file, message);
            return;
        }
        let is_kept = match Remark::of(self.rt.alloc(), file, message) {
            Ok(remark) => self.remarks.push(remark).is_ok(),
            Err(_) => false,
        };
        if !is_kept {
            self.lose();
        }
    }

    fn line(&mut self, record: Option<Place<'_>>, text: &str) {
        self.takes_remarks = false;
        self.pass_object();
        match self.format {
            Format::Text => write_line_text(&mut self.lines, record, text),
            Format::Json => match note_object(self.rt.alloc(), record, text) {
                Ok(object) => self.lines.write_str(object.as_str()),
                Err(_) => self.lose(),
            },
        }
        if self.lines.len() >= ENOUGH {
            self.pass_lines();
        }
    }

    fn pass_on(&mut self) {
        self.takes_remarks = false;
        self.pass_object();
        self.pass_lines();
    }

    fn end(&mut self) {
        self.pass_on();
        self.add_remarks();
    }

    fn lose(&mut self) {
        let text = match self.format {
            Format::Text => LOST,
            Format::Json => LOST_OBJECT,
        };
        if !self.has_lost {
            self.print(text);
        }
        self.has_lost = true;
    }

    fn has_lost(&self) -> bool {
        self.has_lost
    }

    fn show(&mut self, text: &str) -> Result<(), Reason> {
        self.pass_on();
        send_text(&mut io::writer(self.rt), text)
    }
}

#[derive(Drop)]
pub struct StandardError<'a, R> {
    rt: &'a R,
}

impl<'a, R: Eprint> StandardError<'a, R> {
    pub fn new(rt: &'a R) -> Self {
        StandardError { rt }
    }
}

/// Makes a fault final, since part of the text may be written: the writer mustn't try again, as it would after an
/// interruption.
fn final_fault(error: &Error) -> Error {
    match error.kind() {
        ErrorKind::Interrupted => Error::from(ErrorKind::Other),
        kind => Error::from(kind),
    }
}

impl<R: Eprint> Write for StandardError<'_, R> {
    /// Writes a whole text. Bytes that aren't text are a fault.
    fn write(&mut self, buf: &[u8]) -> io::Result<usize> {
        let Ok(text) = str::from_utf8(buf) else {
            return Err(Error::from(ErrorKind::InvalidData));
        };
        match self.rt.eprint(text) {
            Ok(()) => Ok(buf.len()),
            Err(error) => Err(final_fault(&error)),
        }
    }

    fn flush(&mut self) -> io::Result<()> {
        Ok(())
    }
}
