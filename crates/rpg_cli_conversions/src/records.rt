//! The command that converts records to lines, and such lines to records.

use crate::merging::lines_file;
use crate::refused::{RefusedRecord, deck_diagnostic, record_diagnostic};
use rpg_cli_answers::{
    Answer, CommandStop, Listener, NamedFile, file_of, named, refuse_replacing, refuse_same_file,
    report_in_place, report_placed, tell_made,
};
use rpg_cli_csv::{FileRows, convert_rows, file_rows};
use rpg_cli_files::{
    FileFault, KeptFile, LineTarget, Opened, Pending, Reason, RecordSource, file_bytes, input_file,
    kept_file, lines, records,
};
use rpg_cli_messages::{is_object, object_diagnostic};
use rpg_cli_words::{
    FileArgument, RecordFraming, RecordsWay, Request, RowsWay, SameFile, Shared, is_standard,
};
use rpg_record_decks::{CardChange, DeckArguments, DeckFault, fitted_deck};
use rpg_record_lines::{
    ConversionFault, Counts, Framing, Layout, Page, RecordFormat, lines_to_records,
    records_to_lines,
};
use rpg_record_outputs::{BackLayout, back_layout, deck_changes, input_layout, rows_layout};
use std::alloc::Global;
use std::fs::OpenFile;
use std::io::{self, BufWriter, Read, Write};
use std::rt::Files;

/// How many bytes of OUT are buffered.
const WRITE_ROOM: usize = 65_536;

/// Returns the answer for a deck that is rejected.
fn refusal(fault: DeckFault) -> Answer {
    match fault {
        DeckFault::Card { number, .. } => Answer::DeckRefused { card: Some(number) },
        DeckFault::NoFile => Answer::DeckRefused { card: None },
        DeckFault::NoMemory => Answer::NoMemory,
    }
}

/// Whether lines become rows of comma-separated values.
fn makes_rows(request: &Request) -> bool {
    match request.rows_of_values {
        Some(rows) => rows.way == RowsWay::ToRows,
        None => false,
    }
}

/// Returns what the deck determines. Reports a bad card.
fn accepted<T: Drop, L: Listener>(
    alloc: Global,
    request: &Request,
    source: &[u8],
    read: Result<T, DeckFault>,
    listener: &mut L,
) -> Result<T, Answer> {
    match read {
        Ok(value) => Ok(value),
        Err(fault) => {
            let file = file_of(request, request.deck_argument());
            let told = if is_object(source) {
                object_diagnostic(alloc, file)
            } else {
                let sought = if makes_rows(request) {
                    "a file"
                } else {
                    "an input file"
                };
                deck_diagnostic(alloc, file, fault, sought)
            };
            tell_made(listener, told);
            Err(refusal(fault))
        }
    }
}

/// Returns the layout of the records: for `--to` that of an output file, if lines of one become records.
fn layout(alloc: Global, request: &Request, source: &[u8]) -> Result<BackLayout, DeckFault> {
    let arguments = DeckArguments {
        file: request.file_name,
        length: request.length,
        are_lines: request.framing == RecordFraming::Lines,
    };
    if makes_rows(request) {
        return rows_layout(alloc, source, arguments);
    }
    if request.way == RecordsWay::ToRecords && request.rows_of_values.is_none() {
        return back_layout(alloc, source, arguments);
    }
    Ok(BackLayout {
        layout: input_layout(alloc, source, arguments)?,
        written: None,
    })
}

/// Returns the changes of the cards in the deck that reads the lines, if the arguments ask for it.
fn changes(
    alloc: Global,
    request: &Request,
    source: &[u8],
    layout: &Layout,
) -> Result<Vec<CardChange>, DeckFault> {
    match request.new_deck {
        Some(_) => deck_changes(alloc, source, layout),
        None => Ok(Vec::new(alloc)),
    }
}

fn format_of(request: &Request) -> RecordFormat {
    RecordFormat {
        page: if request.is_ascii {
            Page::Ascii
        } else {
            Page::Ebcdic
        },
        framing: match request.framing {
            RecordFraming::EndToEnd => Framing::EndToEnd,
            RecordFraming::Descriptors => Framing::Descriptors,
            RecordFraming::Lines => Framing::Lines,
        },
        low_blank: request.low_blank,
        dropped: request.dropped,
    }
}

/// Opens a file that is read.
pub(crate) fn opened_input<R: Files>(
    rt: &R,
    request: &Request,
    argument: FileArgument,
) -> Result<Opened<R::File>, Answer> {
    let path = request.file(argument);
    if is_standard(path) {
        return Ok(Opened::Standard);
    }
    let file = named(argument, input_file(rt, path))?;
    Ok(Opened::File(file))
}

/// The files that are written beside their places.
#[derive(Drop)]
pub(crate) struct NewFiles<'a> {
    pub lines: Option<Pending<'a>>,
    pub deck: Option<Pending<'a>>,
}

impl<'a> NewFiles<'a> {
    /// Opens NEW for writing, if the arguments ask for it.
    fn opened_deck<R: Files + AllocGlobal, L: Listener>(
        &mut self,
        rt: &R,
        request: &Request<'a>,
        listener: &mut L,
    ) -> Result<Opened<R::File>, Answer> {
        let Some(path) = request.new_deck else {
            return Ok(Opened::Nothing);
        };
        let new = kept_file(rt, path, listener);
        let KeptFile { opened, pending } = named(FileArgument::NewDeck, new)?;
        self.deck = pending;
        Ok(opened)
    }

    /// Refuses to make one file of OUT and NEW, if neither exists yet.
    fn refuse_shared<R: Files + AllocGlobal>(&self, rt: &R) -> Result<(), CommandStop> {
        let (Some(lines), Some(deck)) = (&self.lines, &self.deck) else {
            return Ok(());
        };
        if named(FileArgument::NewDeck, lines.goes_to(rt, deck.place()))? {
            return Err(CommandStop::SameFile(SameFile {
                earlier: FileArgument::Out,
                written: FileArgument::NewDeck,
                shared: Shared::File,
            }));
        }
        Ok(())
    }

    /// Reports what other runs left beside the files.
    pub fn report_taken<L: Listener>(&self, alloc: Global, listener: &mut L) {
        if let Some(lines) = &self.lines {
            lines.report_taken(alloc, listener);
        }
        if let Some(deck) = &self.deck {
            deck.report_taken(alloc, listener);
        }
    }

    /// Moves OUT to its place, then NEW. Reports OUT if NEW can't be moved.
    fn put_in_place<R: Files + AllocGlobal, L: Listener>(
        &self,
        rt: &R,
        listener: &mut L,
    ) -> Result<(), Answer> {
        if let Some(lines) = &self.lines {
            named(FileArgument::Out, lines.put_in_place(rt))?;
        }
        let Some(deck) = &self.deck else {
            return Ok(());
        };
        let moved = deck.put_in_place(rt);
        if moved.is_err() {
            report_placed(rt.alloc(), FileArgument::Out, &self.lines, listener);
        }
        named(FileArgument::NewDeck, moved)
    }

    /// Moves the files to their places once both are whole, or removes them.
    pub fn conclude<C: Drop, R: Files + AllocGlobal, L: Listener>(
        &self,
        rt: &R,
        converted: Result<C, CommandStop>,
        listener: &mut L,
    ) -> Result<C, CommandStop> {
        let concluded = match converted {
            Ok(counts) => match self.put_in_place(rt, listener) {
                Ok(()) => Ok(counts),
                Err(answer) => Err(answer.into()),
            },
            Err(stop) => Err(stop),
        };
        if concluded.is_err() {
            remove(rt, &self.lines, listener);
            remove(rt, &self.deck, listener);
        }
        concluded
    }
}

/// Removes a new file, if there is one.
fn remove<R: Files + AllocGlobal, L: Listener>(
    rt: &R,
    file: &Option<Pending<'_>>,
    listener: &mut L,
) {
    if let Some(pending) = file {
        pending.discard(rt, listener);
    }
}

/// Refuses to write a file that another argument names too, or that isn't replaced.
fn keep_files<R: Files + AllocGlobal>(
    rt: &R,
    request: &Request,
    input: &Opened<R::File>,
    new: &NewFiles<'_>,
) -> Result<(), CommandStop> {
    let deck = NamedFile::named(rt, request.deck_argument(), request.deck);
    let input = NamedFile::opened(rt, FileArgument::In, input, "/dev/stdin")?;
    let output = NamedFile::named(rt, FileArgument::Out, request.output);
    let new_deck = NamedFile::named(rt, FileArgument::NewDeck, request.new_deck);
    refuse_same_file(output, &[input, deck])?;
    refuse_same_file(new_deck, &[input, output, deck])?;
    new.refuse_shared(rt)?;
    refuse_replacing(rt, FileArgument::Out, request.output, false)?;
    Ok(refuse_replacing(rt, FileArgument::NewDeck, request.new_deck, false)?)
}

/// Returns why a device failed, if it gave a reason.
fn reason_of(fault: Option<Reason>) -> Reason {
    fault.unwrap_or(Reason::Other)
}

/// Returns the answer for a conversion that ended early. Reports a bad record.
fn early_answer<L: Listener>(
    alloc: Global,
    request: &Request,
    deck: RecordDeck<'_>,
    fault: ConversionFault,
    read: Option<Reason>,
    written: Option<Reason>,
    listener: &mut L,
) -> Answer {
    match fault {
        ConversionFault::Record {
            number,
            offset,
            fault,
        } => {
            let refused = RefusedRecord {
                way: request.way,
                lines_of: deck.written,
                number,
                offset,
                fault,
            };
            let file = file_of(request, FileArgument::In);
            tell_made(listener, record_diagnostic(alloc, file, refused));
            Answer::RecordRefused { number }
        }
        ConversionFault::Read => Answer::File {
            argument: FileArgument::In,
            fault: FileFault::Input(reason_of(read)),
        },
        ConversionFault::Write => Answer::File {
            argument: FileArgument::Out,
            fault: FileFault::Output(reason_of(written)),
        },
        ConversionFault::NoMemory => Answer::NoMemory,
    }
}

/// Converts records to lines, or lines to records, and flushes the output.
fn convert_all<S: Read, T: Write>(
    alloc: Global,
    request: &Request,
    layout: &Layout,
    source: &mut S,
    target: &mut T,
) -> Result<Counts, ConversionFault> {
    let format = format_of(request);
    let counts = match request.way {
        RecordsWay::ToLines => records_to_lines(alloc, layout, format, source, target)?,
        RecordsWay::ToRecords => lines_to_records(alloc, layout, format, source, target)?,
    };
    match target.flush() {
        Ok(()) => Ok(counts),
        Err(_) => Err(ConversionFault::Write),
    }
}

/// Like `convert_all`, for the files of the request. Reports what ends it early.
fn convert<
    F: Read + Drop,
    S: Read + Drop,
    T: Write + OpenFile + Drop,
    P: Write + Drop,
    L: Listener,
>(
    alloc: Global,
    request: &Request,
    deck: RecordDeck<'_>,
    mut source: RecordSource<F, S>,
    target: LineTarget<'_, T, P>,
    listener: &mut L,
) -> Result<Counts, Answer> {
    let Ok(mut writer) = BufWriter::with_capacity(alloc, WRITE_ROOM, target) else {
        return Err(Answer::NoMemory);
    };
    match convert_all(alloc, request, deck.layout, &mut source, &mut writer) {
        Ok(counts) => Ok(counts),
        Err(fault) => {
            let (read, written) = (source.fault(), writer.get_ref().fault());
            Err(early_answer(alloc, request, deck, fault, read, written, listener))
        }
    }
}

/// The deck of the records, their layout, and their rows of comma-separated values, if they are such rows.
#[derive(Clone, Copy)]
struct RecordDeck<'a> {
    source: &'a [u8],
    layout: &'a Layout,
    /// The output file whose lines become records, if it is one.
    written: Option<[u8; 8]>,
    /// The changes of the deck's cards, if the arguments ask for a new deck.
    changes: &'a [CardChange],
    rows: Option<&'a FileRows<'a>>,
}

/// Writes the deck that reads the lines, if the arguments ask for it.
fn write_deck<R: Files + Print + AllocGlobal>(
    rt: &R,
    deck: RecordDeck<'_>,
    opened: Opened<R::File>,
) -> Result<(), Answer> {
    if let Opened::Nothing = opened {
        return Ok(());
    }
    let Ok(text) = fitted_deck(rt.alloc(), deck.source, deck.changes) else {
        return Err(Answer::NoMemory);
    };
    named(FileArgument::NewDeck, opened.empty())?;
    match write_whole(&mut lines(rt, opened, None), text.as_slice()) {
        Ok(()) => Ok(()),
        Err(error) => Err(Answer::File {
            argument: FileArgument::NewDeck,
            fault: FileFault::Output(Reason::of(error.kind())),
        }),
    }
}

fn write_whole<W: Write>(out: &mut W, bytes: &[u8]) -> io::Result<()> {
    out.write_all(bytes)?;
    out.flush()
}

/// Converts the open files, unless another argument names a file that is written. NEW is written last.
fn convert_opened<'a, R: Files + Input + Print + AllocGlobal, L: Listener>(
    rt: &R,
    request: &Request<'a>,
    deck: RecordDeck<'_>,
    input: Opened<R::File>,
    output: Opened<R::File>,
    new: &mut NewFiles<'a>,
    listener: &mut L,
) -> Result<Counts, CommandStop> {
    let new_deck = new.opened_deck(rt, request, listener)?;
    keep_files(rt, request, &input, new)?;
    new.report_taken(rt.alloc(), listener);
    report_in_place(rt.alloc(), request, FileArgument::Out, &output, listener);
    report_in_place(
        rt.alloc(),
        request,
        FileArgument::NewDeck,
        &new_deck,
        listener,
    );
    named(FileArgument::Out, output.empty())?;
    let (from, to) = (records(rt, input), lines(rt, output, None));
    let counts = match deck.rows {
        Some(rows) => convert_rows(rt.alloc(), request, rows, from, to, listener)?,
        None => convert(rt.alloc(), request, deck, from, to, listener)?,
    };
    write_deck(rt, deck, new_deck)?;
    Ok(counts)
}

/// Converts the records or the lines of a file.
fn convert_file<R: Files + Input + Print + AllocGlobal, L: Listener>(
    rt: &R,
    request: &Request,
    deck: RecordDeck<'_>,
    listener: &mut L,
) -> Result<Counts, CommandStop> {
    let input = opened_input(rt, request, FileArgument::In)?;
    let place = request.file(FileArgument::Out);
    let KeptFile { opened, pending } = named(FileArgument::Out, kept_file(rt, place, listener))?;
    let mut new = NewFiles {
        lines: pending,
        deck: None,
    };
    let converted = convert_opened(rt, request, deck, input, opened, &mut new, listener);
    new.conclude(rt, converted, listener)
}

/// Converts the records of a file to lines, or its lines to records.
///
/// OUT and NEW are moved to their places once both are whole: otherwise both stay unchanged.
pub fn records_file<R: Files + Input + Print + AllocGlobal, L: Listener>(
    rt: &R,
    request: &Request,
    listener: &mut L,
) -> Result<Answer, CommandStop> {
    if let Some(way) = request.lines_way {
        return lines_file(rt, request, way, listener);
    }
    let deck = request.deck_argument();
    let source = named(deck, file_bytes(rt, request.file(deck)))?;
    let read = layout(rt.alloc(), request, &source);
    let BackLayout { layout, written } = accepted(rt.alloc(), request, &source, read, listener)?;
    let made = changes(rt.alloc(), request, &source, &layout);
    let changes = accepted(rt.alloc(), request, &source, made, listener)?;
    let rows = file_rows(rt.alloc(), request, &source, &layout, written, listener)?;
    let deck = RecordDeck {
        source: &source,
        layout: &layout,
        written,
        changes: changes.as_slice(),
        rows: rows.as_ref(),
    };
    let Counts { records, dropped } = convert_file(rt, request, deck, listener)?;
    Ok(Answer::Records {
        records,
        dropped,
        columns: layout.columns() as u64,
    })
}
