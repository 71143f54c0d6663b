//! Rows of comma-separated values that become lines, and lines that become rows.

ghost use Rattle.std.specs.Prelude.{◌^◌, ◌-◌, ◌<◌};
ghost use Rattle.rpg_files.specs.Counting.{faults_of};

use crate::messages::{card_diagnostic, input_diagnostic};
use rpg_card_index::IndexedCards;
use rpg_cli_answers::{Answer, Listener, RefusedRow, file_of, tell_all, tell_made};
use rpg_cli_files::{FileFault, LineTarget, Reason, RecordSource};
use rpg_cli_messages::source_diagnostics;
use rpg_cli_words::{FileArgument, Request, RowArguments, RowsWay};
use rpg_csv_columns::{Fault, FileFields, Part, Refusal, file_fields};
use rpg_csv_lines::{Format, Header, Setting, Stop, lines_to_rows, rows_to_lines};
use rpg_csv_outputs::written_fields;
use rpg_csv_values::NumberFormat;
use rpg_faults::{SourceFault, SourceFaults, source_faults};
use rpg_files::Counted;
use rpg_record_lines::{Counts, Layout};
use rpg_text::trimmed;
use std::alloc::Global;
use std::fs::OpenFile;
use std::io::{BufWriter, Read, Write};

/// The most faults of a deck that are reported.
const MOST_TOLD: u16 = 20;

/// How many bytes of OUT are buffered.
const WRITE_ROOM: usize = 65_536;

/// How the rows of a file are written, and its fields.
#[derive(Drop)]
pub struct FileRows<'a> {
    arguments: RowArguments<'a>,
    fields: FileFields,
}

/// Returns the first packed or binary field of an output file's lines, as a fault.
fn packed_field(layout: &Layout) -> Option<Refusal> {
    for line in layout.types.as_slice() {
        if let [field, ..] = line.numbers.as_slice() {
            return Some(Refusal::new(Part::Card(field.card), Fault::Packed));
        }
    }
    None
}

/// Returns the cards of a deck without faults. Reports its faults.
fn faultless<L: Listener>(
    alloc: Global,
    request: &Request,
    source: &[u8],
    listener: &mut L,
) -> Result<SourceFaults, Answer> {
    let judged = source_faults(alloc, source)?;
    let Some(first) = judged.faults.first() else {
        return Ok(judged);
    };
    let file = file_of(request, request.deck_argument());
    let told = source_diagnostics(alloc, file, source, &judged, MOST_TOLD);
    tell_all(listener, &told);
    Err(Answer::Source(SourceFault::At {
        card: first.card,
        code: first.code,
        columns: first.columns,
    }))
}

/// Returns the fields of the lines that a job writes to the file with this name, whose records have this layout.
fn output_fields<L: Listener>(
    alloc: Global,
    request: &Request,
    source: &[u8],
    layout: &Layout,
    name: &[u8],
    listener: &mut L,
) -> Result<Result<FileFields, Refusal>, Answer> {
    if let Some(refusal) = packed_field(layout) {
        return Ok(Err(refusal));
    }
    let judged = faultless(alloc, request, source, listener)?;
    let Ok(cards) = IndexedCards::new(alloc, judged.cards.as_slice()) else {
        return Err(Answer::NoMemory);
    };
    Ok(written_fields(alloc, &cards, trimmed(name), usize::from(layout.length)))
}

/// Returns the rows of the file, if rows are converted. Reports a bad card. `written` is the name of the file if a job writes it.
pub fn file_rows<'a, L: Listener>(
    alloc: Global,
    request: &Request<'a>,
    source: &[u8],
    layout: &Layout,
    written: Option<[u8; 8]>,
    listener: &mut L,
) -> Result<Option<FileRows<'a>>, Answer> {
    let Some(arguments) = request.rows_of_values else {
        return Ok(None);
    };
    let fields = match written {
        Some(name) => output_fields(alloc, request, source, layout, &name, listener)?,
        None => file_fields(alloc, source, layout),
    };
    match fields {
        Ok(fields) => Ok(Some(FileRows { arguments, fields })),
        Err(
            Refusal {
                fault: Fault::NoMemory,
                ..
            },
        ) => Err(Answer::NoMemory),
        Err(
            Refusal {
                part: Part::Card(number),
                fault,
                ..
            },
        ) => {
            let file = file_of(request, request.deck_argument());
            tell_made(listener, card_diagnostic(alloc, file, number, fault));
            Err(Answer::DeckRefused { card: Some(number) })
        }
        Err(_) => Err(Answer::NoMemory),
    }
}

impl FileRows<'_> {
    fn setting(&self) -> Setting<'_> {
        let arguments = self.arguments;
        Setting {
            fields: &self.fields,
            format: Format {
                delimiter: arguments.delimiter,
                number: NumberFormat {
                    decimal: arguments.decimal,
                    group: arguments.group,
                },
                replacement: arguments.replacement,
            },
            header: match arguments.columns {
                Some(names) => Header::Given {
                    names,
                    passes_row: arguments.has_header,
                },
                None if arguments.has_header => Header::FirstRow,
                None => Header::Fields,
            },
        }
    }

    /// Converts rows to lines or lines to rows, and flushes the output.
    fn convert<R: Read, W: Write>(
        &self,
        alloc: Global,
        reader: &mut Counted<R>,
        writer: &mut Counted<W>,
    ) -> Result<Counts, Stop>
        requires read { faults_of reader.old < 2 ^ 64 - 1 }
        requires write { faults_of writer.old < 2 ^ 64 - 1 }
    {
        let setting = self.setting();
        let records = match self.arguments.way {
            RowsWay::ToLines => rows_to_lines(alloc, setting, reader, writer)?,
            RowsWay::ToRows => lines_to_rows(alloc, setting, reader, writer)?,
        };
        match writer.flush() {
            Ok(()) => Ok(Counts {
                records,
                dropped: 0,
            }),
            Err(_) => Err(Stop::Write),
        }
    }
}

/// Returns the answer for a part of the input that is rejected. Reports it.
fn refused<L: Listener>(
    alloc: Global,
    request: &Request,
    rows: &FileRows<'_>,
    refusal: Refusal,
    listener: &mut L,
) -> Answer {
    let file = file_of(request, FileArgument::In);
    let has_header = rows.arguments.has_header;
    tell_made(
        listener,
        input_diagnostic(alloc, file, has_header, &rows.fields, refusal),
    );
    match refusal.part {
        Part::Row { number, .. } => Answer::RowRefused(RefusedRow::Row(number)),
        Part::Line(number) => Answer::RowRefused(RefusedRow::Line(number)),
        Part::Header | Part::Card(_) => Answer::RowRefused(RefusedRow::Header),
    }
}

/// Converts rows to lines or lines to rows, for the files of the request. Reports what ends it early.
pub fn convert_rows<
    F: Read + Drop,
    S: Read + Drop,
    T: Write + OpenFile + Drop,
    P: Write + Drop,
    L: Listener,
>(
    alloc: Global,
    request: &Request,
    rows: &FileRows<'_>,
    source: RecordSource<F, S>,
    target: LineTarget<'_, T, P>,
    listener: &mut L,
) -> Result<Counts, Answer> {
    let Ok(buffered) = BufWriter::with_capacity(alloc, WRITE_ROOM, target) else {
        return Err(Answer::NoMemory);
    };
    let mut reader = Counted::new(source);
    let mut writer = Counted::new(buffered);
    let (argument, fault) = match rows.convert(alloc, &mut reader, &mut writer) {
        Ok(counts) => return Ok(counts),
        Err(Stop::NoMemory) => return Err(Answer::NoMemory),
        Err(Stop::Refused(refusal)) => {
            return Err(refused(alloc, request, rows, refusal, listener));
        }
        Err(Stop::Read) => {
            let reason = reader.device().fault().unwrap_or(Reason::Other);
            (FileArgument::In, FileFault::Input(reason))
        }
        Err(Stop::Write) => {
            let reason = writer.device().get_ref().fault().unwrap_or(Reason::Other);
            (FileArgument::Out, FileFault::Output(reason))
        }
    };
    Err(Answer::File { argument, fault })
}
