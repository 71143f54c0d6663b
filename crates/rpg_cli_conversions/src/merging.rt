//! The command that writes lines of several files, or those of one with columns of the next.

ghost use Rattle.std.specs.Prelude.{◌^◌, ◌-◌, ◌<◌};
ghost use Rattle.rpg_files.specs.Counting.{faults_of};

use crate::records::{NewFiles, opened_input};
use rpg_cli_answers::{
    Answer, CommandStop, Listener, NamedFile, file_of, named, refuse_replacing, refuse_same_file,
    report_in_place, tell_made,
};
use rpg_cli_diagnostics::Draft;
use rpg_cli_files::{
    FileFault, KeptFile, LineTarget, Opened, Reason, RecordSource, file_bytes, kept_file, lines,
    records,
};
use rpg_cli_fitting::refusal_diagnostic;
use rpg_cli_words::{FileArgument, LinesWay, Request};
use rpg_files::Counted;
use rpg_record_merging::{
    AheadColumns, DeckStop, LineInput, MergeStop, Secondaries, merge, put_ahead, secondaries_of,
};
use std::alloc::Global;
use std::fs::OpenFile;
use std::io::{BufWriter, Input, Print, Read, Write};
use std::rt::Files;

/// How many bytes of OUT are buffered.
const WRITE_ROOM: usize = 65_536;

/// What is written, and to how many columns.
#[derive(Drop)]
enum Work {
    /// The secondary files of this deck are merged.
    Merge(Secondaries),
    Ahead(AheadColumns),
}

impl Work {
    /// Returns the most columns of a line.
    fn columns(&self) -> usize {
        match self {
            Work::Merge(deck) => longest(deck).saturating_add(1),
            Work::Ahead(columns) => {
                let ahead = columns.last.saturating_sub(columns.first);
                columns.length.saturating_add(ahead).saturating_add(1)
            }
        }
    }

    /// Returns how many files are read.
    fn files(&self) -> usize {
        match self {
            Work::Merge(deck) => deck.files.len(),
            Work::Ahead(_) => 1,
        }
    }

    /// Returns the most columns of a record of a file.
    fn length(&self, file: usize) -> usize {
        match self {
            Work::Merge(deck) => match deck.files.get(file) {
                Some(file) => file.length,
                None => 0,
            },
            Work::Ahead(columns) => columns.length,
        }
    }
}

fn longest(deck: &Secondaries) -> usize {
    let mut longest = 0;
    for file in deck.files.iter() {
        longest = file.length.max(longest);
    }
    longest
}

/// Reports why the deck has no files to merge, and returns the answer.
fn refuse_deck<L: Listener>(
    alloc: Global,
    request: &Request,
    source: &[u8],
    stop: &DeckStop,
    listener: &mut L,
) -> Answer {
    let file = file_of(request, FileArgument::Merge);
    let (card, told) = match stop {
        DeckStop::Refused(refusal) => {
            let told = refusal_diagnostic(alloc, file, source, refusal);
            (u16::try_from(refusal.card).ok(), told)
        }
        DeckStop::Length { card } => {
            let draft = Draft::error(alloc, file.line(*card as u64));
            let told = draft.filled("columns 24 to 27 have no record length", &[]);
            (u16::try_from(*card).ok(), told)
        }
        DeckStop::Count(count) => {
            let text = "--merge reads the old deck, with 2 to 26 secondary files: this one has {}";
            let draft = Draft::error(alloc, file.whole());
            (None, draft.filled(text, &[(*count).into()]))
        }
        DeckStop::NoMemory => return Answer::NoMemory,
    };
    tell_made(listener, told);
    Answer::DeckRefused { card }
}

/// Returns the place among the arguments of the file with a name.
fn place_of(request: &Request, name: &[u8]) -> Option<usize> {
    for (place, file) in request.tables.iter().enumerate() {
        if file.name.as_bytes() == name {
            return Some(place);
        }
    }
    None
}

/// Rejects names that aren't those of the deck's secondary files.
fn check_names<L: Listener>(
    alloc: Global,
    request: &Request,
    deck: &Secondaries,
    listener: &mut L,
) -> Result<(), Answer> {
    let mut draft = Draft::error(alloc, file_of(request, FileArgument::Merge).whole());
    let counts = [deck.files.len().into(), request.tables.len().into()];
    if let Some(name) = unnamed(request, deck) {
        draft.message.fill(
            "no NAME=FILE is given for the secondary file {}",
            &[name.into()],
        );
    } else if request.tables.len() > deck.files.len() {
        draft.message.fill("the deck has {} secondary files, and {} are given", &counts);
    } else {
        return Ok(());
    }
    tell_made(listener, draft.finish());
    Err(Answer::DeckRefused { card: None })
}

/// Returns the name of the first file of the deck that no argument names.
fn unnamed<'a>(request: &Request, deck: &'a Secondaries) -> Option<&'a [u8]> {
    for file in deck.files.iter() {
        if place_of(request, file.name.text()).is_none() {
            return Some(file.name.text());
        }
    }
    None
}

/// Returns what the arguments ask for. Reports a deck that is rejected.
fn work_of<R: Files + AllocGlobal, L: Listener>(
    rt: &R,
    request: &Request,
    way: LinesWay,
    listener: &mut L,
) -> Result<Work, Answer> {
    let LinesWay::Ahead { first, last } = way else {
        return merge_of(rt, request, listener);
    };
    Ok(Work::Ahead(AheadColumns {
        first: usize::from(first),
        last: usize::from(last),
        length: usize::from(request.length.unwrap_or(0)),
    }))
}

fn merge_of<R: Files + AllocGlobal, L: Listener>(
    rt: &R,
    request: &Request,
    listener: &mut L,
) -> Result<Work, Answer> {
    let path = request.file(FileArgument::Merge);
    let source = named(FileArgument::Merge, file_bytes(rt, path))?;
    match secondaries_of(rt.alloc(), source.as_slice()) {
        Ok(deck) => {
            check_names(rt.alloc(), request, &deck, listener)?;
            Ok(Work::Merge(deck))
        }
        Err(stop) => Err(refuse_deck(rt.alloc(), request, source.as_slice(), &stop, listener)),
    }
}

/// Returns the argument of a file that is read, by its place in the work.
fn argument_of(request: &Request, work: &Work, file: usize) -> FileArgument {
    match work {
        Work::Merge(deck) => match deck.files.get(file) {
            Some(file) => { FileArgument::Merged(place_of(request, file.name.text()).unwrap_or(0)) }
            None => FileArgument::Out,
        },
        Work::Ahead(_) => FileArgument::In,
    }
}

/// Opens the files that are read, none of which may be OUT.
fn opened_inputs<R: Files + Input + AllocGlobal>(
    rt: &R,
    request: &Request,
    work: &Work,
    output: NamedFile,
) -> Result<Vec<RecordSource<R::File, R::Reader>>, CommandStop> {
    let mut sources = Vec::new(rt.alloc());
    for file in 0..work.files() {
        let argument = argument_of(request, work, file);
        let input = opened_input(rt, request, argument)?;
        refuse_same_file(
            output,
            &[NamedFile::opened(rt, argument, &input, "/dev/stdin")?],
        )?;
        if sources.push(records(rt, input)).is_err() {
            return Err(Answer::NoMemory.into());
        }
    }
    Ok(sources)
}

/// Writes the lines of the sources.
fn write_lines<F: Read + Drop, S: Read + Drop, W: Write>(
    alloc: Global,
    work: &Work,
    sources: &mut [RecordSource<F, S>],
    writer: &mut Counted<W>,
) -> Result<u64, MergeStop>
    requires { faults_of writer.old < 2 ^ 64 - 1 }
{
    match work {
        Work::Merge(deck) => {
            let mut inputs = Vec::new(alloc);
            let all = sources.iter_mut();
            for source in all {
                inputs.push(LineInput::new(alloc, source)?)?;
            }
            merge(alloc, deck, inputs.as_mut_slice(), writer)
        }
        Work::Ahead(columns) => match sources.get_mut(0) {
            Some(source) => put_ahead(alloc, *columns, source, writer),
            None => Ok(0),
        },
    }
}

/// Returns the answer for lines that ended early. Reports a line that is rejected.
fn early_answer<F, S, L: Listener>(
    alloc: Global,
    request: &Request,
    work: &Work,
    stop: MergeStop,
    sources: &[RecordSource<F, S>],
    written: Option<Reason>,
    listener: &mut L,
) -> Answer {
    match stop {
        MergeStop::Long { file, number } => {
            let argument = argument_of(request, work, file);
            let place = file_of(request, argument).line(number);
            let text = "the line has more than {} columns, the record length";
            let length = work.length(file).into();
            tell_made(listener, Draft::error(alloc, place).filled(text, &[length]));
            Answer::RecordRefused { number }
        }
        MergeStop::TooMany => {
            let place = file_of(request, FileArgument::Out).whole();
            let text = "a file has at most 10,000,000 records";
            tell_made(listener, Draft::error(alloc, place).filled(text, &[]));
            Answer::RecordRefused { number: 10_000_001 }
        }
        MergeStop::Read { file } => {
            let reason = match sources.get(file) {
                Some(source) => source.fault(),
                None => None,
            };
            Answer::File {
                argument: argument_of(request, work, file),
                fault: FileFault::Input(reason.unwrap_or(Reason::Other)),
            }
        }
        MergeStop::Write => Answer::File {
            argument: FileArgument::Out,
            fault: FileFault::Output(written.unwrap_or(Reason::Other)),
        },
        MergeStop::NoMemory => Answer::NoMemory,
    }
}

/// Writes the lines of the sources to the open OUT, and flushes it. Reports what ends that early.
fn convert<
    F: Read + Drop,
    S: Read + Drop,
    T: Write + OpenFile + Drop,
    P: Write + Drop,
    L: Listener,
>(
    alloc: Global,
    request: &Request,
    work: &Work,
    sources: &mut [RecordSource<F, S>],
    target: LineTarget<'_, T, P>,
    listener: &mut L,
) -> Result<u64, Answer> {
    let Ok(buffered) = BufWriter::with_capacity(alloc, WRITE_ROOM, target) else {
        return Err(Answer::NoMemory);
    };
    let mut writer = Counted::new(buffered);
    let converted = write_lines(alloc, work, sources, &mut writer);
    match flushed(converted, &mut writer) {
        Ok(records) => Ok(records),
        Err(stop) => {
            let written = writer.device().get_ref().fault();
            Err(early_answer(alloc, request, work, stop, sources, written, listener))
        }
    }
}

/// Flushes the output of a whole conversion.
fn flushed<W: Write>(
    converted: Result<u64, MergeStop>,
    writer: &mut Counted<W>,
) -> Result<u64, MergeStop> {
    let records = converted?;
    if writer.faults() > 0 {
        return Err(MergeStop::Write);
    }
    match writer.flush() {
        Ok(()) => Ok(records),
        Err(_) => Err(MergeStop::Write),
    }
}

/// Writes the lines to the open OUT, unless another argument names that file.
fn convert_opened<R: Files + Input + Print + AllocGlobal, L: Listener>(
    rt: &R,
    request: &Request,
    work: &Work,
    output: Opened<R::File>,
    listener: &mut L,
) -> Result<u64, CommandStop> {
    let place = NamedFile::named(rt, FileArgument::Out, request.output);
    let mut sources = opened_inputs(rt, request, work, place)?;
    let deck = NamedFile::named(rt, FileArgument::Merge, request.deck);
    refuse_same_file(place, &[deck])?;
    refuse_replacing(rt, FileArgument::Out, request.output, false)?;
    report_in_place(rt.alloc(), request, FileArgument::Out, &output, listener);
    named(FileArgument::Out, output.empty())?;
    let target = lines(rt, output, None);
    let sources = sources.as_mut_slice();
    Ok(convert(rt.alloc(), request, work, sources, target, listener)?)
}

/// Merges the secondary files of a deck, or puts columns of the next line after each line.
///
/// OUT is moved to its place once it is whole: otherwise it stays unchanged.
pub(crate) fn lines_file<R: Files + Input + Print + AllocGlobal, L: Listener>(
    rt: &R,
    request: &Request,
    way: LinesWay,
    listener: &mut L,
) -> Result<Answer, CommandStop> {
    let work = work_of(rt, request, way, listener)?;
    let place = request.file(FileArgument::Out);
    let KeptFile { opened, pending } = named(FileArgument::Out, kept_file(rt, place, listener))?;
    let converted = convert_opened(rt, request, &work, opened, listener);
    let new = NewFiles {
        lines: pending,
        deck: None,
    };
    new.report_taken(rt.alloc(), listener);
    let records = new.conclude(rt, converted, listener)?;
    Ok(Answer::Records {
        records,
        dropped: 0,
        columns: work.columns() as u64,
    })
}
