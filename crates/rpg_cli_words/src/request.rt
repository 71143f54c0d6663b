//! What the arguments request.

ghost use Rattle.std.specs.Prelude.{◌<◌};

use crate::checking::{LinesWay, RowArguments, bad_value, push_merged};
use crate::commands::matches_of;
use crate::options::{
    AnswerArguments, CardsWanted, LookArguments, PaperArguments, RecordFraming, RecordsWay,
    TableArgument, WarningArguments,
};
use crate::refusal::{Refusal, unread};
use clap::ArgMatches;
use rpg_cli_values::{DateArgument, byte_of};
use std::alloc::{AllocError, Global};

#[derive(Clone, Copy, PartialEq, Eq)]
pub enum CommandName {
    Compile,
    Check,
    List,
    Cards,
    Records,
    Fit,
    Verify,
    Show,
    Run,
    Go,
    Explain,
    Paper,
}

impl CommandName {
    fn of(name: &str) -> Option<CommandName> {
        Some(match name {
            "compile" => CommandName::Compile,
            "check" => CommandName::Check,
            "list" => CommandName::List,
            "cards" => CommandName::Cards,
            "records" => CommandName::Records,
            "fit" => CommandName::Fit,
            "verify" => CommandName::Verify,
            "show" => CommandName::Show,
            "run" => CommandName::Run,
            "go" => CommandName::Go,
            "paper" => CommandName::Paper,
            "explain" => CommandName::Explain,
            _ => return None,
        })
    }

    /// Returns INPUT and PRINT; the print of `paper` is its input, and that of `go` goes to standard output if it isn't named.
    fn devices<'a>(self, given: &ArgMatches<'a>) -> (Option<&'a str>, Option<&'a str>) {
        let print = given.get_str("PRINT");
        match self {
            CommandName::Paper => (print, None),
            CommandName::Go => (given.get_str("INPUT"), print.or(Some("-"))),
            _ => (given.get_str("INPUT"), print),
        }
    }
}

/// A command and its arguments, which the lines of `commands` describe under the same names. One that its command doesn't have is absent or
/// the default.
#[derive(Drop)]
pub struct Request<'a> {
    pub command: CommandName,
    /// SRC; `check` may have several.
    pub sources: Vec<&'a str>,
    pub object: Option<&'a str>,
    /// INPUT, or IN of `records`, or PRINT of `paper`.
    pub input: Option<&'a str>,
    pub print: Option<&'a str>,
    pub date: Option<DateArgument<'a>>,
    pub secondary: Option<&'a str>,
    pub disk: Option<&'a str>,
    pub own_source: Option<&'a str>,
    pub most: Option<u64>,
    pub most_bytes: Option<u64>,
    pub keeps: bool,
    pub looks: LookArguments,
    pub allowance: u16,
    pub warnings: WarningArguments,
    pub answer: AnswerArguments,
    pub cards: CardsWanted,
    /// Whether `show` prints all rows: if the arguments ask for them, or name the source, whose names appear in them.
    pub rows: bool,
    /// OUT of `records`, or PDF of `paper`.
    pub output: Option<&'a str>,
    pub paper: PaperArguments,
    pub deck: Option<&'a str>,
    pub way: RecordsWay,
    pub file_name: Option<&'a str>,
    pub length: Option<u16>,
    pub framing: RecordFraming,
    pub is_ascii: bool,
    pub low_blank: bool,
    pub dropped: Option<u8>,
    /// What `records` does with whole lines, if it takes them as they are.
    pub lines_way: Option<LinesWay>,
    /// How rows of comma-separated values are written, if these are converted.
    pub rows_of_values: Option<RowArguments<'a>>,
    /// The deck that reads the lines, or the rewritten form of an old deck.
    pub new_deck: Option<&'a str>,
    pub forces: bool,
    /// Table files, or the secondary files that are merged.
    pub tables: Vec<TableArgument<'a>>,
    pub switches: Option<&'a str>,
    pub gives_forms: bool,
    pub printer: Option<&'a str>,
    /// The codes, with the number of a halt as one of its own; if there are none, all are explained.
    pub codes: Vec<&'a str>,
    pub lists: bool,
    ghost positive: { 0 < allowance },
}

impl Request<'_> {
    /// Returns the six digits of the date, zeros for a job that has none.
    pub fn date_text(&self) -> &str {
        match &self.date {
            None => "000000",
            Some(date) => date.text(),
        }
    }

    pub fn set_today(&mut self, digits: [u8; 6]) {
        self.date = Some(DateArgument::Clock(digits));
    }
}

fn texts<'a>(
    alloc: Global,
    given: &ArgMatches<'a>,
    name: &str,
) -> Result<Vec<&'a str>, AllocError> {
    given.get_strs(name).unwrap_or(&[]).to_vec(alloc)
}

fn tables<'a>(alloc: Global, given: &ArgMatches<'a>) -> Result<Vec<TableArgument<'a>>, AllocError> {
    let tables = given.get_strs("table").unwrap_or(&[]).iter().copied();
    let mut tables: Vec<TableArgument<'a>> = tables.filter_map(TableArgument::of).collect(alloc)?;
    push_merged(&mut tables, given)?;
    Ok(tables)
}

fn requested<'a>(
    alloc: Global,
    command: CommandName,
    given: &ArgMatches<'a>,
) -> Result<Request<'a>, AllocError> {
    let own_source = given.get_str("source");
    let (deck, way) = match given.get_str("by").or(given.get_str("merge")) {
        None => (given.get_str("to"), RecordsWay::ToRecords),
        deck => (deck, RecordsWay::ToLines),
    };
    let (first, second) = (given.get_str("IN"), given.get_str("OUT"));
    let (records, output) = match given.get_str("merge") {
        None => (first, second),
        Some(_) => (None, first),
    };
    let (input, print) = command.devices(given);
    Ok(Request {
        command,
        sources: texts(alloc, given, "SRC")?,
        object: given.get_str("OBJ").or(given.get_str("output")),
        input: records.or(input),
        print,
        date: given.get_str("date").map(DateArgument::of),
        secondary: given.get_str("secondary"),
        disk: given.get_str("disk"),
        own_source,
        most: given.get_one::<u64>("most"),
        most_bytes: given.get_one::<u64>("most-bytes"),
        keeps: given.get_flag("keep") || command == CommandName::Go,
        looks: LookArguments::of(given),
        allowance: given.get_one::<u16>("allowance").unwrap_or(1000).max(1),
        warnings: WarningArguments::of(given),
        answer: AnswerArguments::of(given),
        cards: CardsWanted::of(given),
        rows: given.get_flag("rows") || own_source.is_some(),
        output: output.or(given.get_str("PDF")),
        paper: PaperArguments::of(given),
        deck,
        way,
        file_name: given.get_str("file"),
        length: given.get_one::<u16>("length"),
        framing: RecordFraming::of(given),
        is_ascii: given.get_flag("ascii"),
        low_blank: given.get_flag("low-blank"),
        dropped: given.get_str("drop").and_then(byte_of),
        lines_way: LinesWay::of(given),
        rows_of_values: RowArguments::read(given).unwrap_or(None),
        new_deck: given.get_str("deck").or(given.get_str("NEW")),
        forces: given.get_flag("force"),
        tables: tables(alloc, given)?,
        switches: given.get_str("switches"),
        gives_forms: given.get_flag("forms"),
        printer: given.get_str("printer"),
        codes: texts(alloc, given, "CODE")?,
        lists: given.get_flag("list"),
    })
}

fn read<'a>(
    alloc: Global,
    arguments: &[String],
    matches: &ArgMatches<'a>,
) -> Result<Request<'a>, Refusal> {
    let bad = bad_value(matches);
    if let (None, Some((name, given))) = (bad, matches.subcommand()) {
        if let Some(command) = CommandName::of(name) {
            return Ok(requested(alloc, command, given)?);
        }
    }
    Err(Refusal::of(unread(alloc, arguments, bad)))
}

/// Returns the request of the arguments. The first one is the program's name.
pub fn request_of<'a>(alloc: Global, arguments: &'a [String]) -> Result<Request<'a>, Refusal> {
    let matches = matches_of(alloc, arguments)?;
    read(alloc, arguments, &matches)
}
