//! Options that mean something together, or stand for one value of several, and words of the command line that belong together.

use clap::ArgMatches;
use rpg_cli_values::{WarningCode, WarningCodes};
use std::alloc::{AllocError, Global};

#[derive(Clone, Copy, PartialEq, Eq)]
pub enum Format {
    Text,
    /// One JSON object a line.
    Json,
}

/// When marks in diagnostics are coloured.
#[derive(Clone, Copy)]
pub enum Colours {
    Auto,
    Always,
    Never,
}

/// How a command reports its end. One without these options is never quiet.
#[derive(Clone, Copy)]
pub struct AnswerArguments {
    pub is_quiet: bool,
    pub format: Format,
    pub colours: Colours,
}

impl AnswerArguments {
    pub(crate) fn of(given: &ArgMatches<'_>) -> AnswerArguments {
        AnswerArguments {
            is_quiet: given.get_flag("quiet"),
            format: match given.get_str("format") {
                Some("json") => Format::Json,
                _ => Format::Text,
            },
            colours: match given.get_str("color") {
                Some("always") => Colours::Always,
                Some("never") => Colours::Never,
                _ => Colours::Auto,
            },
        }
    }
}

#[derive(Clone, Copy)]
pub struct WarningArguments {
    pub denied: WarningCodes,
    pub allowed: WarningCodes,
    pub most: u16,
}

impl WarningArguments {
    pub(crate) fn of(given: &ArgMatches<'_>) -> WarningArguments {
        WarningArguments {
            denied: WarningCodes::named(given.get_strs("deny").unwrap_or(&[])),
            allowed: WarningCodes::named(given.get_strs("allow").unwrap_or(&[])),
            most: given.get_one::<u16>("faults").unwrap_or(20),
        }
    }
}

/// Cycles that follow one another, counted from 1.
#[derive(Clone, Copy)]
pub struct Cycles {
    pub first: u64,
    pub last: u64,
}

impl Cycles {
    /// Reads `20`, which stands for the first twenty cycles, or `100-120`.
    pub(crate) fn of(text: &str) -> Option<Cycles> {
        let (first, last) = text.split_once('-').unwrap_or(("1", text));
        Some(Cycles {
            first: first.parse().ok()?,
            last: last.parse().ok()?,
        })
    }
}

/// What is reported about a job while it runs.
#[derive(Clone, Copy)]
pub struct LookArguments {
    pub traced: Option<Cycles>,
    pub record: Option<u64>,
    pub watches: bool,
    pub is_sorted: bool,
}

impl LookArguments {
    /// Whether cycles are reported one by one.
    pub fn traces(self) -> bool {
        self.traced.is_some() || self.record.is_some()
    }

    pub fn compares(self) -> bool {
        self.watches || self.is_sorted
    }

    pub fn looks(self) -> bool {
        self.traces() || self.compares()
    }

    pub(crate) fn of(given: &ArgMatches<'_>) -> LookArguments {
        LookArguments {
            traced: given.get_str("trace").and_then(Cycles::of),
            record: given.get_one::<u64>("trace-record"),
            watches: given.get_flag("watch"),
            is_sorted: given.get_flag("sorted"),
        }
    }
}

#[derive(Clone, Copy)]
pub enum CardsWanted {
    Cards,
    /// Cards below a ruler.
    RuledCards,
    Shorthand,
}

impl CardsWanted {
    pub(crate) fn of(given: &ArgMatches<'_>) -> CardsWanted {
        match (given.get_flag("short"), given.get_flag("ruler")) {
            (true, _) => CardsWanted::Shorthand,
            (false, true) => CardsWanted::RuledCards,
            (false, false) => CardsWanted::Cards,
        }
    }
}

#[derive(Clone, Copy, PartialEq, Eq)]
pub enum RecordsWay {
    ToLines,
    ToRecords,
}

/// How records are delimited in their file.
#[derive(Clone, Copy, PartialEq, Eq)]
pub enum RecordFraming {
    EndToEnd,
    /// Each follows its record descriptor word.
    Descriptors,
    Lines,
}

impl RecordFraming {
    pub(crate) fn of(given: &ArgMatches<'_>) -> RecordFraming {
        match (given.get_flag("rdw"), given.get_flag("lines")) {
            (true, _) => RecordFraming::Descriptors,
            (false, true) => RecordFraming::Lines,
            (false, false) => RecordFraming::EndToEnd,
        }
    }
}

/// A table file: its name on F and E cards, and the path of its records.
#[derive(Clone, Copy)]
pub struct TableArgument<'a> {
    pub name: &'a str,
    pub path: &'a str,
}

impl<'a> TableArgument<'a> {
    pub(crate) fn of(text: &'a str) -> Option<TableArgument<'a>> {
        let (name, path) = text.split_once('=')?;
        (!name.is_empty()).then_some(TableArgument { name, path })
    }
}

#[derive(Clone, Copy)]
pub enum PaperArgument {
    A4,
    Letter,
    Fanfold,
}

#[derive(Clone, Copy)]
pub struct PaperArguments {
    pub form: PaperArgument,
    pub length: u16,
    pub columns: u16,
    pub has_bars: bool,
}

impl PaperArguments {
    pub(crate) fn of(given: &ArgMatches<'_>) -> PaperArguments {
        PaperArguments {
            form: match given.get_str("form") {
                Some("letter") => PaperArgument::Letter,
                Some("fanfold") => PaperArgument::Fanfold,
                _ => PaperArgument::A4,
            },
            length: given.get_one::<u16>("length").unwrap_or(66),
            columns: given.get_one::<u16>("columns").unwrap_or(132),
            has_bars: given.get_flag("bars"),
        }
    }
}

/// Joins `--deny` and the code that follows it to one word, such as `--deny=W4`: clap reads a value that may be missing only after `=`.
pub fn join_codes(alloc: Global, words: Vec<String>) -> Result<Vec<String>, AllocError> {
    let mut joined: Vec<String> = Vec::with_capacity(alloc, words.len())?;
    let mut denies = false;
    for word in words {
        match joined.last_mut() {
            Some(last) if denies && WarningCode::named(word.as_str()).is_some() => {
                last.push('=')?;
                last.push_str(word.as_str())?;
                denies = false;
            }
            _ => {
                denies = word.as_str() == "--deny";
                joined.push(word)?;
            }
        }
    }
    Ok(joined)
}
