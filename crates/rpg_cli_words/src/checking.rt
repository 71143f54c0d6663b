//! Values that clap accepts and no command takes; the arguments of `records` for whole lines, `--merge` and `--ahead`, and for comma-separated
//! values.

use crate::commands::cut;
use crate::files::may_be_standard;
use crate::options::{Cycles, TableArgument};
use clap::ArgMatches;
use rpg_cli_values::{are_switches, byte_of};
use std::alloc::AllocError;

/// The arguments that can't be a standard stream: the command, `.` for all of them; the argument; and the message if it is one.
const FILES: &str = ". OBJ '<OBJ>' can't be '-', a standard stream; a file of that name is './-'
. output '--output <OBJ>' can't be '-', a standard stream; a file of that name is './-'
. source '--source <SRC>' can't be '-', a standard stream; a file of that name is './-'
. by '--by <SRC>' can't be '-', a standard stream; a file of that name is './-'
. merge '--merge <SRC>' can't be '-', a standard stream; a file of that name is './-'
. to '--to <SRC>' can't be '-', a standard stream; a file of that name is './-'
records OUT '<OUT>' must be a file: what went to standard output can't be taken back
records deck '--deck <NEW>' must be a file: what went to standard output can't be taken back
paper PDF '<PDF>' must be a file: what went to standard output can't be taken back
fit SRC '<SRC>' can't be '-', a standard stream; a file of that name is './-'";

/// Returns the message for a file that is a standard stream and can't be.
fn bad_file(command: &str, given: &ArgMatches<'_>) -> Option<&'static str> {
    for line in FILES.lines() {
        let (whose, rest) = cut(line, " ");
        let (name, message) = cut(rest, " ");
        if (whose == "." || whose == command) && may_be_standard(given.get_str(name)) {
            return Some(message);
        }
    }
    None
}

/// Whether one of these arguments names a table file by this name.
fn have_table(texts: &[&str], name: &str) -> bool {
    let mut tables = texts.iter().copied().filter_map(TableArgument::of);
    tables.any(|table| table.name == name)
}

const NO_TABLE: &str = "'--table <NAME=FILE>' needs a file's name from the cards, =, and a path";

fn bad_table(texts: &[&str]) -> Option<&'static str> {
    for i in 0..texts.len() {
        match TableArgument::of(texts[i]) {
            None => return Some(NO_TABLE),
            Some(table) if have_table(&texts[i + 1..], table.name) => {
                return Some("'--table <NAME=FILE>' can be given only once for each name");
            }
            Some(_) => {}
        }
    }
    None
}

/// Returns what is wrong with the values of a command that clap accepts.
pub(crate) fn bad_value(matches: &ArgMatches<'_>) -> Option<&'static str> {
    let (command, given) = matches.subcommand()?;
    let file = bad_file(command, given);
    let rows = match command {
        "records" => bad_lines(given).or(bad_rows(given)),
        _ => None,
    };
    let (trace, drop) = (given.get_str("trace"), given.get_str("drop"));
    match (trace, drop, given.get_str("switches")) {
        _ if file.is_some() => file,
        _ if rows.is_some() => rows,
        (Some(text), ..) if Cycles::of(text).is_none() => {
            Some("'--trace <N>' needs a number of cycles, or a range such as 100-120")
        }
        (_, Some(text), _) if byte_of(text).is_none() => {
            Some("'--drop <XX>' needs two hexadecimal digits, such as FF")
        }
        (.., Some(text)) if !are_switches(text) => {
            Some("'--switches <00000000>' needs eight digits, each 0 or 1")
        }
        _ => bad_table(given.get_strs("table").unwrap_or(&[])),
    }
}

/// What `records` does with whole lines.
#[derive(Clone, Copy)]
pub enum LinesWay {
    /// Merges the secondary files of a deck.
    Merge,
    /// Puts these columns of the next line after each line.
    Ahead { first: u16, last: u16 },
}

/// The arguments that neither takes.
const OTHERS: &str =
    "csv to-csv rdw lines ascii low-blank no-header by to file drop columns delimiter decimal group replace deck";

const STREAM: &str = "'<OUT>' must be a file: what went to standard output can't be taken back";

const MERGED: &str =
    "'--merge <SRC>' needs OUT, and then each secondary file as its name from the cards, =, and a path";

const COLUMNS: &str =
    "'--ahead <A-B>' needs columns such as 2-6 of a record, and '--length <N>' says how many a record has";

impl LinesWay {
    pub(crate) fn of(given: &ArgMatches<'_>) -> Option<LinesWay> {
        match given.get_str("ahead") {
            Some(columns) => ahead(columns),
            None if given.get_str("merge").is_some() => Some(LinesWay::Merge),
            None => None,
        }
    }
}

/// Reads columns such as `2-6`.
fn ahead(columns: &str) -> Option<LinesWay> {
    let (first, last) = columns.split_once('-')?;
    Some(LinesWay::Ahead {
        first: first.parse().ok()?,
        last: last.parse().ok()?,
    })
}

/// Appends the files that are merged: OUT is the first argument after `--merge`, and names what is written.
pub(crate) fn push_merged<'a>(
    files: &mut Vec<TableArgument<'a>>,
    given: &ArgMatches<'a>,
) -> Result<(), AllocError> {
    if given.get_str("merge").is_none() {
        return Ok(());
    }
    if let Some(first) = given.get_str("OUT").and_then(TableArgument::of) {
        files.push(first)?;
    }
    for text in given.get_strs("FILES").unwrap_or(&[]) {
        if let Some(file) = TableArgument::of(*text) {
            files.push(file)?;
        }
    }
    Ok(())
}

fn has_other(given: &ArgMatches<'_>) -> bool {
    OTHERS.split(' ').any(|name| is_given(given, name))
}

/// Returns what is wrong with a file that is merged, given those after it.
fn bad_merged(text: &str, others: &[&str]) -> Option<&'static str> {
    match TableArgument::of(text) {
        None => Some(MERGED),
        Some(file) if may_be_standard(Some(file.path)) => Some(
            "'<NAME=FILE>' can't be '-', a standard stream; a file of that name is NAME=./-",
        ),
        Some(file) if have_table(others, file.name) => {
            Some("'<NAME=FILE>' can be given only once for each name")
        }
        Some(_) => None,
    }
}

fn bad_merge(given: &ArgMatches<'_>) -> Option<&'static str> {
    if has_other(given) || given.get_one::<u16>("length").is_some() {
        return Some("'--merge <SRC>' can be used only with '--format <FORMAT>'");
    }
    if may_be_standard(given.get_str("IN")) {
        return Some(STREAM);
    }
    let others = given.get_strs("FILES").unwrap_or(&[]);
    let mut bad = bad_merged(given.get_str("OUT").unwrap_or(""), others);
    for (place, text) in others.iter().enumerate() {
        let after = others.get(place.saturating_add(1)..).unwrap_or(&[]);
        bad = bad.or(bad_merged(*text, after));
    }
    bad
}

fn bad_ahead(given: &ArgMatches<'_>, columns: &str) -> Option<&'static str> {
    if has_other(given) {
        return Some("'--ahead <A-B>' can be used only with '--length <N>' and '--format <FORMAT>'");
    }
    let length = given.get_one::<u16>("length").unwrap_or(0);
    match ahead(columns) {
        Some(LinesWay::Ahead { first, last }) if first > 0 && first <= last && last <= length => {
            None
        }
        _ => Some(COLUMNS),
    }
}

fn bad_lines(given: &ArgMatches<'_>) -> Option<&'static str> {
    let has_files = given.get_strs("FILES").is_some();
    match (given.get_str("merge"), given.get_str("ahead")) {
        (Some(_), Some(_)) => Some("'--merge <SRC>' can't be used with '--ahead <A-B>'"),
        (Some(_), None) => bad_merge(given),
        (None, _) if has_files => Some("'[NAME=FILE]...' can be used only with '--merge <SRC>'"),
        (None, Some(columns)) => bad_ahead(given, columns),
        (None, None) => None,
    }
}

#[derive(Clone, Copy, PartialEq, Eq)]
pub enum RowsWay {
    ToLines,
    ToRows,
}

/// How rows of comma-separated values are written.
#[derive(Clone, Copy)]
pub struct RowArguments<'a> {
    pub way: RowsWay,
    pub columns: Option<&'a str>,
    /// Whether the first row names the columns.
    pub has_header: bool,
    pub delimiter: u8,
    pub decimal: u8,
    pub group: Option<u8>,
    pub replacement: Option<u8>,
}

/// The arguments that exclude each other: the two, and the message. After a `-` comes one that only conversions of rows have.
const EXCLUDED: &str = "csv to-csv '--csv' can't be used with '--to-csv'
csv rdw '--csv' can't be used with '--rdw'
csv lines '--csv' can't be used with '--lines'
csv ascii '--csv' can't be used with '--ascii'
csv low-blank '--csv' can't be used with '--low-blank'
csv drop '--csv' can't be used with '--drop <XX>'
to-csv rdw '--to-csv' can't be used with '--rdw'
to-csv lines '--to-csv' can't be used with '--lines'
to-csv ascii '--to-csv' can't be used with '--ascii'
to-csv low-blank '--to-csv' can't be used with '--low-blank'
to-csv drop '--to-csv' can't be used with '--drop <XX>'
to-csv columns '--to-csv' can't be used with '--columns <NAMES>'
to-csv no-header '--to-csv' can't be used with '--no-header'
to-csv group '--to-csv' can't be used with '--group <C>'
to-csv replace '--to-csv' can't be used with '--replace <C>'
to-csv deck '--to-csv' can't be used with '--deck <NEW>'
- columns '--columns <NAMES>' can be used only with '--csv'
- no-header '--no-header' can be used only with '--csv'
- group '--group <C>' can be used only with '--csv'
- replace '--replace <C>' can be used only with '--csv'
- delimiter '--delimiter <C>' can be used only with '--csv' or '--to-csv'
- decimal '--decimal <C>' can be used only with '--csv' or '--to-csv'";

const CHARACTERS: &str =
    "'--delimiter <C>', '--group <C>' and '--replace <C>' need one character from blank to ~, no letter, digit, \", - or +; a delimiter may be tab";

/// Returns the character that an argument names, if it is given: one that no number has, and no quotation mark.
fn character(given: &ArgMatches<'_>, name: &str) -> Result<Option<u8>, &'static str> {
    let Some(text) = given.get_str(name) else {
        return Ok(None);
    };
    match text.as_bytes() {
        [b'"' | b'-' | b'+' | b'0'..=b'9' | b'A'..=b'Z' | b'a'..=b'z'] => Err(CHARACTERS),
        [byte] if matches!(*byte, b' '..=b'~') => Ok(Some(*byte)),
        _ if name == "delimiter" && text == "tab" => Ok(Some(b'\t')),
        _ => Err(CHARACTERS),
    }
}

fn decimal(text: Option<&str>) -> Result<u8, &'static str> {
    match text {
        None | Some(".") => Ok(b'.'),
        Some(",") => Ok(b','),
        Some(_) => Err("'--decimal <C>' needs . or ,"),
    }
}

impl<'a> RowArguments<'a> {
    /// Reads the arguments, if rows are converted. The error is what is wrong with one of them.
    pub(crate) fn read(given: &ArgMatches<'a>) -> Result<Option<Self>, &'static str> {
        let way = match (given.get_flag("csv"), given.get_flag("to-csv")) {
            (true, _) => RowsWay::ToLines,
            (false, true) => RowsWay::ToRows,
            (false, false) => return Ok(None),
        };
        Ok(Some(RowArguments {
            way,
            columns: given.get_str("columns"),
            has_header: !given.get_flag("no-header"),
            delimiter: character(given, "delimiter")?.unwrap_or(b','),
            group: character(given, "group")?,
            replacement: character(given, "replace")?,
            decimal: decimal(given.get_str("decimal"))?,
        }))
    }

    /// Whether two of its characters are one, except that cells and numbers may both have commas.
    fn mixes(&self) -> bool {
        let is_mixed = self.delimiter == self.decimal || self.group == Some(self.delimiter);
        self.group == Some(self.decimal) || (is_mixed && self.delimiter != b',')
    }
}

fn is_given(given: &ArgMatches<'_>, name: &str) -> bool {
    match name {
        "csv" | "to-csv" | "rdw" | "lines" | "ascii" | "low-blank" | "no-header" => {
            given.get_flag(name)
        }
        _ => given.get_str(name).is_some(),
    }
}

/// Returns the message of the first two arguments that exclude each other and are both given.
fn first_excluded(given: &ArgMatches<'_>) -> Option<&'static str> {
    let converts = given.get_flag("csv") || given.get_flag("to-csv");
    for line in EXCLUDED.lines() {
        let (one, rest) = cut(line, " ");
        let (other, message) = cut(rest, " ");
        let excludes = if one == "-" {
            !converts
        } else {
            given.get_flag(one)
        };
        if excludes && is_given(given, other) {
            return Some(message);
        }
    }
    None
}

fn bad_rows(given: &ArgMatches<'_>) -> Option<&'static str> {
    let excluded = first_excluded(given);
    if excluded.is_some() {
        return excluded;
    }
    match RowArguments::read(given) {
        Err(message) => Some(message),
        Ok(Some(rows)) if rows.mixes() => Some(
            "'--delimiter <C>', '--decimal <C>' and '--group <C>' need different characters, but each of two may be , where cells are quoted",
        ),
        Ok(_) => None,
    }
}
