//! The commands and their arguments, as data, one a line, and as clap has them.
//!
//! An argument is built by a chain of small functions: the proof of a chain of calls grows with its length.

use clap::builder::ValueParser;
use clap::error::ErrorKind;
use clap::{Arg, ArgAction, ArgMatches, Command, Error};
use std::alloc::{AllocError, Global};
use std::ops::RangeInclusive;

/// The commands, in the order of the help: the name, the keys of the arguments, and what the command does.
const COMMANDS: &str =
    "compile: SRC OBJ.new output allowance faults deny allow format color quiet: Compiles the source SRC to the object program OBJ
check: SRC.each faults deny allow format color quiet: Reports all faults of each source SRC on standard error, and writes nothing
list: SRC format color: Lists the source SRC: its cards with their faults, record layouts, names, indicators and printed lines
cards: SRC.short short ruler: Turns the lines of shorthand in SRC into cards, such as O 32=TOT 42=10
records: IN OUT FILES by to merge ahead csv to-csv file length rdw lines ascii low-blank drop columns no-header delimiter decimal group replace deck format color: Converts a shop's records to lines, guided by the deck that reads them, or back
fit: SRC.old NEW force table switches forms printer format color: Rewrites the old deck SRC as cards that are read, and reports each change
verify: OBJ format color quiet: Verifies the object program OBJ, and prints the most steps that a cycle can take
explain: CODE list: Explains codes, such as F16, S5, V21, B5 or halt 4, or all of them
show: OBJ source rows format color: Shows what the object program OBJ reads, writes and needs, or its rows
run: OBJ INPUT PRINT date secondary disk most most-bytes keep source trace trace-record watch sorted format color quiet: Runs the object program OBJ over the records of INPUT, and prints to PRINT
go: SRC INPUT PRINT.go date secondary disk most most-bytes keep.go trace trace-record watch sorted allowance faults deny allow format color quiet: Compiles the source SRC and runs it over the records of INPUT
paper: PRINT.paper PDF form length.paper columns.paper bars format color quiet: Puts each page of PRINT on a sheet of paper, as a PDF";

/// The arguments: the key, what the argument takes, and its help text. The key is the argument's name; if arguments of two commands share a
/// name, a dot and another name follow.
///
/// What an argument takes is a letter:
///
/// - `R`, `P`: a positional argument; with `P` it is optional
/// - `U`: a positional argument, unless the other argument is there
/// - `S`, `M`: all arguments from its place on; with `M` there may be none
/// - `F`, `Q`: nothing, a flag; `Q` has the short form `-q`
/// - `V`, `O`: a value; `O` has the short form `-o`
/// - `E`: a value, unless the other argument, or `--merge` or `--ahead`, is there
/// - `W`: a value, several times
/// - `A`, `N`, `L`, `G`, `J`, `B`: a number; `value_parser` has its limits
/// - `H`, `D`, `X`: a name that `value_parser` has
/// - `C`: the code of a warning, several times
/// - `K`: the same, after `=`; or nothing, for all codes
///
/// `=VALUE` after the letter is what help calls the value, and `!OTHER` names an argument that conflicts with this one.
const ARGUMENTS: &str = "SRC R The source, one card per line; - is standard input
SRC.each S The sources, one card per line; - is standard input
SRC.short R The lines of shorthand, or with --short the cards; - is standard input
SRC.old R The old deck, one card per line
OBJ R The object program
OBJ.new U!output Where the object program goes; it replaces nothing but an object program
output O=OBJ Where the object program goes, in place of OBJ
INPUT R The records; - is standard input
PRINT R Where the printed lines go; - is standard output, and the answer's line then goes to standard error
PRINT.paper R What run or go printed; - is standard input
PDF R Where the PDF goes
PRINT.go P Where the printed lines go; standard output if it isn't given
IN R The records; - is standard input. With --merge, where the lines go
OUT R Where the lines go; with --to, IN has the lines and the records go here. With --merge, the first secondary file, as NAME=FILE
FILES M=NAME=FILE The other secondary files that --merge reads, by their names on the cards
NEW P Where the new deck goes; without it the changes are only reported
force F Replaces NEW if it exists
CODE M The codes, such as F16 or halt 4; all if none is given
allowance A=N How many backward branches and calls a cycle may take
faults N=N The most faults or warnings to list
deny K=CODE Rejects a source that has a warning; with a code, one of that code
allow C=CODE Leaves out the warnings of a code
format D=FORMAT The form of diagnostics and of the answer
color X=WHEN Whether marks in diagnostics are red; auto is on a terminal
quiet Q Prints no line if the exit status is 0
short F!ruler Prints the shorthand of the cards in SRC
ruler F Puts a ruler, which is a comment, before the cards
by E=SRC!to The deck that reads the records; P and B may stand in column 43 of its I cards
to V=SRC The deck, to turn lines back into records
merge V=SRC The old deck whose secondary files are merged by match fields, with a letter in front of each record
ahead V=A-B Puts columns A to B of the next record after each record, and nines after the last
csv F!to IN is rows of comma-separated values: OUT has the lines that the deck reads
to-csv F!to IN is lines of the file: OUT has a row of comma-separated values for each
file V=NAME The file of the deck, if it isn't the primary one
length L=N How many bytes a record has, if 24-27 of the F card don't say so
length.paper G=N How many lines a page has: 1 to 112
form H=FORM The paper; fanfold is 14 by 11 inches
columns.paper J=N How many columns a line has: 20 to 198
bars F Puts green bars behind the lines, three in six
rdw F!lines Each record follows its record descriptor word
lines F Each record is a line
ascii F Characters are ASCII, not code page 037
low-blank F!to A byte 00 among characters is a blank
drop V=XX!to Leaves out records whose first byte is this one, such as FF
columns V=NAMES The names of the columns, with nothing for one to leave out; the header is then passed over
no-header F The first row is a record; the columns are the positions of codes, if there are several types, and then the fields, as on the cards
delimiter V=C What separates cells: one character, or tab [default: ,]
decimal V=C The decimal point: . or , [default: .]
group V=C What separates groups of three digits
replace V=C Replaces each character that rpg2 doesn't have
deck V=NEW!to Where to write the deck that reads the lines
table W=NAME=FILE The records of a table file, by its name on the cards; may be given several times
switches V=00000000 A digit for each of U1 to U8: 1 if the job was run with it on; without this all are off
forms F Has no effect: L cards are read
printer V=NAME Of several printers the one whose deck NEW is
list F!CODE Prints a line for each code
source V=SRC The source of OBJ: shows its names and cards
rows F Prints all rows of the object program
date V=DATE The date: six digits, or today (month, day, year), today-dmy or today-ymd; only for a program that uses it
secondary V=FILE The records of a secondary file
disk V=FILE Where the records of a disk file go
most B=N Rejects a program if a cycle may take more than N steps
most-bytes B=N Ends a job that would write more than N bytes to PRINT and the disk file together
keep F Keeps the old PRINT and disk file until the job has ended successfully
keep.go F Is the default: keeps the old PRINT and disk file until the job has ended successfully
trace V=N Reports the first N cycles one by one, or those from N to M with N-M: records, indicators, lines and fields
trace-record B=N Reports the cycle of record N
watch F Reports control fields that go down, and counts records and lines
sorted F Ends with status 5 if a control field goes down, as in an input that isn't sorted";

/// The codes of warnings that may be denied; all but the first may be allowed.
const DENIED_CODES: &[&str] = &[
    "all", "W1", "W2", "W3", "W4", "W5", "W6", "W7", "W8", "W9", "W10", "W11", "W12", "W13", "W14",
    "W15",
];

/// Splits a text at a mark. Without the mark the second part is empty.
pub(crate) fn cut(text: &'static str, mark: &str) -> (&'static str, &'static str) {
    text.split_once(mark).unwrap_or((text, ""))
}

/// A command, as its line describes it.
#[derive(Clone, Copy)]
struct CommandRow {
    name: &'static str,
    /// The keys of its arguments.
    arguments: &'static str,
    about: &'static str,
}

impl CommandRow {
    fn of(line: &'static str) -> CommandRow {
        let (name, rest) = cut(line, ": ");
        let (arguments, about) = cut(rest, ": ");
        CommandRow {
            name,
            arguments,
            about,
        }
    }
}

/// Returns the line of the command that the arguments name, or those of all.
fn lines_of(arguments: &[String]) -> &'static str {
    if let Some(name) = arguments.get(1) {
        for line in COMMANDS.lines() {
            if CommandRow::of(line).name == name.as_str() {
                return line;
            }
        }
    }
    COMMANDS
}

/// An argument of a command, as its line describes it.
#[derive(Clone, Copy)]
pub(crate) struct Argument {
    pub name: &'static str,
    pub help: &'static str,
    letter: u8,
    /// What help calls its value.
    pub value: &'static str,
    pub other: Option<&'static str>,
}

/// Returns what follows a key in the line of its argument.
fn row_of(key: &str) -> &'static str {
    for line in ARGUMENTS.lines() {
        let (found, row) = cut(line, " ");
        if found == key {
            return row;
        }
    }
    ""
}

impl Argument {
    pub fn of(key: &'static str) -> Argument {
        let (name, _) = cut(key, ".");
        let (kind, help) = cut(row_of(key), " ");
        let (kind, other) = cut(kind, "!");
        Argument {
            name,
            help,
            letter: kind.as_bytes().first().copied().unwrap_or(b'F'),
            value: kind.get(2..).unwrap_or(name),
            other: (!other.is_empty()).then_some(other),
        }
    }

    pub fn action(self) -> ArgAction {
        match self.letter {
            b'F' | b'Q' => ArgAction::SetTrue,
            b'S' | b'M' | b'W' | b'C' | b'K' => ArgAction::Append,
            _ => ArgAction::Set,
        }
    }

    pub fn values(self) -> RangeInclusive<usize> {
        match self.letter {
            b'F' | b'Q' => 0..=0,
            b'S' | b'M' => 1..=usize::MAX,
            b'K' => 0..=1,
            _ => 1..=1,
        }
    }

    pub fn value_parser(self) -> ValueParser<'static> {
        match self.letter {
            b'A' => ValueParser::Signed(1, 65_535),
            b'N' => ValueParser::Signed(0, 65_535),
            b'L' => ValueParser::Signed(1, 9_999),
            b'G' => ValueParser::Signed(1, 112),
            b'J' => ValueParser::Signed(20, 198),
            b'H' => ValueParser::Names(&["a4", "letter", "fanfold"]),
            b'B' => ValueParser::Unsigned(0, u64::MAX),
            b'D' => ValueParser::Names(&["text", "json"]),
            b'X' => ValueParser::Names(&["auto", "always", "never"]),
            b'C' => ValueParser::Names(DENIED_CODES.get(1..).unwrap_or(&[])),
            b'K' => ValueParser::Names(DENIED_CODES),
            b'F' | b'Q' => ValueParser::Bool,
            _ => ValueParser::String,
        }
    }

    pub fn defaults(self) -> &'static [&'static str] {
        match self.letter {
            b'A' => &["1000"],
            b'N' => &["20"],
            b'D' => &["text"],
            b'X' => &["auto"],
            b'G' => &["66"],
            b'J' => &["132"],
            b'H' => &["a4"],
            _ => &[],
        }
    }

    /// Returns what a use without a value stands for, if a value may be missing: one that is there follows `=`.
    pub fn without_value(self) -> &'static [&'static str] {
        match self.letter {
            b'K' => &["all"],
            _ => &[],
        }
    }

    /// Returns the arguments that can replace it.
    pub fn unless(self) -> &'static [&'static str] {
        match self.letter {
            b'E' => &["to", "merge", "ahead"],
            b'U' => &["output"],
            _ => &[],
        }
    }
}

fn plain<'a>(alloc: Global, argument: Argument) -> Arg<'a> {
    Arg::new(alloc, argument.name)
        .help(argument.help)
        .required(matches!(argument.letter, b'R' | b'S'))
}

fn named<'a>(alloc: Global, argument: Argument) -> Arg<'a> {
    match argument.letter {
        b'R' | b'P' | b'U' | b'S' | b'M' => plain(alloc, argument),
        b'Q' => plain(alloc, argument).long(argument.name).short('q'),
        b'O' => plain(alloc, argument).long(argument.name).short('o'),
        _ => plain(alloc, argument).long(argument.name),
    }
}

fn parsed<'a>(alloc: Global, argument: Argument) -> Arg<'a> {
    let missing = argument.without_value();
    named(alloc, argument)
        .action(argument.action())
        .value_parser(argument.value_parser())
        .require_equals(!missing.is_empty())
        .default_missing_values(missing)
}

fn valued<'a>(alloc: Global, argument: Argument) -> Arg<'a> {
    parsed(alloc, argument)
        .num_args(argument.values())
        .value_name(argument.value)
        .default_values(argument.defaults())
}

/// Builds an argument for clap, with the one that conflicts with it, and the one that can replace it.
fn arg<'a>(alloc: Global, argument: Argument) -> Result<Arg<'a>, AllocError> {
    valued(alloc, argument)
        .conflicts_with_all(argument.other.as_slice())?
        .required_unless_present_any(argument.unless())
}

fn put<T: Drop>(made: &mut Vec<T>, one: Result<T, AllocError>) -> Result<(), AllocError> {
    made.push(one?)?;
    Ok(())
}

fn args_of<'a>(alloc: Global, keys: &'static str) -> Result<Vec<Arg<'a>>, AllocError> {
    let mut args = Vec::new(alloc);
    for key in keys.split(' ') {
        put(&mut args, arg(alloc, Argument::of(key)))?;
    }
    Ok(args)
}

fn command_of<'a>(alloc: Global, row: CommandRow) -> Result<Command<'a>, AllocError> {
    let args = args_of(alloc, row.arguments)?;
    Command::new(alloc, row.name).about(row.about).args(args)
}

fn commands<'a>(alloc: Global, lines: &'static str) -> Result<Vec<Command<'a>>, AllocError> {
    let mut commands = Vec::new(alloc);
    for line in lines.lines() {
        put(&mut commands, command_of(alloc, CommandRow::of(line)))?;
    }
    Ok(commands)
}

const STATUSES: &str =
    "Exit statuses:\n  0  success\n  1  a file or a device failed, or memory ran out\n  2  the command line or the date is wrong, or a disk file or a secondary file is missing\n  3  the source, or a record, is rejected\n  4  the object program is rejected\n  5  the job halted, or its input isn't sorted";

/// The version, as in CHANGELOG.md; the formats of object programs; and the logic in which the program is proved. Several kits have the
/// same logic.
const VERSION: &str =
    "1.0.0 (unreleased), object programs of versions 1, 2 and 3, proved in Rattle's logic dac8208d650f15bf";

/// Builds the program's command, without its subcommands.
fn root<'a>(alloc: Global) -> Command<'a> {
    Command::new(alloc, "rpg2")
        .about("Compiles, checks and runs RPG II reports")
        .version(VERSION)
        .after_help(STATUSES)
        .subcommand_required(true)
        .arg_required_else_help(true)
}

fn command<'a>(alloc: Global, lines: &'static str) -> Result<Command<'a>, AllocError> {
    let commands = commands(alloc, lines)?;
    root(alloc).subcommands(commands)
}

/// Parses the arguments, or returns what clap reports instead. The first argument is the program's name. Only the command named after it is
/// built, or all of them, as when help is requested: each costs some ten allocations.
pub(crate) fn matches_of<'a>(
    alloc: Global,
    arguments: &'a [String],
) -> Result<ArgMatches<'a>, Error> {
    command(alloc, lines_of(arguments))?.try_get_matches_from(arguments)
}

/// A fault of the command line that clap doesn't detect, in clap's form, for a program of this name.
pub(crate) fn fault(
    alloc: Global,
    program: &str,
    kind: ErrorKind,
    message: &str,
) -> Result<Error, AllocError> {
    let mut command = command(alloc, COMMANDS)?.bin_name(program)?;
    let error = command.error(kind, message);
    drop(command);
    error
}
