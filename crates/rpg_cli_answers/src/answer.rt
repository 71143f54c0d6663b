//! How a command ends.

ghost use Rattle.std.specs.Prelude.{◌≡◌};
ghost use Rattle.rpg_cli_answers.specs.Named.{named_fault};
ghost use Rattle.rpg_cli_answers.specs.declared.answer.Answer.TheVariants as answers;

use arrayvec::ArrayVec;
use rpg_cli_files::FileFault;
use rpg_cli_values::WarningCode;
use rpg_cli_words::FileArgument;
use rpg_engine::{ObjectFault, Report, RunFault};
use rpg_faults::SourceFault;
use std::alloc::AllocError;

/// A row or a line that is rejected, numbered from 1.
#[derive(Clone, Copy)]
pub enum RefusedRow {
    Header,
    Row(u64),
    Line(u64),
}

/// How a command ended. What makes a command fail is passed on as it is.
#[derive(Clone, Copy)]
pub enum Answer {
    Compiled,
    Faultless,
    /// Several sources were checked: how many, how many of them were rejected, how many couldn't be read, if any, and the greatest
    /// exit status.
    Checked {
        sources: u64,
        rejected: u64,
        unread: Option<u64>,
        status: u8,
    },
    /// The source has a warning, and the arguments deny it.
    Denied {
        card: u16,
        code: WarningCode,
    },
    /// The object program obeys all rules: the most steps that one of its cycles can take.
    Accepted {
        bound: u64,
    },
    /// The job ended normally, or halted.
    Ended(Report),
    /// The job ended, and a control field went down at this record, though the arguments have a sorted input.
    Unsorted {
        record: u64,
    },
    Source(SourceFault),
    /// The object file doesn't hold an accepted program.
    Object(ObjectFault),
    /// The source doesn't compile to the bytes of the object file.
    OtherSource,
    /// The program has a disk file, and the arguments name none.
    DiskFileWanted,
    /// The program has a secondary file, and the arguments name none.
    SecondaryFileWanted,
    /// The program uses the date, and the arguments have none.
    DateWanted,
    /// A cycle of the program may take more steps than the arguments allow.
    OverLimit {
        bound: u64,
    },
    /// The run produced no report.
    Run(RunFault),
    File {
        argument: FileArgument,
        fault: FileFault,
    },
    Explained,
    /// Shorthand was converted to cards, or cards to shorthand.
    Deck,
    NoCard {
        line: u16,
    },
    /// Records were converted to lines, or lines to records: how many, how many were left out, and the greatest number of
    /// columns of a line.
    Records {
        records: u64,
        dropped: u64,
        columns: u64,
    },
    /// The deck of records is rejected: the first rejected card, if there is one.
    DeckRefused {
        card: Option<u16>,
    },
    /// A record or a line is rejected: its number, from 1.
    RecordRefused {
        number: u64,
    },
    /// A row of comma-separated values is rejected, or a line that would become one.
    RowRefused(RefusedRow),
    /// An old deck was rewritten, with this many changes.
    Fitted {
        changes: u64,
    },
    /// An old deck can't be rewritten: the card, and the number of the rule that rejects it.
    FitRefused {
        card: u64,
        rule: u8,
    },
    /// An old deck was rewritten, and the new deck has a fault.
    NewDeck(SourceFault),
    /// A print was put on sheets, one for each page.
    Paper {
        pages: u32,
    },
    /// A page of a print is rejected: its number, from 1.
    PageRefused {
        page: u32,
    },
    NoSuchCode,
    NoMemory,
}

/// Turns a file fault into that of the file that an argument names.
pub fn named<T>(argument: FileArgument, given: Result<T, FileFault>) -> Result<T, Answer>
    ensures { result ≡ named_fault argument given }
{
    match given {
        Ok(value) => Ok(value),
        Err(fault) => Err(Answer::File { argument, fault }),
    }
}

/// The line that is printed for an answer, without its line feed, and the exit status.
#[derive(Drop)]
pub struct Line {
    pub text: ArrayVec<u8, 96>,
    pub status: u8,
}

impl From<Report> for Answer {
    ghost from_gives = { λ report answer. answer ≡ answers.Ended report };

    fn from(report: Report) -> Answer {
        Answer::Ended(report)
    }
}

impl From<SourceFault> for Answer {
    ghost from_gives = { λ fault answer. answer ≡ answers.Source fault };

    fn from(fault: SourceFault) -> Answer {
        Answer::Source(fault)
    }
}

impl From<ObjectFault> for Answer {
    ghost from_gives = { λ fault answer. answer ≡ answers.Object fault };

    fn from(fault: ObjectFault) -> Answer {
        Answer::Object(fault)
    }
}

impl From<AllocError> for Answer {
    ghost from_gives = { λ error answer. answer ≡ answers.NoMemory };

    fn from(_error: AllocError) -> Answer {
        Answer::NoMemory
    }
}

impl From<RunFault> for Answer {
    ghost from_gives = { λ fault answer. answer ≡ answers.Run fault };

    fn from(fault: RunFault) -> Answer {
        Answer::Run(fault)
    }
}
