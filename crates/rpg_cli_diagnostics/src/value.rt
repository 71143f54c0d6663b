//! What a diagnostic says, and where it points.

use rpg_cli_text::Topic;
use std::alloc::AllocError;

/// What was made, unless memory ran out for it.
pub type Made<T> = Result<T, AllocError>;

#[derive(Clone, Copy, PartialEq, Eq)]
pub enum Level {
    Error,
    Warning,
    Note,
}

impl Level {
    pub(crate) fn text(self) -> &'static str {
        match self {
            Level::Error => "error",
            Level::Warning => "warning",
            Level::Note => "note",
        }
    }
}

/// Columns of a line, counted from 1, both included.
#[derive(Clone, Copy)]
pub struct Columns {
    pub first: usize,
    pub last: usize,
}

/// A file as the command line names it, and the argument that names it, such as `SRC`; empty if that isn't known.
#[derive(Clone, Copy)]
pub struct FileName<'a> {
    pub path: &'a str,
    pub role: &'static str,
}

/// A line of a text file: a card or a record, its number, from 1, and what it holds.
#[derive(Clone, Copy)]
pub struct Line<'a> {
    pub number: u64,
    /// None if the whole line is meant.
    pub columns: Option<Columns>,
    /// Empty if it isn't known.
    pub bytes: &'a [u8],
    /// The line in its new form: only columns that differ are marked. Empty if all are.
    pub new: &'a [u8],
    pub is_shown: bool,
}

impl<'a> Line<'a> {
    pub fn changed_to(self, new: &'a [u8]) -> Line<'a> {
        Line { new, ..self }
    }
}

#[derive(Clone, Copy)]
pub enum At<'a> {
    Whole,
    Line(Line<'a>),
    /// A record of a file of bytes, from 1, and its offset.
    Record { number: u64, byte: u64 },
    /// A row of an object program.
    Row(u64),
    /// A byte of an object program.
    Offset(u64),
}

#[derive(Clone, Copy)]
pub struct Place<'a> {
    pub file: FileName<'a>,
    pub at: At<'a>,
}

impl<'a> FileName<'a> {
    pub fn whole(self) -> Place<'a> {
        Place {
            file: self,
            at: At::Whole,
        }
    }

    /// A line of the file, of which there is no picture.
    pub fn line(self, number: u64) -> Place<'a> {
        self.unshown(number, None, &[])
    }

    /// A line of the file with these columns, of which there is no picture.
    pub fn unshown(self, number: u64, columns: Option<Columns>, bytes: &'a [u8]) -> Place<'a> {
        let at = At::Line(Line {
            number,
            columns,
            bytes,
            new: &[],
            is_shown: false,
        });
        Place { file: self, at }
    }

    /// A card of the file. Card 0 is the source as a whole, which is shown as its first line, without a picture.
    pub fn card(self, card: u16, columns: Option<Columns>, bytes: &'a [u8]) -> Place<'a> {
        let place = self.unshown(u64::from(card.max(1)), columns, bytes);
        place.with_picture(card > 0)
    }
}

impl<'a> Place<'a> {
    /// Returns the same place, with a picture if it is a line and that is wanted.
    fn with_picture(self, is_shown: bool) -> Place<'a> {
        let at = match self.at {
            At::Line(line) => At::Line(Line { is_shown, ..line }),
            at => at,
        };
        Place { at, ..self }
    }

    /// Returns the same place, without a picture.
    pub fn without_picture(self) -> Place<'a> {
        self.with_picture(false)
    }
}

/// A remark about a diagnostic: another place, or what to do.
#[derive(Drop)]
pub struct Child<'a> {
    /// None if it is about no file.
    pub place: Option<Place<'a>>,
    pub message: String,
}

/// What is wrong, where, and what belongs to it.
#[derive(Drop)]
pub struct Diagnostic<'a> {
    pub level: Level,
    /// None if it is about no file.
    pub place: Option<Place<'a>>,
    pub code: Option<Topic>,
    pub message: String,
    pub children: Vec<Child<'a>>,
}
