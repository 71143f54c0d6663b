//! Arguments that name files.

use crate::options::RecordsWay;
use crate::request::Request;

/// An argument that names a file, as `names` calls it.
#[derive(Clone, Copy)]
pub enum FileArgument {
    Source,
    Object,
    Input,
    Secondary,
    Print,
    Disk,
    /// The source of an object program that is shown or run.
    OwnSource,
    In,
    Out,
    /// The deck of records that are converted to lines.
    By,
    /// The deck of records that lines are converted to.
    To,
    /// The old deck whose secondary files are merged.
    Merge,
    NewDeck,
    /// The rewritten form of an old deck.
    Fitted,
    Printed,
    Pdf,
    /// The records of a table file, by its place among those that the arguments name.
    Table(usize),
    /// A file that is merged, by its place among them.
    Merged(usize),
}

impl FileArgument {
    /// Returns the argument as in messages, and as in clap's texts.
    fn names(self) -> (&'static str, &'static str) {
        match self {
            FileArgument::Source => ("SRC", "<SRC>"),
            FileArgument::Object => ("OBJ", "<OBJ>"),
            FileArgument::Input => ("INPUT", "<INPUT>"),
            FileArgument::Secondary => ("--secondary FILE", "--secondary <FILE>"),
            FileArgument::Print | FileArgument::Printed => ("PRINT", "<PRINT>"),
            FileArgument::Pdf => ("PDF", "<PDF>"),
            FileArgument::Disk => ("--disk FILE", "--disk <FILE>"),
            FileArgument::OwnSource => ("--source SRC", "--source <SRC>"),
            FileArgument::In => ("IN", "<IN>"),
            FileArgument::Out => ("OUT", "<OUT>"),
            FileArgument::By => ("--by SRC", "--by <SRC>"),
            FileArgument::To => ("--to SRC", "--to <SRC>"),
            FileArgument::Merge => ("--merge SRC", "--merge <SRC>"),
            FileArgument::NewDeck => ("--deck NEW", "--deck <NEW>"),
            FileArgument::Fitted => ("NEW", "[NEW]"),
            FileArgument::Table(_) => ("--table NAME=FILE", "--table <NAME=FILE>"),
            FileArgument::Merged(_) => ("NAME=FILE", "<NAME=FILE>"),
        }
    }

    pub fn name(self) -> &'static str {
        self.names().0
    }

    pub(crate) fn text(self) -> &'static str {
        self.names().1
    }
}

/// Two arguments that name the same file, whatever its names, or the same standard stream. The second would empty it, or take the first
/// one's data.
#[derive(Clone, Copy)]
pub struct SameFile {
    pub earlier: FileArgument,
    pub written: FileArgument,
    pub shared: Shared,
}

/// What two arguments name.
#[derive(Clone, Copy)]
pub enum Shared {
    File,
    /// The second's part would replace the first's file.
    Part,
    StandardInput,
    StandardOutput,
}

impl Shared {
    /// Returns the texts between the two arguments, and after them.
    pub(crate) fn texts(self) -> (&'static str, &'static str) {
        match self {
            Shared::File => ("is the same file as", ""),
            Shared::Part => ("would leave its part in", ""),
            Shared::StandardInput => ("and", " are both standard input"),
            Shared::StandardOutput => ("and", " are both standard output"),
        }
    }
}

/// Whether a path stands for standard input or output.
pub fn is_standard(path: &str) -> bool {
    path == "-"
}

pub(crate) fn may_be_standard(path: Option<&str>) -> bool {
    path.is_some_and(is_standard)
}

impl<'a> Request<'a> {
    pub fn path(&self, argument: FileArgument) -> Option<&'a str> {
        match argument {
            FileArgument::Source => self.sources.first().copied(),
            FileArgument::Object => self.object,
            FileArgument::Input | FileArgument::In | FileArgument::Printed => self.input,
            FileArgument::Secondary => self.secondary,
            FileArgument::Print => self.print,
            FileArgument::Disk => self.disk,
            FileArgument::OwnSource => self.own_source,
            FileArgument::Out | FileArgument::Pdf => self.output,
            FileArgument::By | FileArgument::To | FileArgument::Merge => self.deck,
            FileArgument::NewDeck | FileArgument::Fitted => self.new_deck,
            FileArgument::Table(place) | FileArgument::Merged(place) => {
                Some(self.tables.get(place)?.path)
            }
        }
    }

    /// Returns the file that an argument names. Its command requires it.
    pub fn file(&self, argument: FileArgument) -> &'a str {
        self.path(argument).unwrap_or("")
    }

    pub fn source(&self) -> &'a str {
        self.file(FileArgument::Source)
    }

    /// Returns the argument of the program that is run: an object program, or a source.
    pub fn program(&self) -> FileArgument {
        match self.object {
            Some(_) => FileArgument::Object,
            None => FileArgument::Source,
        }
    }

    /// Returns the argument of the deck that describes records.
    pub fn deck_argument(&self) -> FileArgument {
        match self.way {
            RecordsWay::ToLines => FileArgument::By,
            RecordsWay::ToRecords => FileArgument::To,
        }
    }

    /// Returns the name of the new deck in diagnostics: its file, or NEW if it isn't written.
    pub fn new_name(&self) -> &'a str {
        self.new_deck.unwrap_or("NEW")
    }

    /// Whether the output of a command goes to standard output, so that the line of its answer can't.
    pub fn writes_standard_output(&self) -> bool {
        may_be_standard(self.print) || may_be_standard(self.disk) || may_be_standard(self.new_deck)
    }

    /// Returns two arguments that name standard input, or standard output: their data would be mixed.
    pub fn shared_stream(&self) -> Option<SameFile> {
        let inputs = [self.program(), FileArgument::Input, FileArgument::Secondary];
        let outputs = [FileArgument::Print, FileArgument::Disk];
        self.share(&inputs, Shared::StandardInput)
            .or(self.share(&outputs, Shared::StandardOutput))
    }

    /// Returns the first two of these arguments that name a standard stream.
    fn share(&self, arguments: &[FileArgument], shared: Shared) -> Option<SameFile> {
        let mut standard = arguments
            .iter()
            .filter(|one| may_be_standard(self.path(**one)));
        let (earlier, written) = (*standard.next()?, *standard.next()?);
        Some(SameFile {
            earlier,
            written,
            shared,
        })
    }
}
