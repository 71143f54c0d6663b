//! What an output may replace.

ghost use Rattle.std.specs.Prelude.{◌≡◌};
ghost use Rattle.rpg_cli_words.specs.Outputs.{replaces};

use crate::files::FileArgument;

/// What is at the place of an output.
#[derive(Clone, Copy)]
pub enum Existing {
    /// Nothing, an empty file, or no regular one: nothing is lost.
    Nothing,
    ObjectProgram,
    /// A file whose name ends in `.rpg`.
    Source,
    Other,
}

/// Whether an output replaces what is at its place.
pub fn may_replace(written: FileArgument, existing: Existing, is_forced: bool) -> bool
    ensures { result ≡ replaces written existing is_forced }
{
    match (existing, written) {
        (Existing::Nothing, _) => true,
        (_, FileArgument::Fitted) => is_forced,
        (Existing::ObjectProgram, FileArgument::Object) => true,
        (_, FileArgument::Object) => false,
        (Existing::Other, _) => true,
        (Existing::ObjectProgram | Existing::Source, _) => false,
    }
}

/// An output that doesn't replace what is at its place.
#[derive(Clone, Copy)]
pub struct Unreplaced {
    pub written: FileArgument,
    pub existing: Existing,
}

impl Unreplaced {
    pub(crate) fn text(self) -> &'static str {
        match (self.written, self.existing) {
            (FileArgument::Fitted, _) => "exists: --force replaces it",
            (FileArgument::Object, _) => "would replace a file that isn't an object program",
            (_, Existing::ObjectProgram) => "would replace an object program",
            _ => "would replace a file whose name ends in .rpg",
        }
    }
}
