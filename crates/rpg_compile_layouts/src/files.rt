//! The files that groups of I and O cards belong to.

ghost use Rattle.std.specs.Prelude.{◌≡◌};
ghost use Rattle.std.specs.Option.{option_or};
ghost use Rattle.rpg_cards.specs.Files as files;
ghost use Rattle.rpg_compile_program.specs.Lines as lines;
ghost use Rattle.rpg_compile_program.specs.Types as types;

use rpg_cards::{FileUse, SpecCard, file_named, use_of};
use rpg_program::input::InputFile;
use rpg_program::line::File;
use rpg_sheet_specs::Word;

/// Returns the file that the first card of a group names, else the previous one.
pub(crate) fn own_or<'a>(
    own: &'a Option<Word<8>>,
    before: &'a Option<Word<8>>,
) -> &'a Option<Word<8>>
    ensures { result.now ≡ option_or own.now before.now }
{
    if own.is_some() { own } else { before }
}

/// Returns the output file with this name, or the printer if it isn't known.
pub(crate) fn put_on(cards: &[SpecCard], name: &Option<Word<8>>) -> File
    ensures { result ≡ lines.output_file (files.file_by name.now cards.now) }
{
    let Some(name) = name else {
        return File::Printer;
    };
    match file_named(name, cards) {
        Some(file) => put_by(use_of(file)),
        None => File::Printer,
    }
}

fn put_by(file_use: FileUse) -> File
    ensures { result ≡ lines.file_put file_use }
{
    match file_use {
        FileUse::Primary | FileUse::Secondary | FileUse::Printer => File::Printer,
        FileUse::Disk => File::Disk,
    }
}

/// Returns the input file with this name, or the primary one if it isn't known.
pub(crate) fn read_from(cards: &[SpecCard], name: &Option<Word<8>>) -> InputFile
    ensures { result ≡ types.input_file (files.file_by name.now cards.now) }
{
    let Some(name) = name else {
        return InputFile::Primary;
    };
    match file_named(name, cards) {
        Some(file) => read_by(use_of(file)),
        None => InputFile::Primary,
    }
}

fn read_by(file_use: FileUse) -> InputFile
    ensures { result ≡ types.file_read file_use }
{
    match file_use {
        FileUse::Secondary => InputFile::Secondary,
        FileUse::Primary | FileUse::Printer | FileUse::Disk => InputFile::Primary,
    }
}
